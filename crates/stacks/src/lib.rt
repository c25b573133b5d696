// The operands that wait: what the commands do with them.
#![tactic(auto)]

ghost use Rattle.std.specs.Prelude.{◌≡◌, [], ◌∷◌, ◌≤◌, ◌<◌, length};
ghost use Rattle.semantics.specs.Code.{command_row};
ghost use Rattle.stacks.specs.Run.{move};
ghost use Rattle.stacks.specs.Stacks.{OracleOnly, Ready, effect_of};

use semantics::{AmountList, Command, Refusal};
use std::marker::Model;

// Operands that wait, the last one on top, in a lent array. No arrayvec: that is cleared when it is made, at each size.
#[derive(Drop)]
pub struct Stack<'a> {
    operands: &'a mut [i64],
    count: usize,
}

// Clauses see the operands, the last one first, and for how many there is room.
impl<'a> Model for Stack<'a> {
    ghost use Rattle.std.specs.Prelude.{◌≤◌, length};
    ghost use Rattle.stacks.specs.Stacks.{Waiting, waiting, waiting_code};

    ghost Value = { Waiting };

    ghost coded = { waiting_code };

    ghost view = { λ s. record { operands = waiting s.operands.now s.count; room = length s.operands.now } };

    ghost invariant = { λ s. s.count ≤ length s.operands.now };
}

impl<'a> Stack<'a> {
    pub fn new(operands: &'a mut [i64]) -> Stack<'a>
        ensures empty { result.operands ≡ [] }
        ensures room { result.room ≡ length operands.old }
    {
        Stack { operands, count: 0 }
    }

    pub fn push(&mut self, operand: i64)
        requires { length self.old.operands < self.old.room }
        ensures operands { self.new.operands ≡ operand ∷ self.old.operands }
        ensures room { self.new.room ≡ self.old.room }
    {
        self.operands[self.count] = operand;
        self.count += 1;
    }

    fn pop(&mut self) -> i64
        requires { 1 ≤ length self.old.operands }
        ensures operands { result ∷ self.new.operands ≡ self.old.operands }
        ensures room { self.new.room ≡ self.old.room }
    {
        self.count -= 1;
        self.operands[self.count]
    }
}

// All that wait.
#[derive(Drop)]
pub struct Operands<'a> {
    pub values: Stack<'a>,
    pub indexes: Stack<'a>,
}

// What is left to do of a command, if it does not end the evaluation by a refusal: nothing; or a value from elsewhere is to be pushed, which is the amount
// of a list where an index step led, or the price of an oracle terminal; or a comparison ends the evaluation by its verdict.
#[derive(Clone, Copy)]
pub enum Effect {
    Nothing,
    Amount(AmountList, Option<i64>),
    Oracle,
    Verdict(bool),
}

// One command, by its operand bytes. Check refuses code with an unknown one, so that there is none here.
pub fn step(
    command: Command,
    bytes: &[u8],
    current: u64,
    operands: &mut Operands<'_>,
) -> Result<Effect, Refusal>
    requires ready { Ready command operands.old.values operands.old.indexes }
    requires bytes { length bytes.now ≡ (command_row command).width }
    ensures oracle_only { OracleOnly command result }
    ensures result_after { effect_of bytes.now operands.new.values.operands operands.new.indexes.operands result ≡ move current command bytes.now operands.old.values.operands operands.old.indexes.operands }
    ensures values_room { operands.new.values.room ≡ operands.old.values.room }
    ensures indexes_room { operands.new.indexes.room ≡ operands.old.indexes.room }
{
    let Operands { values, indexes } = operands;
    match command {
        Command::Unknown => {}
        Command::IdxConst => {
            let index = index64::from_u64(slices::read_le64(bytes, 0));
            indexes.push(index.ok_or(Refusal::IndexStep)?);
        }
        Command::CurrIdx => {
            let index = index64::from_u64(current);
            indexes.push(index.ok_or(Refusal::IndexStep)?);
        }
        Command::Index(op) => {
            let right = indexes.pop();
            let left = indexes.pop();
            let index = operations::index(op, left, right);
            indexes.push(index.ok_or(Refusal::IndexStep)?);
        }
        Command::Const => values.push(word64::signed(slices::read_le64(bytes, 0))),
        Command::CurrInputIdx => {
            return Ok(Effect::Amount(AmountList::Input, index64::from_u64(current)));
        }
        Command::Lookup(list) => return Ok(Effect::Amount(list, Some(indexes.pop()))),
        Command::Binary(op) => {
            let right = values.pop();
            let left = values.pop();
            values.push(operations::binary(op, left, right)?);
        }
        Command::Unary(op) => {
            let operand = values.pop();
            values.push(operations::unary(op, operand)?);
        }
        Command::PriceOracle1 | Command::PriceOracle1W => return Ok(Effect::Oracle),
        Command::Compare(op) => {
            let right = values.pop();
            let left = values.pop();
            return Ok(Effect::Verdict(operations::compare(op, left, right)));
        }
    }
    Ok(Effect::Nothing)
}
