// What a byte of condition code stands for, and how many operand bytes stand behind it.
#![tactic(auto)]

ghost use Rattle.std.specs.Prelude.{◌≡◌, ◌≤◌, length, map};
ghost use Rattle.semantics.specs.declared.Command.{Command};
ghost use Rattle.semantics.specs.Code.{command_in, command_of, command_row, known};
ghost use Rattle.semantics.specs.Operations.{cmp_ops};
ghost use Rattle.semantics.specs.Parse.{after};
ghost use Rattle.commands.specs.Cursor.{cursor_at};

use semantics::{AmountList, BinOp, CmpOp, Command, IdxOp, UnOp};

// The comparison that a byte stands for. The test comes first, so that the compiler does not make one table of these bytes and those of `command_of`: that would be
// too large for it to take `next` into the loops that call it.
fn comparison_of(byte: u8) -> Command
    ensures { result ≡ command_in (map Command.Compare cmp_ops) byte }
{
    if byte < 48 {
        return Command::Unknown;
    }
    match byte {
        48 => Command::Compare(CmpOp::Eq),
        49 => Command::Compare(CmpOp::Lt),
        50 => Command::Compare(CmpOp::Leq),
        51 => Command::Compare(CmpOp::Gt),
        52 => Command::Compare(CmpOp::Geq),
        _ => Command::Unknown,
    }
}

// The command that a byte stands for; no `From`, since neither type is of this crate.
#[tactic(auto, unfolding(semantics::specs::Code::command_of))]
pub fn command_of(byte: u8) -> Command
    ensures { result ≡ command_of byte }
{
    match byte {
        1 => Command::IdxConst,
        2 => Command::CurrIdx,
        3 => Command::Index(IdxOp::Add),
        4 => Command::Index(IdxOp::Sub),
        5 => Command::Index(IdxOp::Mul),
        6 => Command::Index(IdxOp::Div),
        16 => Command::Const,
        17 => Command::CurrInputIdx,
        18 => Command::Lookup(AmountList::Input),
        19 => Command::Lookup(AmountList::Output),
        20 => Command::Lookup(AmountList::InputIssue),
        21 => Command::Lookup(AmountList::InputReIssue),
        22 => Command::Binary(BinOp::Add),
        23 => Command::Binary(BinOp::Sub),
        24 => Command::Binary(BinOp::Mul),
        25 => Command::Binary(BinOp::Div),
        26 => Command::Binary(BinOp::Mod),
        27 => Command::Binary(BinOp::BitAnd),
        28 => Command::Binary(BinOp::BitOr),
        29 => Command::Binary(BinOp::Xor),
        30 => Command::Unary(UnOp::Invert),
        31 => Command::Unary(UnOp::Negate),
        32 => Command::PriceOracle1,
        33 => Command::PriceOracle1W,
        _ => comparison_of(byte),
    }
}

// Whether a command is that of some byte.
pub fn is_known(command: Command) -> bool
    ensures { result ≡ known command }
{
    command != Command::Unknown
}

// The number of operand bytes of a command.
pub fn width_of(command: Command) -> usize
    ensures { result ≡ (command_row command).width }
{
    match command {
        Command::IdxConst | Command::Const => 8,
        Command::PriceOracle1 | Command::PriceOracle1W => 40,
        _ => 0,
    }
}

fn index_byte(op: IdxOp) -> u8
    ensures { result ≡ (command_row (Command.Index op)).byte }
{
    match op {
        IdxOp::Add => 3,
        IdxOp::Sub => 4,
        IdxOp::Mul => 5,
        IdxOp::Div => 6,
    }
}

fn lookup_byte(list: AmountList) -> u8
    ensures { result ≡ (command_row (Command.Lookup list)).byte }
{
    match list {
        AmountList::Input => 18,
        AmountList::Output => 19,
        AmountList::InputIssue => 20,
        AmountList::InputReIssue => 21,
    }
}

fn binary_byte(op: BinOp) -> u8
    ensures { result ≡ (command_row (Command.Binary op)).byte }
{
    match op {
        BinOp::Add => 22,
        BinOp::Sub => 23,
        BinOp::Mul => 24,
        BinOp::Div => 25,
        BinOp::Mod => 26,
        BinOp::BitAnd => 27,
        BinOp::BitOr => 28,
        BinOp::Xor => 29,
    }
}

fn unary_byte(op: UnOp) -> u8
    ensures { result ≡ (command_row (Command.Unary op)).byte }
{
    match op {
        UnOp::Invert => 30,
        UnOp::Negate => 31,
    }
}

fn compare_byte(op: CmpOp) -> u8
    ensures { result ≡ (command_row (Command.Compare op)).byte }
{
    match op {
        CmpOp::Eq => 48,
        CmpOp::Lt => 49,
        CmpOp::Leq => 50,
        CmpOp::Gt => 51,
        CmpOp::Geq => 52,
    }
}

// The byte of a command; no `From` either.
pub fn byte_of(command: Command) -> u8
    ensures { result ≡ (command_row command).byte }
{
    match command {
        Command::Unknown => 0,
        Command::IdxConst => 1,
        Command::CurrIdx => 2,
        Command::Index(op) => index_byte(op),
        Command::Const => 16,
        Command::CurrInputIdx => 17,
        Command::Lookup(list) => lookup_byte(list),
        Command::Binary(op) => binary_byte(op),
        Command::Unary(op) => unary_byte(op),
        Command::PriceOracle1 => 32,
        Command::PriceOracle1W => 33,
        Command::Compare(op) => compare_byte(op),
    }
}

// A command, the place of its operand bytes, and the place of the command after it.
#[derive(Clone, Copy, Debug, PartialEq, Eq)]
pub struct Cursor {
    pub command: Command,
    pub operands: usize,
    pub next: usize,
}

// The command at a place of code that has its operand bytes.
pub fn next(code: &[u8], at: usize) -> Cursor
    requires { after code.now at ≤ length code.now }
    ensures { result ≡ cursor_at code.now at }
{
    let command = command_of(code[at]);
    Cursor {
        command,
        operands: at + 1,
        next: at + 1 + width_of(command),
    }
}
