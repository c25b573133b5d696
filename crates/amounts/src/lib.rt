// The amounts of a transaction: whether its lists are sound, and a lookup in one of them.
#![tactic(auto)]

ghost use Rattle.std.specs.Prelude.{◌≡◌, pos};
ghost use Rattle.semantics.specs.Operations.{list_row};
ghost use Rattle.semantics.specs.Evaluation.{amount, amounts};
ghost use Rattle.semantics.specs.Evaluate.{are_marks, env_sound, paired};
ghost use Rattle.amounts.specs.Transactions.{amounts_in, env_in};
ghost use Rattle.amounts.specs.Looked.{looked};

use semantics::{AmountList, Refusal};

// A list of amounts: the number of each slot, and its mark, 1 where the amount is explicit.
#[derive(Clone, Copy)]
pub struct Amounts<'a> {
    pub numbers: &'a [u64],
    pub marks: &'a [u8],
}

// What an evaluation goes by of a transaction: its amounts, and the index of the input that the condition stands at.
#[derive(Clone, Copy)]
pub struct Transaction<'a> {
    pub spent: Amounts<'a>,
    pub outputs: Amounts<'a>,
    pub issued: Amounts<'a>,
    pub reissued: Amounts<'a>,
    pub current: u64,
}

// ---- refusal 8

fn are_marks(marks: &[u8]) -> bool
    ensures { result ≡ are_marks marks.now }
{
    marks.iter().all(|&mark| mark <= 1)
}

impl Amounts<'_> {
    // Whether there is a mark for each number.
    fn is_paired(&self) -> bool
        ensures { result ≡ paired (amounts_in self.now) }
    {
        self.numbers.len() == self.marks.len() && are_marks(self.marks)
    }

    // The amount at i, where this is a transaction's list.
    #[tactic(auto, unfolding(semantics::specs::Evaluation::amount))]
    fn get(&self, list: AmountList, i: u64) -> Result<i64, Refusal>
        ensures { result ≡ amount (amounts_in self.now) list (pos i) }
    {
        let k = i as usize;
        let Some(&number) = self.numbers.get(k) else {
            return Err(outside(list, i, self.numbers.len()));
        };
        // sound lists have a mark for each number
        if self.marks.get(k) != Some(&1) {
            return Err(hidden(list, i));
        }
        Ok(word64::signed(number))
    }
}

// ---- a lookup

fn outside(list: AmountList, i: u64, count: usize) -> Refusal
    ensures { result ≡ (list_row list).outside i count }
{
    match list {
        AmountList::Input => Refusal::UtxoIndexOutOfBounds(i, count),
        AmountList::Output => Refusal::OutputIndexOutOfBounds(i, count),
        AmountList::InputIssue | AmountList::InputReIssue => {
            Refusal::InputIndexOutOfBounds(i, count)
        }
    }
}

fn hidden(list: AmountList, i: u64) -> Refusal
    ensures { result ≡ (list_row list).hidden i }
{
    match list {
        AmountList::Input => Refusal::NonExplicitInput(i),
        AmountList::Output => Refusal::NonExplicitOutput(i),
        AmountList::InputIssue => Refusal::NonExplicitInputIssuance(i),
        AmountList::InputReIssue => Refusal::NonExplicitInputReIssuance(i),
    }
}

impl<'a> Transaction<'a> {
    // Whether each list has a mark for each number, and there is a slot of each for each input.
    pub fn is_sound(&self) -> bool
        ensures { result ≡ env_sound (env_in self.now) }
    {
        self.spent.is_paired()
            && self.outputs.is_paired()
            && self.issued.is_paired()
            && self.reissued.is_paired()
            && self.issued.numbers.len() == self.spent.numbers.len()
            && self.reissued.numbers.len() == self.spent.numbers.len()
    }

    fn list(&self, list: AmountList) -> &Amounts<'a>
        ensures { amounts_in result.now ≡ amounts (env_in self.now) list }
    {
        match list {
            AmountList::Input => &self.spent,
            AmountList::Output => &self.outputs,
            AmountList::InputIssue => &self.issued,
            AmountList::InputReIssue => &self.reissued,
        }
    }

    // The amount that a list has where an index step led.
    #[tactic(auto, unfolding(semantics::specs::Evaluation::amount))]
    pub fn look_up(&self, list: AmountList, step: Option<i64>) -> Result<i64, Refusal>
        ensures { result ≡ looked (env_in self.now) list step }
    {
        let index = step.ok_or(Refusal::IndexStep)?;
        let i = u64::try_from(index).or(Err(Refusal::NegativeIndex))?;
        self.list(list).get(list, i)
    }
}
