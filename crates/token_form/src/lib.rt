// The records of a condition's tokens, command by command: each command is lent the rest of the three columns.
// `Command::Unknown` is not met: Check has turned down code that has it, and `write_command` asks for a known command.
#![tactic(auto)]

ghost use Rattle.std.specs.Prelude.{IfSome, true, ◌≡◌, [], ◌∷◌, map, ◌+◌, ◌≤◌, ◌<◌, ◌^◌, length};
ghost use Rattle.slices.specs.Bytes.{over};
ghost use Rattle.semantics.specs.Code.{command_of, command_row, known};
ghost use Rattle.condition.specs.Walk.{Passed};
ghost use Rattle.keys.specs.Keys.{Inside, keys_at};
ghost use Rattle.token_form.specs.Fields.{Single, number_at, payload, place_at};
ghost use Rattle.semantics.specs.Parse.{operand_bytes};
ghost use Rattle.token_table.specs.Kinds.{number};
ghost use Rattle.token_table.specs.TokenRows.{tokens_of};
ghost use Rattle.forms.specs.Emitted.{emitted};
ghost use Rattle.token_form.specs.Storing.{Room, Stored, columns_of};

use commands::{command_of, width_of};
use semantics::Command;
use token_table::{TokenKind, token_row};

// What a command's operand bytes give its tokens: the number of a Num, which is 1 but for an index constant, and of a Bytes8, and the place of a Bytes32.
#[derive(Clone, Copy)]
struct Payload {
    number: u64,
    bits: u64,
    place: u32,
}

impl Payload {
    // The number and the place of a record of this kind.
    fn fields(self, kind: TokenKind) -> (u64, u32)
        ensures { (result.0 ≡ number_at self.number self.bits (number kind)) × (result.1 ≡ place_at self.place (number kind)) }
    {
        match kind {
            TokenKind::Num => (self.number, 0),
            TokenKind::Bytes8 => (self.bits, 0),
            TokenKind::Bytes32 => (0, self.place),
            _ => (0, 0),
        }
    }
}

#[tactic(auto, using(crate::proofs::Operands::time_bytes))]
fn payload_of(command: Command, code: &[u8], at: usize, place: u32) -> Payload
    requires { at + (command_row command).width ≤ length code.now }
    ensures { (result.number ≡ (payload command (operand_bytes command code.now at)).number) × (result.bits ≡ (payload command (operand_bytes command code.now at)).bits) × (result.place ≡ place) }
{
    let plain = Payload {
        number: 1,
        bits: 0,
        place,
    };
    match command {
        Command::IdxConst => Payload {
            number: slices::read_le64(code, at),
            ..plain
        },
        Command::Const => Payload {
            bits: slices::read_le64(code, at),
            ..plain
        },
        Command::PriceOracle1 | Command::PriceOracle1W => Payload {
            bits: slices::read_le64(code, at + 32),
            ..plain
        },
        _ => plain,
    }
}

// The records of a row of kinds.
fn write_row(
    row: &[TokenKind],
    payload: Payload,
    kinds: &mut [u8],
    numbers: &mut [u64],
    places: &mut [u32],
)
    requires { (length row.now ≤ length kinds.old) × (length row.now ≤ length numbers.old) × (length row.now ≤ length places.old) }
    ensures kinds_after { kinds.new ≡ over (map number row.now) kinds.old }
    ensures numbers_after { numbers.new ≡ over (map (number_at payload.number payload.bits) (map number row.now)) numbers.old }
    ensures places_after { places.new ≡ over (map (place_at payload.place) (map number row.now)) places.old }
{
    for (j, &kind) in row.iter().enumerate() {
        kinds[j] = kind.number();
        let (number, place) = payload.fields(kind);
        numbers[j] = number;
        places[j] = place;
    }
}

// The records of a command, whose operand bytes stand at `at`, at the front of what it is lent; its key, if it has one, is among those at the positions. The answer is the number of
// records.
fn write_command(
    command: Command,
    marked: bool,
    code: &[u8],
    at: usize,
    positions: &[u16],
    kinds: &mut [u8],
    numbers: &mut [u64],
    places: &mut [u32],
) -> usize
    requires command_value { (known command ≡ true) × (at + (command_row command).width ≤ length code.now) × (length positions.now < 2 ^ 16) × Inside code.now positions.now }
    requires room { Room (tokens_of command (operand_bytes command code.now at) marked) (columns_of kinds.old numbers.old places.old) }
    ensures value { result ≡ length (tokens_of command (operand_bytes command code.now at) marked) }
    ensures stored { Stored (tokens_of command (operand_bytes command code.now at) marked) (keys_at code.now positions.now) (columns_of kinds.old numbers.old places.old) (columns_of kinds.new numbers.new places.new) }
{
    let row = token_row(command);
    let records = row.len() - 1 + marked as usize;
    let place = keys::place_of(width_of(command), code, at, positions);
    let payload = payload_of(command, code, at, place);
    write_row(&row[..records], payload, kinds, numbers, places);
    records
}

// The kind of a byte's command that has one token, which carries nothing or the number of eight operand bytes.
#[tactic(auto, unfolding(semantics::specs::Code::command_of))]
fn kind_of(byte: u8) -> Option<TokenKind>
    ensures { IfSome result (λ kind. Single (command_of byte) (number kind)) }
{
    match byte {
        1 => Some(TokenKind::Num),
        2 => Some(TokenKind::CurrInp),
        3 => Some(TokenKind::Add),
        4 => Some(TokenKind::Sub),
        16 => Some(TokenKind::Bytes8),
        27 => Some(TokenKind::And),
        28 => Some(TokenKind::Or),
        29 => Some(TokenKind::Xor),
        30 => Some(TokenKind::Invert),
        48 => Some(TokenKind::Equal),
        49 => Some(TokenKind::Le64),
        50 => Some(TokenKind::Leq64),
        51 => Some(TokenKind::Ge64),
        52 => Some(TokenKind::Geq64),
        _ => None,
    }
}

// One record, with no place.
fn write_one(kind: TokenKind, value: u64, kinds: &mut [u8], numbers: &mut [u64], places: &mut [u32])
    requires { (1 ≤ length kinds.old) × (1 ≤ length numbers.old) × (1 ≤ length places.old) }
    ensures kinds_after { kinds.new ≡ over (number kind ∷ []) kinds.old }
    ensures numbers_after { numbers.new ≡ over (value ∷ []) numbers.old }
    ensures places_after { places.new ≡ over (0 ∷ []) places.old }
{
    kinds[0] = kind.number();
    numbers[0] = value;
    places[0] = 0;
}

// How many records a byte's command took, and how many operand bytes it has.
#[derive(Clone, Copy)]
struct Next {
    records: usize,
    width: usize,
}

// The records of a byte's command, as `write_command` writes them; most commands have one token, which is written at once.
fn write_next(
    byte: u8,
    marked: bool,
    code: &[u8],
    at: usize,
    positions: &[u16],
    kinds: &mut [u8],
    numbers: &mut [u64],
    places: &mut [u32],
) -> Next
    requires byte_value { (known (command_of byte) ≡ true) × (at + (command_row (command_of byte)).width ≤ length code.now) × (length positions.now < 2 ^ 16) × Inside code.now positions.now }
    requires room { Room (tokens_of (command_of byte) (operand_bytes (command_of byte) code.now at) marked) (columns_of kinds.old numbers.old places.old) }
    ensures records_value { (result.records ≡ length (tokens_of (command_of byte) (operand_bytes (command_of byte) code.now at) marked)) × (result.width ≡ (command_row (command_of byte)).width) }
    ensures stored { Stored (tokens_of (command_of byte) (operand_bytes (command_of byte) code.now at) marked) (keys_at code.now positions.now) (columns_of kinds.old numbers.old places.old) (columns_of kinds.new numbers.new places.new) }
{
    if !marked {
        if let Some(kind) = kind_of(byte) {
            if !kind.has_number() {
                write_one(kind, 0, kinds, numbers, places);
                return Next {
                    records: 1,
                    width: 0,
                };
            }
            let number = slices::read_le64(code, at);
            write_one(kind, number, kinds, numbers, places);
            return Next {
                records: 1,
                width: 8,
            };
        }
    }
    let command = command_of(byte);
    let width = width_of(command);
    let records = write_command(command, marked, code, at, positions, kinds, numbers, places);
    Next { records, width }
}

// The records of all commands, of which `marks` says which are marked; their keys are those at the positions. The columns are three slices, and not one struct of them, whose rest
// could not be lent: a `&mut` that is passed on through another `&mut` for as long as that has no proof.
pub fn write_records(
    code: &[u8],
    marks: &[bool],
    positions: &[u16],
    kinds: &mut [u8],
    numbers: &mut [u64],
    places: &mut [u32],
)
    requires passed { Passed code.now (λ s. s.tokens ≤ length marks.now) × (length positions.now < 2 ^ 16) × Inside code.now positions.now }
    requires room { Room (emitted code.now marks.now) (columns_of kinds.old numbers.old places.old) }
    ensures { Stored (emitted code.now marks.now) (keys_at code.now positions.now) (columns_of kinds.old numbers.old places.old) (columns_of kinds.new numbers.new places.new) }
{
    let mut at = 0;
    let mut count = 0;
    let mut n = 0;
    // each command says itself where the next one stands
    while at < code.len() {
        let taken = write_next(
            code[at],
            marks[count],
            code,
            at + 1,
            positions,
            &mut kinds[n..],
            &mut numbers[n..],
            &mut places[n..],
        );
        n += taken.records;
        count += 1;
        at = at + 1 + taken.width;
    }
}
