// A command that the tokens before a place end with.
ghost use Rattle.std.specs.Prelude.{◌≡◌, true, IfSome};
ghost use Rattle.std.proofs.Props.{props};
ghost use Rattle.semantics.specs.Code.{known};

use commands::width_of;
use semantics::{Command, Terminal};

// A command that has a byte, if there is one, and the place of its first token.
#[derive(Clone, Copy)]
pub struct CommandAt {
    pub command: Option<Command>,
    pub first: usize,
    pub ghost known: { IfSome command (λ c. known c ≡ true) } by { Prim.hlevel props },
}

impl CommandAt {
    ghost use Rattle.emission.specs.Pieces.{size_of, spot_of, terminal_of};

    // The number of bytes of a command's piece: the command's, and its operands'.
    pub fn size(self) -> usize
        ensures { result ≡ size_of (spot_of self).command }
    {
        match self.command {
            Some(command) => 1 + width_of(command),
            None => 0,
        }
    }

    // What a command is to the oracle rule.
    pub fn terminal(self) -> Terminal
        ensures { result ≡ terminal_of (spot_of self).command }
    {
        match self.command {
            Some(Command::PriceOracle1) => Terminal::PriceOracle1,
            Some(Command::PriceOracle1W) => Terminal::PriceOracle1W,
            _ => Terminal::Other,
        }
    }
}
