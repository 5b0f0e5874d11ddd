ghost use Rattle.std.specs.Prelude.{◌≡◌, ◌<◌, ◌∷◌, ◌++◌, [], length};
ghost use Rattle.fork_frame.specs.declared.text.TheConstants.{LONGEST};

use std::marker::Model;

/// How many bytes are searched for the LF of a line. The longest valid line has one less, and then LF.
pub(crate) const LONGEST: usize = 41;

/// The bytes of a line as they are received, on the stack.
#[derive(Debug, Drop)]
pub(crate) struct Text {
    bytes: [u8; LONGEST],
    len: usize,
}

impl Model for Text {
    ghost use Rattle.std.specs.Prelude.{◌≤◌, List, ℕ, take};
    ghost use Rattle.std.specs.Coded.{coded_list, coded_ℕ};
    ghost use Rattle.fork_frame.specs.declared.text.TheConstants.{LONGEST};

    ghost Value = { List ℕ };

    ghost coded = { coded_list coded_ℕ };

    ghost view = { λ a. take a.len a.bytes };

    ghost invariant = { λ a. a.len ≤ LONGEST };
}

impl Text {
    pub(crate) fn new() -> Text
        ensures { result ≡ [] }
    {
        Text {
            bytes: [0; LONGEST],
            len: 0,
        }
    }

    pub(crate) fn len(&self) -> usize
        ensures { result ≡ length self.now }
    {
        self.len
    }

    pub(crate) fn push(&mut self, byte: u8)
        requires { length self.old < LONGEST }
        ensures { self.new ≡ self.old ++ byte ∷ [] }
    {
        self.bytes[self.len] = byte;
        self.len += 1;
    }

    pub(crate) fn as_bytes(&self) -> &[u8]
        ensures { result.now ≡ self.now }
    {
        &self.bytes[..self.len]
    }
}
