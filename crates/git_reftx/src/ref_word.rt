ghost use Rattle.std.specs.Prelude.{◌≡◌};

use std::marker::Model;

/// The word for a reference in a command: any bytes except SP and LF, valid or not. Contracts see it as
/// a list.
#[derive(Debug, Drop)]
pub struct RefWord {
    bytes: Vec<u8>,
}

impl Model for RefWord {
    ghost use Rattle.std.specs.Prelude.{List, ℕ};
    ghost use Rattle.std.specs.Coded.{coded_list, coded_ℕ};

    ghost Value = { List ℕ };

    ghost coded = { coded_list coded_ℕ };

    ghost view = { λ a. a.bytes.items };
}

impl RefWord {
    /// A word of these bytes. It allocates nothing.
    pub fn new(bytes: Vec<u8>) -> RefWord
        ensures { result ≡ bytes.items }
    {
        RefWord { bytes }
    }

    /// The bytes of the word.
    pub fn as_bytes(&self) -> &[u8]
        ensures { result.now ≡ self.now }
    {
        self.bytes.as_slice()
    }

    /// Consumes the word and returns its bytes. It allocates nothing.
    pub fn into_bytes(self) -> Vec<u8>
        ensures { result.items ≡ self }
    {
        let RefWord { bytes } = self;
        bytes
    }
}
