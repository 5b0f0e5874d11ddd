ghost use Rattle.std.specs.Prelude.{◌≡◌, ◌++◌, OnOk};
ghost use Rattle.fork_request.specs.Harms.{harm_line, harm_word};

use git_name::Name;
use std::alloc::AllocError;

/// What is wrong with the file of an object that some tenant holds.
#[derive(Clone, Copy, Debug, PartialEq, Eq)]
pub enum Harm {
    /// There is no file.
    Lost,
    /// There is a file that is not the object's.
    Damaged,
}

impl Harm {
    /// The word for the harm.
    pub fn word(self) -> &'static [u8]
        ensures { result.now ≡ harm_word self }
    {
        match self {
            Harm::Lost => b"lost",
            Harm::Damaged => b"damaged",
        }
    }

    /// Appends the line that reports this harm to the object of this name.
    pub fn write(self, name: Name, text: &mut Vec<u8>) -> Result<(), AllocError>
        ensures { OnOk result (text.new.items ≡ text.old.items ++ harm_line (name, self)) }
    {
        let mut digits = [0; 64];
        name.write_hex(&mut digits);
        text.extend_from_slice(self.word())?;
        text.push(b' ')?;
        text.extend_from_slice(digits.as_slice())?;
        text.push(b'\n')?;
        Ok(())
    }
}
