// The file name of a journal, and its first line.
ghost use Rattle.std.specs.Prelude.{◌≡◌, ◌++◌, IfOk, IfSome, List, Some, codes, ℕ};
ghost use Rattle.std.specs.Io.KnownBytes.{Consumes};
ghost use Rattle.git_name.specs.Name.{IsName};
ghost use Rattle.hex.specs.Hex.{encode_lower};
ghost use Rattle.host_folder.specs.Journal.{first_line, journal_called};

use git_name::Name;
use std::io;
use std::io::{ErrorKind, Read};

// The length of a first line before the name in it.
const WORDS: usize = 10;

const NAME_END: usize = WORDS + 64;

/// The length of a first line, with its LF.
pub(crate) const LINE: usize = NAME_END + 1;

/// How many bytes the first line of a journal has, with its LF.
pub const JOURNAL_LINE: u64 = 75;

/// The name of the journal of version 2 whose file is called so.
pub(crate) fn name_called(text: &[u8]) -> Option<Name>
    ensures called { IfSome result (λ name. text.now ≡ journal_called name) }
    ensures name { IfSome result IsName }
    ensures named { (name : List ℕ) → IsName name → text.now ≡ journal_called name → result ≡ Some name }
{
    if text.len() != 66 {
        return None;
    }
    let (digits, end) = text.split_at(64);
    if end != b".2".as_slice() {
        return None;
    }
    Name::parse_hex(digits)
}

/// The first line of a journal that is begun when the state's text has this name.
pub(crate) fn line_of(standing: Name) -> [u8; LINE]
    ensures { result ≡ first_line standing }
{
    let mut digits = [0; 64];
    standing.write_hex(&mut digits);
    let mut line = [b'\n'; LINE];
    line[..WORDS].copy_from_slice(b"journal 2 ");
    line[WORDS..NAME_END].copy_from_slice(&digits);
    line
}

// The name in a first line.
fn name_in(line: &[u8; LINE]) -> Option<Name>
    ensures line { IfSome result (λ name. line.now ≡ first_line name) }
    ensures name { IfSome result IsName }
{
    let Some(name) = Name::parse_hex(&line[WORDS..NAME_END]) else {
        return None;
    };
    if line_of(name) != *line {
        return None;
    }
    Some(name)
}

/// Reads the first line of a journal, and returns the name in it.
pub(crate) fn read_line<R: Read>(reader: &mut R) -> io::Result<Name>
    ensures line { IfOk result (λ name. Consumes (R.remaining reader.old) (R.remaining reader.new) (first_line name)) }
    ensures name { IfOk result IsName }
{
    let mut line = [0; LINE];
    reader.read_exact(&mut line)?;
    match name_in(&line) {
        Some(name) => Ok(name),
        None => Err(io::Error::from(ErrorKind::InvalidData)),
    }
}
