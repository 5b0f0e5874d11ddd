// The line of a journal that refers to the log of open uploads.
ghost use Rattle.std.specs.Prelude.{◌≡◌, ◌∷◌, ◌++◌, [], false, ℕ, IfOk, IfSome, List, None, OnOk, codes, decimal as spelled, string_bytes};
ghost use Rattle.std.specs.Io.KnownBytes.{Consumes, Keeps};
ghost use Rattle.fork_program.specs.UploadLog.{is_reference, reference_line};

use git_name::{Name, decimal, split_once};
use std::alloc::{AllocError, Global};
use std::io;
use std::io::{BufRead, ErrorKind, Read};

// The most bytes of such a line before its LF.
const LONGEST: usize = 95;

/// Which log of open uploads a journal goes on from: its number, how many of its bytes count, and the sum after these.
#[derive(Clone, Copy, Debug)]
pub(crate) struct LogReference {
    pub(crate) number: u64,
    pub(crate) len: u64,
    pub(crate) sum: Name,
}

// A text, and a number after it.
fn numbered(alloc: Global, text: &str, number: u64) -> Result<String, AllocError>
    ensures { IfOk result (λ line. string_bytes line ≡ text.now ++ codes " " ++ spelled number) }
{
    format!(in alloc; "{text} {number}")
}

impl LogReference {
    /// The line, with its LF.
    pub(crate) fn line(&self, alloc: Global) -> Result<String, AllocError>
        ensures { IfOk result (λ line. string_bytes line ≡ reference_line self.now.number self.now.len self.now.sum) }
    {
        let digits = hex::encode(alloc, self.sum.as_bytes().as_slice())?;
        let front = numbered(alloc, "uploads", self.number)?;
        let mut line = numbered(alloc, front.as_str(), self.len)?;
        line.push_str(" ")?;
        line.push_str(digits.as_str())?;
        line.push_str("\n")?;
        Ok(line)
    }
}

// What a line says, without its LF.
fn reference_in(line: &[u8]) -> Option<LogReference>
    ensures { IfSome result (λ told. line.now ++ 10 ∷ [] ≡ reference_line told.number told.len told.sum) }
{
    let Some((word, words)) = split_once(line, b' ') else {
        return None;
    };
    if word != b"uploads".as_slice() {
        return None;
    }
    let Some((number, words)) = split_once(words, b' ') else {
        return None;
    };
    let Some((len, sum)) = split_once(words, b' ') else {
        return None;
    };
    let Some(number) = decimal(number) else {
        return None;
    };
    let Some(len) = decimal(len) else {
        return None;
    };
    let Some(sum) = Name::parse_hex(sum) else {
        return None;
    };
    if number != 1 && number != 2 {
        return None;
    }
    Some(LogReference { number, len, sum })
}

// Takes the bytes up to the next LF, and the LF.
fn take_line<R: Read>(reader: &mut R, line: &mut Vec<u8>) -> io::Result<()>
    ensures { OnOk result ((more : List ℕ) × Consumes (R.remaining reader.old) (R.remaining reader.new) (more ++ 10 ∷ []) × (line.new.items ≡ line.old.items ++ more)) }
{
    for _ in 0..LONGEST + 1 {
        let byte = take_byte(reader)?;
        if byte == b'\n' {
            return Ok(());
        }
        line.push(byte)?;
    }
    Err(io::Error::from(ErrorKind::InvalidData))
}

// Takes a byte.
fn take_byte<R: Read>(reader: &mut R) -> io::Result<u8>
    ensures { IfOk result (λ byte. Consumes (R.remaining reader.old) (R.remaining reader.new) (byte ∷ [])) }
{
    let mut byte = [0; 1];
    reader.read_exact(&mut byte)?;
    Ok(byte[0])
}

// Whether the next byte is the first one of the line. No piece of a log begins with it, for it would be too long.
fn is_next<R: BufRead>(reader: &mut R) -> io::Result<bool>
    ensures none { IfOk result (λ is. is ≡ false → IfSome (R.remaining reader.old) (λ bytes. is_reference bytes ≡ false)) }
    ensures bytes { Keeps (R.remaining reader.old) (R.remaining reader.new) }
{
    Ok(reader.fill_buf()?.starts_with(b"u".as_slice()))
}

/// Takes the line after the first one of a journal, if it refers to a log of open uploads. Otherwise takes nothing.
pub(crate) fn read_reference<R: BufRead>(
    alloc: Global,
    reader: &mut R,
) -> io::Result<Option<LogReference>>
    ensures none { IfOk result (λ found. found ≡ None → Keeps (R.remaining reader.old) (R.remaining reader.new) × IfSome (R.remaining reader.old) (λ bytes. is_reference bytes ≡ false)) }
    ensures line { IfOk result (λ found. IfSome found (λ told. Consumes (R.remaining reader.old) (R.remaining reader.new) (reference_line told.number told.len told.sum))) }
{
    if !is_next(reader)? {
        return Ok(None);
    }
    let mut line = Vec::new(alloc);
    take_line(reader, &mut line)?;
    match reference_in(line.as_slice()) {
        Some(reference) => Ok(Some(reference)),
        None => Err(io::Error::from(ErrorKind::InvalidData)),
    }
}
