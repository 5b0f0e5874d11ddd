ghost use Rattle.std.specs.Prelude.{◌≡◌, ◌+◌, ◌↔◌, IsTrue, IfOk, IfErr, IfSome, Option, List, ℕ, false, codes};
ghost use Rattle.state_text.specs.Fault.{TellsLine};
ghost use Rattle.state_text.specs.Lines.{IsReadTo};
ghost use Rattle.state_text.specs.Reading.{IsNoWrongLine, ReadsText};
ghost use Rattle.state_text.specs.States as value;
ghost use Rattle.state_text.specs.Text.{IsStateText};

use crate::fault::StateFault;
use crate::line_fault::LineFault;
use crate::lines::Lines;
use crate::sharing::share_before;
use crate::states::States;
use crate::taking::take_line;
use crate::version::Version;
use git_name::Name;
use std::alloc::Global;
use std::io::Read;

/// Reads the states from a text of either version, the SHA-256 of the text, and its version. It reads the whole text, in
/// pieces of some 16 KiB, which need not be buffered. Its time is linear in the text's length, plus a few lookups in a map
/// for each reference.
pub fn read<R: Read>(alloc: Global, reader: &mut R) -> Result<(States, Name, Version), StateFault>
    // The text spells what is read.
    ensures found { IfOk result (λ read. ReadsText (R.remaining reader.old) (R.remaining reader.new) read.0 read.1 read.2) }
    // A state text is read, unless the reader fails or memory runs out.
    ensures only { IfSome (R.remaining reader.old) (λ text. (states : value.States) → IsStateText states text → IfOk result (λ read. read.0 ≡ states) × IfErr result IsNoWrongLine) }
    // The fault gives the wrong line.
    ensures exact { IfSome (R.remaining reader.old) (λ text. IfErr result (TellsLine text)) }
{
    read_lines(alloc, reader)
}

// The states, line by line.
fn read_lines<R: Read>(alloc: Global, reader: &mut R) -> Result<(States, Name, Version), StateFault>
    ensures found { IfOk result (λ read. ReadsText (R.remaining reader.old) (R.remaining reader.new) read.0 read.1 read.2) }
    ensures exact { IfSome (R.remaining reader.old) (λ text. IfErr result (TellsLine text)) }
{
    let mut lines = Lines::new(alloc);
    if !lines.next(alloc, reader)? {
        return Err(StateFault::Line(1));
    }
    let Some(version) = Version::of_line(lines.line.as_slice()) else {
        return Err(StateFault::Line(1));
    };
    let mut states = States::new(alloc);
    // Whether the next line must give a HEAD.
    let mut awaits = false;
    'lines: for number in 2..u64::MAX {
        if !lines.next(alloc, reader)? {
            return Err(StateFault::Line(number));
        }
        share_before(&mut states, lines.line.as_slice());
        if is_end(lines.line.as_slice(), awaits) {
            let Some(name) = lines.end(alloc, reader)? else {
                return Err(StateFault::Line(number + 1));
            };
            return Ok((states, name, version));
        }
        match take_line(alloc, version, &mut states, awaits, lines.line.as_slice()) {
            Ok(more) => awaits = more,
            Err(LineFault::Wrong) => return Err(StateFault::Line(number)),
            Err(LineFault::Memory) => return Err(StateFault::Memory),
        }
    }
    Err(StateFault::Read)
}

// Whether the line is the last one, which cannot come while a HEAD is awaited.
fn is_end(line: &[u8], awaits: bool) -> bool
    ensures { IsTrue result ↔ (line.now ≡ codes "end") × (awaits ≡ false) }
{
    if awaits {
        return false;
    }
    line == b"end".as_slice()
}
