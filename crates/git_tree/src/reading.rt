ghost use Rattle.std.specs.Prelude.{◌≡◌, ◌∷◌, ◌++◌, ◌<◌, length, IfSome, IfNone, IfOk, IfErr};
ghost use Rattle.git_name.specs.Name.{IsName};
ghost use Rattle.git_tree.specs.Entry.{IsEntry, spelled, plain_entry};
ghost use Rattle.git_tree.specs.Fault.{IsFormFault};
ghost use Rattle.git_tree.specs.declared.mode.Mode.{Mode};
ghost use Rattle.git_tree.specs.Mode.{digits};

use crate::entry::TreeEntry;
use crate::fault::TreeFault;
use crate::file_name::take_file_name;
use crate::mode::Mode;
use git_name::{Name, split_once};

// The name at the start, and the bytes after it.
fn take_name(bytes: &[u8]) -> Option<(Name, &[u8])>
    ensures whole { IfSome result (λ p. bytes.now ≡ p.0 ++ p.1.now) }
    ensures name { IfSome result (λ p. IsName p.0) }
    ensures none { IfNone result (length bytes.now < 32) }
{
    let Some((front, rest)) = bytes.split_first_chunk::<32>() else {
        return None;
    };
    Some((Name::new(*front), rest))
}

// The mode at the start and what follows its space, if it is one of the common modes.
fn plain_mode(bytes: &[u8]) -> Option<(Mode, &[u8])>
    ensures { IfSome result (λ p. bytes.now ≡ digits p.0 ++ 32 ∷ p.1.now) }
{
    match bytes {
        [b'1', b'0', b'0', b'6', b'4', b'4', b' ', rest @ ..] => Some((Mode::File, rest)),
        [b'4', b'0', b'0', b'0', b'0', b' ', rest @ ..] => Some((Mode::Tree, rest)),
        [b'1', b'0', b'0', b'7', b'5', b'5', b' ', rest @ ..] => Some((Mode::Executable, rest)),
        _ => None,
    }
}

// The mode at the start and what follows its space.
fn take_mode(bytes: &[u8]) -> Result<(Mode, &[u8]), TreeFault>
    ensures whole { IfOk result (λ p. bytes.now ≡ digits p.0 ++ 32 ∷ p.1.now) }
    ensures fault { IfErr result (λ fault. IsFormFault fault bytes.now) }
{
    if let Some(taken) = plain_mode(bytes) {
        return Ok(taken);
    }
    let Some((digits, rest)) = split_once(bytes, b' ') else {
        return Err(TreeFault::Truncated);
    };
    match Mode::from_digits(digits) {
        Some(mode) => Ok((mode, rest)),
        None => Err(TreeFault::Mode),
    }
}

// The entry at the start, and the bytes after it.
pub(crate) fn take_entry(bytes: &[u8]) -> Result<(TreeEntry<'_>, &[u8]), TreeFault>
    requires { 0 < length bytes.now }
    ensures entry { IfOk result (λ x. IsEntry (plain_entry x.0)) }
    ensures parts { IfOk result (λ x. bytes.now ≡ spelled (plain_entry x.0) ++ x.1.now) }
    ensures fault { IfErr result (λ fault. IsFormFault fault bytes.now) }
{
    let (mode, rest) = take_mode(bytes)?;
    let (file_name, rest) = take_file_name(rest)?;
    let Some((name, rest)) = take_name(rest) else {
        return Err(TreeFault::Truncated);
    };
    let entry = TreeEntry {
        mode,
        file_name,
        name,
    };
    Ok((entry, rest))
}
