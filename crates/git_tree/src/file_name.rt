ghost use Rattle.std.specs.Prelude.{◌≡◌, ◌∷◌, ◌++◌, ◌↔◌, IsTrue, IfSome, IfOk, IfErr};
ghost use Rattle.git_name.specs.Text.{Lacks};
ghost use Rattle.git_tree.specs.Entry.{IsFileName};
ghost use Rattle.git_tree.specs.Fault.{IsFormFault};
ghost use Rattle.git_tree.specs.declared.mode.Mode.{Mode};
ghost use Rattle.git_tree.specs.Mode.{digits};

use crate::fault::TreeFault;
use git_name::split_once;
use memchr::{memchr, memchr2};

// Whether an entry may have the file name. It contains no zero byte.
pub(crate) fn is_file_name(bytes: &[u8]) -> bool
    requires { Lacks 0 bytes.now }
    ensures { IsTrue result ↔ IsFileName bytes.now }
{
    match bytes {
        [] | b"." | b".." | b".git" => false,
        _ => memchr(b'/', bytes).is_none(),
    }
}

// The file name at the start and what follows its zero, if one scan shows that it is valid.
fn plain_file_name(bytes: &[u8]) -> Option<(&[u8], &[u8])>
    ensures whole { IfSome result (λ p. bytes.now ≡ p.0.now ++ 0 ∷ p.1.now) }
    ensures right { IfSome result (λ p. IsFileName p.0.now) }
{
    let Some(end) = memchr2(0, b'/', bytes) else {
        return None;
    };
    if bytes[end] != 0 {
        return None;
    }
    match &bytes[..end] {
        [] | b"." | b".." | b".git" => None,
        file_name => Some((file_name, &bytes[end + 1..])),
    }
}

// The file name at the start and what follows its zero.
pub(crate) fn take_file_name(bytes: &[u8]) -> Result<(&[u8], &[u8]), TreeFault>
    ensures whole { IfOk result (λ p. bytes.now ≡ p.0.now ++ 0 ∷ p.1.now) }
    ensures right { IfOk result (λ p. IsFileName p.0.now) }
    ensures fault { IfErr result (λ fault. (mode : Mode) → IsFormFault fault (digits mode ++ 32 ∷ bytes.now)) }
{
    if let Some(taken) = plain_file_name(bytes) {
        return Ok(taken);
    }
    let Some((file_name, rest)) = split_once(bytes, 0) else {
        return Err(TreeFault::Truncated);
    };
    if !is_file_name(file_name) {
        return Err(TreeFault::Name);
    }
    Ok((file_name, rest))
}
