ghost use Rattle.std.specs.Prelude.{◌≡◌, ◌∷◌, ◌++◌, IfOk, string_bytes};

use std::alloc::{AllocError, Global};

/// The path of an entry of a folder.
pub fn inside(alloc: Global, folder: &str, called: &str) -> Result<String, AllocError>
    ensures { IfOk result (λ path. string_bytes path ≡ folder.now ++ 47 ∷ called.now) }
{
    let mut path = String::from_str(alloc, folder)?;
    path.push_str("/")?;
    path.push_str(called)?;
    Ok(path)
}
