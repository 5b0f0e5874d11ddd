ghost use Rattle.std.specs.Prelude.{◌≡◌, ◌≢◌, ◌∷◌, ◌++◌, ℕ, List, IfOk, IfSome, IfNone, codes, string_bytes};
ghost use Rattle.hex.specs.Hex.{encode_lower};
ghost use Rattle.git_name.specs.Name.{IsName};
ghost use Rattle.folder_store.specs.Place.{home_with, place_of, part_of, swept_of, front_digits, rest_digits, name_of_parts};

use git_name::Name;
use std::alloc::{AllocError, Global};

/// The name of an object's file while it is written. The next start removes it.
pub(crate) const PART: &str = "part";

/// The folder of objects, in a host's folder.
pub(crate) const OBJECTS: &str = "objects/";

// The path of what is called so in the folder for files whose names begin with these bytes.
fn in_home(alloc: Global, first: &[u8], called: &str) -> Result<String, AllocError>
    ensures { IfOk result (λ path. string_bytes path ≡ codes "objects/" ++ encode_lower first.now ++ 47 ∷ called.now) }
{
    let front = hex::encode(alloc, first)?;
    let mut path = String::from_str(alloc, "objects/")?;
    path.push_str(front.as_str())?;
    path.push_str("/")?;
    path.push_str(called)?;
    Ok(path)
}

/// The path of the folder for files whose names begin with these bytes.
pub(crate) fn home_of(alloc: Global, first: &[u8]) -> Result<String, AllocError>
    ensures { IfOk result (λ path. string_bytes path ≡ home_with first.now) }
{
    in_home(alloc, first, "")
}

// The digits of a name that its file is called by: all but the first two.
fn rest_of(alloc: Global, name: Name) -> Result<String, AllocError>
    ensures { IfOk result (λ rest. string_bytes rest ≡ rest_digits name) }
{
    hex::encode(alloc, &name.as_bytes()[1..])
}

/// The path of the file of a name.
pub(crate) fn path_of(alloc: Global, name: Name) -> Result<String, AllocError>
    ensures path { IfOk result (λ path. string_bytes path ≡ place_of name) }
    ensures name { IsName name }
{
    let rest = rest_of(alloc, name)?;
    in_home(alloc, &name.as_bytes()[..1], rest.as_str())
}

/// The path of the file of a name while it is written.
pub(crate) fn part_path(alloc: Global, name: Name) -> Result<String, AllocError>
    ensures { IfOk result (λ path. string_bytes path ≡ part_of name) }
{
    in_home(alloc, &name.as_bytes()[..1], PART)
}

/// The path of the swept file of a name.
pub(crate) fn swept_path(alloc: Global, name: Name) -> Result<String, AllocError>
    ensures path { IfOk result (λ path. string_bytes path ≡ swept_of name) }
    ensures name { IsName name }
{
    let digits = hex::encode(alloc, name.as_bytes().as_slice())?;
    let mut path = String::from_str(alloc, "swept/")?;
    path.push_str(digits.as_str())?;
    Ok(path)
}

/// The name whose file is `rest` in the folder `front`. For any other folder or file, `None`.
pub(crate) fn name_at(front: &[u8], rest: &[u8]) -> Option<Name>
    ensures value { result ≡ name_of_parts front.now rest.now }
    ensures found { IfSome result (λ name. (front.now ≡ front_digits name) × (rest.now ≡ rest_digits name)) }
    ensures none { IfNone result ((name : List ℕ) → IsName name → front.now ≡ front_digits name → rest.now ≢ rest_digits name) }
{
    if front.len() != 2 {
        return None;
    }
    if rest.len() != 62 {
        return None;
    }
    let mut digits = [0; 64];
    digits[..2].copy_from_slice(front);
    digits[2..].copy_from_slice(rest);
    Name::parse_hex(digits.as_slice())
}
