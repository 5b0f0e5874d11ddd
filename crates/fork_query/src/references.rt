ghost use Rattle.std.specs.Prelude.{◌≡◌, ◌++◌, IfOk, OnOk, option_map};
ghost use Rattle.hex.specs.Hex.{encode_lower};
ghost use Rattle.git_refname.specs.Rule.{begins, ends};
ghost use Rattle.fork_query.specs.References.{is_asked, listing, matches, reference_row};

use fork_reach::Source;
use git_name::{Kind, Name};
use git_reftx::Refs;
use std::alloc::{AllocError, Global};

#[tactic(auto, unfolding(crate::specs::References::listing))]
/// The rows of the references that match the prefix, or of all references if there is no prefix, in ascending order
/// of their names. No object is read.
pub fn for_each_ref<S: Source>(
    alloc: Global,
    source: &S,
    references: &Refs,
    prefix: Option<&[u8]>,
) -> Result<Vec<u8>, AllocError>
    ensures { IfOk result (λ text. text.items ≡ listing (S.state source.now).objects references.now (option_map (λ word. word.now) prefix.entry)) }
{
    let mut text = Vec::new(alloc);
    for (name, target) in references.iter() {
        if !is_asked(prefix, name) {
            continue;
        }
        if let Some(kind) = source.kind_of(*target) {
            write_row(&mut text, name, *target, kind)?;
        }
    }
    Ok(text)
}

// Whether a reference is wanted.
fn is_asked(prefix: Option<&[u8]>, reference: &[u8]) -> bool
    ensures { result ≡ is_asked (option_map (λ word. word.now) prefix.entry) reference.now }
{
    match prefix {
        Some(prefix) => matches(prefix, reference),
        None => true,
    }
}

// Whether a reference is the prefix, or is below it.
fn matches(prefix: &[u8], reference: &[u8]) -> bool
    ensures { result ≡ matches prefix.now reference.now }
{
    if reference == prefix {
        return true;
    }
    if !reference.starts_with(prefix) {
        return false;
    }
    if prefix.ends_with(b"/") {
        return true;
    }
    reference[prefix.len()..].starts_with(b"/")
}

// Appends the row of a reference.
fn write_row(
    text: &mut Vec<u8>,
    reference: &[u8],
    target: Name,
    kind: Kind,
) -> Result<(), AllocError>
    ensures { OnOk result (text.new.items ≡ text.old.items ++ reference_row reference.now target kind) }
{
    let mut digits = [0; 64];
    target.write_hex(&mut digits);
    text.extend_from_slice(digits.as_slice())?;
    text.push(b' ')?;
    text.extend_from_slice(kind.word())?;
    text.push(b'\t')?;
    text.extend_from_slice(reference)?;
    text.push(b'\n')?;
    Ok(())
}
