ghost use Rattle.std.specs.Prelude.{◌≡◌, ◌++◌, IfOk, OnOk};
ghost use Rattle.fork_query.specs.Head.{head_line, head_told};

use git_name::Name;
use git_reftx::Repository;
use std::alloc::{AllocError, Global};

#[tactic(auto, unfolding(crate::specs::Head::head_told))]
/// The branch that HEAD names, and the object that the branch points at, if it exists.
pub fn head(alloc: Global, repository: &Repository) -> Result<Vec<u8>, AllocError>
    ensures { IfOk result (λ text. text.items ≡ head_told repository.now) }
{
    let branch = repository.head().name();
    let target = repository.references().get(branch);
    let mut text = Vec::new(alloc);
    write_line(&mut text, branch.as_bytes(), target)?;
    Ok(text)
}

// Appends the line of a branch.
fn write_line(text: &mut Vec<u8>, branch: &[u8], target: Option<Name>) -> Result<(), AllocError>
    ensures { OnOk result (text.new.items ≡ text.old.items ++ head_line branch.now target) }
{
    text.extend_from_slice(branch)?;
    if let Some(name) = target {
        let mut digits = [0; 64];
        name.write_hex(&mut digits);
        text.push(b' ')?;
        text.extend_from_slice(digits.as_slice())?;
    }
    text.push(b'\n')?;
    Ok(())
}
