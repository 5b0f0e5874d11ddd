ghost use Rattle.std.specs.Prelude.{◌≡◌, ◌∷◌, ◌++◌, [], IfOk, OnOk};
ghost use Rattle.git_refname.specs.Namespace.{expanded, namespace};

use std::alloc::{AllocError, Global};

/// Returns the prefix of every reference in the namespace `TENANT/REPOSITORY` (gitnamespaces(7)).
pub fn expand(alloc: Global, tenant: &[u8], repository: &[u8]) -> Result<Vec<u8>, AllocError>
    ensures { IfOk result (λ prefix. prefix.items ≡ expanded (tenant.now ∷ repository.now ∷ [])) }
{
    let mut prefix = Vec::new(alloc);
    put(&mut prefix, tenant)?;
    put(&mut prefix, repository)?;
    Ok(prefix)
}

// Appends the namespace of this name.
fn put(prefix: &mut Vec<u8>, name: &[u8]) -> Result<(), AllocError>
    ensures { OnOk result (prefix.new.items ≡ prefix.old.items ++ namespace name.now) }
{
    prefix.extend_from_slice(b"refs/namespaces/")?;
    prefix.extend_from_slice(name)?;
    prefix.extend_from_slice(b"/")?;
    Ok(())
}
