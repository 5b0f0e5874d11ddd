// The files of one store, put into another.
ghost use Rattle.std.specs.Prelude.{◌≡◌, IsTrue, OnOk, []};
ghost use Rattle.std.specs.FinMap as map;
ghost use Rattle.packed_store.specs.Copied.{IsCopied};

use git_name::Name;
use loose_store::{FileFault, LooseFiles};
use std::alloc::Global;

// Puts the file of a name into another store. One that is gone is a fault.
fn copy_file<A: LooseFiles, B: LooseFiles>(
    from: &mut A,
    to: &mut B,
    alloc: Global,
    name: Name,
) -> Result<(), FileFault>
    ensures copied { IsTrue (A.honest from.old) → IsTrue (B.honest to.old) → OnOk result (IsCopied name (A.contents from.old) (B.contents to.old) (B.contents to.new)) }
    ensures kept { IsTrue (A.honest from.old) → A.contents from.new ≡ A.contents from.old }
    ensures first { A.honest from.new ≡ A.honest from.old }
    ensures second { B.honest to.new ≡ B.honest to.old }
{
    let Some(bytes) = from.get(alloc, name)? else {
        return Err(FileFault::Device);
    };
    to.put(alloc, name, bytes.as_slice())
}

// Puts the files of all names of a store into one that has none.
fn copy_all<A: LooseFiles, B: LooseFiles>(
    from: &mut A,
    to: &mut B,
    alloc: Global,
) -> Result<(), FileFault>
    ensures copied { IsTrue (A.honest from.old) → IsTrue (B.honest to.old) → map.keys (B.contents to.old) ≡ [] → OnOk result (B.contents to.new ≡ A.contents from.old) }
    ensures kept { IsTrue (A.honest from.old) → A.contents from.new ≡ A.contents from.old }
    ensures first { A.honest from.new ≡ A.honest from.old }
    ensures second { B.honest to.new ≡ B.honest to.old }
{
    let names = from.names(alloc)?;
    for name in names {
        copy_file(from, to, alloc, name)?;
    }
    Ok(())
}

/// Copies all files of a store into one that has none, and syncs them there. A store that has a file is not copied to, and
/// that is a fault.
pub fn copy_files<A: LooseFiles, B: LooseFiles>(
    from: &mut A,
    to: &mut B,
    alloc: Global,
) -> Result<(), FileFault>
    ensures copied { IsTrue (A.honest from.old) → IsTrue (B.honest to.old) → OnOk result (B.contents to.new ≡ A.contents from.old) }
    ensures kept { IsTrue (A.honest from.old) → A.contents from.new ≡ A.contents from.old }
    ensures first { A.honest from.new ≡ A.honest from.old }
    ensures second { B.honest to.new ≡ B.honest to.old }
{
    let names = to.names(alloc)?;
    if !names.is_empty() {
        return Err(FileFault::Device);
    }
    copy_all(from, to, alloc)?;
    to.sync(alloc)
}
