ghost use Rattle.std.specs.Prelude.{◌≡◌, IfOk, IfErr, List, Ok};
ghost use Rattle.std.specs.Result.{result_ok};
ghost use Rattle.git_tree.specs.Entry.{Entry};
ghost use Rattle.git_tree.specs.Fault.{IsTreeFault};
ghost use Rattle.git_tree.specs.Row.{entries_in};
ghost use Rattle.git_tree.specs.Tree.{IsTree};
ghost use Rattle.git_tree.specs.TreeIn.{tree_in};

use crate::fault::TreeFault;
use crate::fronts::{Fronts, MANY};
use crate::place::{Last, place};
use crate::reading::take_entry;
use crate::row::Entries;

// A tree of at most this many bytes has fewer than `FEW` file names that each begin with the one before:
// `FEW` of them would take 4,640 bytes.
const SHORT: usize = 4096;

const FEW: usize = 64;

// Checks that the bytes are a tree. For a short one few lengths are kept, since clearing room for many takes
// longer than reading it.
fn check(bytes: &[u8]) -> Result<(), TreeFault>
    ensures found { IfOk result (λ _. IsTree (entries_in bytes.now) bytes.now) }
    ensures exact { IfErr result (λ fault. IsTreeFault fault bytes.now) }
{
    if bytes.len() <= SHORT {
        check_by(bytes, &mut Fronts::<FEW>::new())
    } else {
        check_by(bytes, &mut Fronts::<MANY>::new())
    }
}

// Checks that the bytes are a tree, keeping at most `DEPTH` lengths.
fn check_by<const DEPTH: usize>(bytes: &[u8], fronts: &mut Fronts<DEPTH>) -> Result<(), TreeFault>
    ensures found { IfOk result (λ _. IsTree (entries_in bytes.now) bytes.now) }
    ensures exact { IfErr result (λ fault. IsTreeFault fault bytes.now) }
{
    let mut last = Last {
        file_name: &bytes[..0],
        is_tree: false,
    };
    let mut at = 0;
    while at < bytes.len() {
        let (entry, after) = match take_entry(&bytes[at..]) {
            Ok(taken) => taken,
            Err(fault) => return Err(fault),
        };
        let (file_name, is_tree) = (entry.file_name, entry.mode.is_tree());
        let shared = match place(last, fronts, &bytes[..at], entry) {
            Ok(shared) => shared,
            Err(fault) => return Err(fault),
        };
        fronts.advance(shared, file_name.len(), is_tree);
        last = Last { file_name, is_tree };
        at = bytes.len() - after.len();
    }
    Ok(())
}

/// Checks that the bytes are a tree, and returns its entries. It allocates nothing. Its time is linear in the
/// length, at least up to 8 MiB, whatever the bytes are.
pub fn entries(bytes: &[u8]) -> Result<Entries<'_>, TreeFault>
    // The entries of the tree that the bytes are, if they are one.
    ensures value { result_ok result ≡ tree_in bytes.now }
    // What is read is a tree of these entries.
    ensures found { IfOk result (λ row. IsTree row bytes.now) }
    // Every tree is read.
    ensures only { (row : List Entry) → IsTree row bytes.now → result ≡ Ok row }
    // Which fault it is.
    ensures exact { IfErr result (λ fault. IsTreeFault fault bytes.now) }
{
    check(bytes)?;
    Ok(Entries::new(bytes))
}
