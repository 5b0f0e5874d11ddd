ghost use Rattle.std.specs.Prelude.{IfOk, IfErr};
ghost use Rattle.git_tree.specs.Entry.{plain_entry, IsEntry};
ghost use Rattle.git_tree.specs.Fault.{IsPlaceFault};
ghost use Rattle.git_tree.specs.Row.{entries_in, IsRow};
ghost use Rattle.git_tree.specs.Tracks.{Tracks, FollowsLast, MayFollow, reached_by};

use crate::entry::TreeEntry;
use crate::fault::TreeFault;
use crate::fronts::Fronts;
use crate::order::{is_below, shared_len};
use crate::row::stands_among;

// The last entry's file name, and whether it is a tree.
#[derive(Clone, Copy, Debug)]
pub(crate) struct Last<'a> {
    pub(crate) file_name: &'a [u8],
    pub(crate) is_tree: bool,
}

// Judges whether the next entry may come after those in `before`, whose last one is given. Returns how many
// bytes the two file names share at the start. The entries before are read again only if one of them may have
// the file name, or the next one is out of order.
pub(crate) fn place<const DEPTH: usize>(
    last: Last<'_>,
    fronts: &Fronts<DEPTH>,
    before: &[u8],
    entry: TreeEntry<'_>,
) -> Result<usize, TreeFault>
    requires tracks { Tracks (entries_in before.now) (reached_by last fronts.now) }
    requires row { IsRow before.now }
    requires entry { IsEntry (plain_entry entry) }
    ensures follows { IfOk result (λ _. MayFollow (entries_in before.now) (plain_entry entry.entry)) }
    ensures steps { IfOk result (λ shared. FollowsLast (reached_by last.entry fronts.now) (plain_entry entry.entry) shared) }
    ensures fault { IfErr result (λ fault. IsPlaceFault fault (entries_in before.now) (plain_entry entry.entry)) }
{
    let is_tree = entry.mode.is_tree();
    let shared = shared_len(last.file_name, entry.file_name);
    let in_order = is_below(
        last.file_name,
        last.is_tree,
        entry.file_name,
        is_tree,
        shared,
    );
    if !in_order {
        if stands_among(before, entry.file_name) {
            return Err(TreeFault::Repeated);
        }
        return Err(TreeFault::Order);
    }
    let may_repeat = fronts.may_hold(shared, entry.file_name.len(), is_tree);
    if may_repeat && stands_among(before, entry.file_name) {
        return Err(TreeFault::Repeated);
    }
    Ok(shared)
}
