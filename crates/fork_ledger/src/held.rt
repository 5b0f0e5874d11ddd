ghost use Rattle.std.specs.Prelude.{◌≡◌, option_map};
ghost use Rattle.fork_ledger.specs.Words.{held_of_word};

use git_name::Kind;
use object_table::Word;

/// What is known about a tenant's object without its bytes: its kind, its length in bytes, whether the tenant sees
/// it, and whether the tenant has staged it. An object may be both visible and staged.
#[derive(Clone, Copy, Debug, PartialEq, Eq)]
pub struct Held {
    pub kind: Kind,
    pub length: u64,
    pub visible: bool,
    pub staged: bool,
}

// What a ledger's word says about an object.
pub(crate) fn held_of(word: Option<Word>) -> Option<Held>
    ensures { result ≡ option_map held_of_word word }
{
    let Some(word) = word else {
        return None;
    };
    Some(Held {
        kind: word.kind,
        length: word.length,
        visible: word.is_visible(),
        staged: word.is_staged(),
    })
}
