ghost use Rattle.std.specs.Prelude.{◌≡◌, nat_lt, length};
ghost use Rattle.git_name.specs.Text.{words_of};

use fork_model::MAX_ITEMS;
use git_name::first_word;

// Whether these are more items than a query may have. Items are separated by one SP each.
pub(crate) fn has_many(items: &[u8]) -> bool
    ensures { result ≡ nat_lt MAX_ITEMS (length (words_of items.now)) }
{
    let mut rest = items;
    'items: for _ in 0..MAX_ITEMS {
        let Some((_, others)) = first_word(rest) else {
            return false;
        };
        rest = others;
    }
    true
}
