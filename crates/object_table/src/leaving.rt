// Removes objects from what one tenant sees or has staged. Allocates nothing.
ghost use Rattle.std.specs.Prelude.{◌≡◌, true, ℕ};
ghost use Rattle.object_table.specs.Links.{is_among};
ghost use Rattle.object_table.specs.Views.{IsOne, Moves, words_of};
ghost use Rattle.object_table.specs.Words.{discarded_words, kept_words};

use crate::ledger::Ledger;
use crate::name_set::NameSet;
use crate::settling::settle;
use crate::table::Table;
use git_name::Nearby;
use number_links::NumberSet;

// Drops everything that is staged.
pub(crate) fn discard(table: &mut Table, own: &mut Ledger)
    requires one { IsOne table.old.entries own.old }
    ensures words { words_of table.new.entries own.new ≡ discarded_words (words_of table.old.entries own.old) }
    ensures moves { Moves table.old table.new own.old own.new }
    ensures one { IsOne table.new.entries own.new }
{
    table.invariant();
    let mut from = 0u32;
    while let Some(n) = own.next_staged(from) {
        let Some(entry) = table.numbered(n) else {
            unreachable!();
        };
        table.invariant();
        let seen = own.sees(n);
        settle(table, own, entry.1, seen, false);
        from = n + 1;
    }
    table.invariant();
    own.end_staging();
}

// Drops the visible objects whose names are not in the set.
pub(crate) fn keep_only<N: NameSet>(table: &mut Table, own: &mut Ledger, names: &N)
    requires one { IsOne table.old.entries own.old }
    ensures words { words_of table.new.entries own.new ≡ kept_words (N.names names.now) (words_of table.old.entries own.old) }
    ensures moves { Moves table.old table.new own.old own.new }
    ensures one { IsOne table.new.entries own.new }
{
    table.invariant();
    let nearby = Nearby::new();
    let mut from = 0u32;
    while let Some(n) = own.next_seen(from) {
        let Some(entry) = table.numbered(n) else {
            unreachable!();
        };
        table.invariant();
        let kept = names.has(&nearby, entry.0);
        let staged = own.has_staged(n);
        settle(table, own, entry.1, kept, staged);
        from = n + 1;
    }
    table.invariant();
}

// Drops the visible objects whose numbers are not in the set.
pub(crate) fn keep_numbers(table: &mut Table, own: &mut Ledger, numbers: &NumberSet)
    requires one { IsOne table.old.entries own.old }
    ensures words { words_of table.new.entries own.new ≡ kept_words (is_among table.old.entries numbers.now) (words_of table.old.entries own.old) }
    ensures moves { Moves table.old table.new own.old own.new }
    ensures one { IsOne table.new.entries own.new }
{
    table.invariant();
    let mut from = 0u32;
    while let Some(n) = own.next_beyond(numbers, from) {
        let Some(entry) = table.numbered(n) else {
            unreachable!();
        };
        table.invariant();
        let staged = own.has_staged(n);
        settle(table, own, entry.1, false, staged);
        from = n + 1;
    }
    table.invariant();
}
