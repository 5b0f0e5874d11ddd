ghost use Rattle.std.specs.Prelude.{◌≡◌, ◌<◌, ◌&&◌, ◌||◌, not, true, false, cond, [], ◌∷◌, List, ℕ, IfOk, OnOk, length, map, slice_get};
ghost use Rattle.std.specs.HashSet.{contains};
ghost use Rattle.std.specs.List.{list_any, slice_index_or};
ghost use Rattle.git_name.specs.Same.{same_name};
ghost use Rattle.fork_reach.specs.History.{notes_under, parents_of_noted};
ghost use Rattle.fork_reach.specs.Marks.{Fits, SeesPlaces, is_marked, listed_name};
ghost use Rattle.fork_reach.specs.NotedBases.{is_ancestor_noted, is_best_noted, is_common_noted, is_other_parent};

use crate::noted::Noted;
use git_name::{Hashing, Name, Nearby};
use indexmap::IndexSet;
use std::alloc::{AllocError, Global};

// The commits of a history, each at the place of its name. A walk keeps its findings as flags at these places, so
// that it hashes a name only if it is not near the one before.
#[derive(Drop)]
pub(crate) struct Places<'a> {
    pub(crate) names: &'a IndexSet<Name, Hashing>,
    pub(crate) nearby: &'a Nearby,
    pub(crate) notes: &'a [Noted],
}

// Clears the flags that are not set among the others.
fn keep_among(marks: &mut [bool], others: &[bool])
    requires { length others.now ≡ length marks.old }
    ensures each { (at : ℕ) → slice_index_or marks.new at false ≡ (slice_index_or others.now at false && slice_index_or marks.old at false) }
    ensures len { length marks.new ≡ length marks.old }
{
    for at in 0..marks.len() {
        marks[at] = others[at] && marks[at];
    }
}

// Clears the flags that are set among the others.
fn take_out(marks: &mut [bool], others: &[bool])
    requires { length others.now ≡ length marks.old }
    ensures each { (at : ℕ) → slice_index_or marks.new at false ≡ (not (slice_index_or others.now at false) && slice_index_or marks.old at false) }
    ensures len { length marks.new ≡ length marks.old }
{
    for at in 0..marks.len() {
        marks[at] = !others[at] && marks[at];
    }
}

impl<'a> Places<'a> {
    // If the name has a place and its flag is not yet set, sets the flag and adds the place to `waiting`.
    fn mark(
        &self,
        name: Name,
        marks: &mut [bool],
        waiting: &mut Vec<usize>,
    ) -> Result<(), AllocError>
        requires { Fits self.now.names.now.keys self.now.notes.now marks.old waiting.old.items }
        ensures { OnOk result (SeesPlaces self.now.names.now.keys self.now.notes.now (name ∷ []) marks.old waiting.old.items marks.new waiting.new.items) }
    {
        let Some(at) = self.nearby.place(self.names, name) else {
            return Ok(());
        };
        if marks[at] {
            return Ok(());
        }
        marks[at] = true;
        waiting.push(at)?;
        Ok(())
    }

    // Does the same for each of these names.
    fn mark_all(
        &self,
        names: &[Name],
        marks: &mut [bool],
        waiting: &mut Vec<usize>,
    ) -> Result<(), AllocError>
        requires { Fits self.now.names.now.keys self.now.notes.now marks.old waiting.old.items }
        ensures { OnOk result (SeesPlaces self.now.names.now.keys self.now.notes.now names.now marks.old waiting.old.items marks.new waiting.new.items) }
    {
        for name in names {
            self.mark(*name, marks, waiting)?;
        }
        Ok(())
    }

    // The names of the parents of the commit at a place, in order.
    fn parents(&self, at: usize) -> &[Name]
        ensures { result.now ≡ parents_of_noted (slice_get self.now.notes.now at) }
    {
        match self.notes.get(at) {
            Some(noted) => noted.parents(),
            None => &[],
        }
    }

    // The flags of this commit and of its ancestors.
    fn ancestors(&self, alloc: Global, commit: Name) -> Result<Vec<bool>, AllocError>
        requires { length self.now.notes.now ≡ length self.now.names.now.keys }
        ensures marked { IfOk result (λ marks. (name : List ℕ) → is_marked self.now.names.now.keys marks.items name ≡ is_ancestor_noted (notes_under self.now.names.now.keys self.now.notes.now) commit name) }
        ensures len { IfOk result (λ marks. length marks.items ≡ length self.now.names.now.keys) }
    {
        let mut marks = Vec::from_elem(alloc, false, self.names.len())?;
        let mut waiting = Vec::new(alloc);
        let Ok(()) = self.mark(commit, &mut marks, &mut waiting) else {
            return Err(AllocError);
        };
        'waiting: while let Some(at) = waiting.pop() {
            let Ok(()) = self.mark_all(self.parents(at), &mut marks, &mut waiting) else {
                return Err(AllocError);
            };
        }
        Ok(marks)
    }

    // The flags of the common ancestors of two commits.
    fn common(&self, alloc: Global, a: Name, b: Name) -> Result<Vec<bool>, AllocError>
        requires { length self.now.notes.now ≡ length self.now.names.now.keys }
        ensures marked { IfOk result (λ marks. (name : List ℕ) → is_marked self.now.names.now.keys marks.items name ≡ is_common_noted (notes_under self.now.names.now.keys self.now.notes.now) a b name) }
        ensures len { IfOk result (λ marks. length marks.items ≡ length self.now.names.now.keys) }
    {
        let mut common = self.ancestors(alloc, a)?;
        let of_b = self.ancestors(alloc, b)?;
        keep_among(&mut common, &of_b);
        Ok(common)
    }

    // Sets the flag of the name if it has a place.
    fn put(&self, name: Name, marks: &mut [bool])
        requires { length marks.old ≡ length self.now.names.now.keys }
        ensures marked { (other : List ℕ) → contains same_name self.now.names.now other ≡ true → is_marked self.now.names.now.keys marks.new other ≡ cond (same_name name other) true (is_marked self.now.names.now.keys marks.old other) }
        ensures len { length marks.new ≡ length self.now.names.now.keys }
    {
        if let Some(at) = self.nearby.place(self.names, name) {
            marks[at] = true;
        }
    }

    // Sets the flags of the parents of the commit at a place. A parent that is the commit itself is skipped.
    fn put_parents(&self, at: usize, marks: &mut [bool])
        requires place { at < length self.now.names.now.keys }
        requires notes { length self.now.notes.now ≡ length self.now.names.now.keys }
        requires len { length marks.old ≡ length self.now.names.now.keys }
        ensures marked { (name : List ℕ) → contains same_name self.now.names.now name ≡ true → is_marked self.now.names.now.keys marks.new name ≡ (is_marked self.now.names.now.keys marks.old name || is_other_parent (notes_under self.now.names.now.keys self.now.notes.now) name (listed_name self.now.names.now.keys at)) }
        ensures len { length marks.new ≡ length self.now.names.now.keys }
    {
        let commit = self.names.as_slice()[at];
        for parent in self.parents(at) {
            if *parent == commit {
                continue;
            }
            self.put(*parent, marks);
        }
    }

    // The flags of the commits that are a parent of another flagged commit.
    fn outdone(&self, alloc: Global, marks: &[bool]) -> Result<Vec<bool>, AllocError>
        requires notes { length self.now.notes.now ≡ length self.now.names.now.keys }
        requires len { length marks.now ≡ length self.now.names.now.keys }
        ensures marked { IfOk result (λ outdone. (name : List ℕ) → contains same_name self.now.names.now name ≡ true → is_marked self.now.names.now.keys outdone.items name ≡ list_any (λ other. is_marked self.now.names.now.keys marks.now other && is_other_parent (notes_under self.now.names.now.keys self.now.notes.now) name other) self.now.names.now.keys) }
        ensures len { IfOk result (λ outdone. length outdone.items ≡ length self.now.names.now.keys) }
    {
        let count = self.names.len();
        let mut outdone = Vec::from_elem(alloc, false, count)?;
        for at in 0..count {
            if !marks[at] {
                continue;
            }
            self.put_parents(at, &mut outdone);
        }
        Ok(outdone)
    }

    // The names of the flagged commits.
    fn names_of(&self, alloc: Global, marks: &[bool]) -> Result<IndexSet<Name, Hashing>, AllocError>
        requires { length marks.now ≡ length self.now.names.now.keys }
        ensures { IfOk result (λ names. (name : List ℕ) → contains same_name names name ≡ is_marked self.now.names.now.keys marks.now name) }
    {
        let mut names = IndexSet::with_hasher(alloc, *self.names.hasher());
        let all = self.names.as_slice();
        for at in 0..all.len() {
            if !marks[at] {
                continue;
            }
            let Ok(_) = names.insert(all[at]) else {
                return Err(AllocError);
            };
        }
        Ok(names)
    }

    // The common ancestors of two commits that are not a parent of another common ancestor. These are the best ones,
    // since all parents of common ancestors are common ancestors.
    pub(crate) fn best_common(
        &self,
        alloc: Global,
        a: Name,
        b: Name,
    ) -> Result<IndexSet<Name, Hashing>, AllocError>
        requires { length self.now.notes.now ≡ length self.now.names.now.keys }
        ensures { IfOk result (λ best. (name : List ℕ) → contains same_name best name ≡ is_best_noted (notes_under self.now.names.now.keys self.now.notes.now) a b name) }
    {
        let mut best = self.common(alloc, a, b)?;
        let outdone = self.outdone(alloc, &best)?;
        take_out(&mut best, &outdone);
        self.names_of(alloc, &best)
    }
}
