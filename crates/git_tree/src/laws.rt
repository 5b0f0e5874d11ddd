ghost use Rattle.std.specs.Prelude.{◌≡◌, ◌↔◌, ◌∷◌, [], ◌++◌, ℕ, List, Some};
ghost use Rattle.git_tree.specs.declared.fault.TreeFault.{TreeFault};
ghost use Rattle.git_tree.specs.Entry.{Entry};
ghost use Rattle.git_tree.specs.Fault.{IsTreeFault};
ghost use Rattle.git_tree.specs.Pushing.{IsPushFault};
ghost use Rattle.git_tree.specs.Tree.{AreEntries, IsTree};
ghost use Rattle.git_tree.specs.TreeIn.{tree_in};

/// Bytes are a tree of at most one list of entries, and entries have only one spelling.
pub fn one_list_of_entries()
    ensures entries { (bytes : List ℕ) (row other : List Entry) → IsTree row bytes → IsTree other bytes → row ≡ other }
    ensures bytes { (row : List Entry) (bytes other : List ℕ) → IsTree row bytes → IsTree row other → bytes ≡ other }
{}

/// Bytes have at most one fault, and a tree has none.
pub fn one_fault_at_most()
    ensures fault { (bytes : List ℕ) (fault other : TreeFault) → IsTreeFault fault bytes → IsTreeFault other bytes → fault ≡ other }
    ensures none { (bytes : List ℕ) (fault : TreeFault) (row : List Entry) → IsTree row bytes → IsTreeFault fault bytes → ⊥ }
{}

/// The tests by which models compute find exactly the entries of the tree that bytes are.
pub fn tests_find_the_tree()
    ensures { (bytes : List ℕ) (row : List Entry) → (tree_in bytes ≡ Some row) ↔ IsTree row bytes }
{}

/// An entry has at most one fault after others, and none if it may come after them.
pub fn one_push_fault_at_most()
    ensures fault { (front : List Entry) (entry : Entry) (fault other : TreeFault) → IsPushFault fault front entry → IsPushFault other front entry → fault ≡ other }
    ensures none { (front : List Entry) (entry : Entry) (fault : TreeFault) → AreEntries (front ++ entry ∷ []) → IsPushFault fault front entry → ⊥ }
{}
