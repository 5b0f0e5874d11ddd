ghost use Rattle.std.specs.Prelude.{◌≡◌, List, ℕ, Some};
ghost use Rattle.git_object.specs.declared.fault.TagFault.{TagFault};
ghost use Rattle.git_object.specs.Tag.{TagValue, IsTag};
ghost use Rattle.git_object.specs.Fault.{IsTagFault};
ghost use Rattle.git_name.specs.declared.kind.Kind.{Kind};
ghost use Rattle.git_object.specs.declared.object.ObjectFault.{ObjectFault};
ghost use Rattle.git_object.specs.Object.{ObjectValue, IsObject, IsObjectFault};
ghost use Rattle.git_object.specs.ObjectIn.{object_in};
ghost use Rattle.git_object.specs.TagIn.{tag_in};

/// A law, with no code to run: bytes are at most one tag.
pub fn one_tag()
    ensures { (bytes : List ℕ) (v w : TagValue) → IsTag v bytes → IsTag w bytes → v ≡ w }
{}

/// A law, with no code to run: bytes have at most one fault, and a tag has none.
pub fn one_tag_fault()
    ensures one { (bytes : List ℕ) (f g : TagFault) → IsTagFault f bytes → IsTagFault g bytes → f ≡ g }
    ensures none { (bytes : List ℕ) (v : TagValue) (f : TagFault) → IsTag v bytes → IsTagFault f bytes → ⊥ }
{}

/// A law, with no code to run: bytes are at most one object of a kind, and none if they have a fault.
pub fn one_object()
    ensures one { (kind : Kind) (bytes : List ℕ) (v w : ObjectValue) → IsObject v kind bytes → IsObject w kind bytes → v ≡ w }
    ensures none { (kind : Kind) (bytes : List ℕ) (v : ObjectValue) (f : ObjectFault) → IsObject v kind bytes → IsObjectFault f kind bytes → ⊥ }
{}

/// A law, with no code to run: the tests by which models compute find exactly the tag that bytes are.
pub fn tests_find_the_tag()
    ensures found { (bytes : List ℕ) (tag : TagValue) → tag_in bytes ≡ Some tag → IsTag tag bytes }
    ensures only { (bytes : List ℕ) (tag : TagValue) → IsTag tag bytes → tag_in bytes ≡ Some tag }
{}

/// A law, with no code to run: the tests by which models compute find exactly the object of a kind that bytes are.
pub fn tests_find_the_object()
    ensures found { (kind : Kind) (bytes : List ℕ) (object : ObjectValue) → object_in kind bytes ≡ Some object → IsObject object kind bytes }
    ensures only { (kind : Kind) (bytes : List ℕ) (object : ObjectValue) → IsObject object kind bytes → object_in kind bytes ≡ Some object }
{}
