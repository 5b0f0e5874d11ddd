ghost use Rattle.std.specs.Prelude.{◌≡◌};
ghost use Rattle.git_reftx.specs.Known.{Kinds};

use git_name::{Kind, Name};

/// The objects that a transaction may name.
pub trait Known {
    /// The kind of each known name.
    ghost kinds: { Self → Kinds };

    /// The kind of the object of this name, if it is known.
    fn kind_of(&self, name: Name) -> Option<Kind>
        ensures { result ≡ kinds self.now name };
}
