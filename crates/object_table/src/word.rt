ghost use Rattle.std.specs.Prelude.{◌≡◌, Some};
ghost use Rattle.object_table.specs.Words.{is_staged, is_visible};

use git_name::Kind;

/// Whether a tenant sees an object, has staged it, or both.
#[derive(Clone, Copy, Debug, PartialEq, Eq)]
pub enum Standing {
    Visible,
    Staged,
    Both,
}

/// What a ledger says about an object: the length of its content in bytes, its kind, and its standing with the
/// tenant.
#[derive(Clone, Copy, Debug, PartialEq, Eq)]
pub struct Word {
    pub length: u64,
    pub kind: Kind,
    pub standing: Standing,
}

impl Word {
    /// Whether the tenant sees the object.
    pub fn is_visible(&self) -> bool
        ensures { result ≡ is_visible self.now }
    {
        match self.standing {
            Standing::Visible => true,
            Standing::Staged => false,
            Standing::Both => true,
        }
    }

    /// Whether the tenant has staged the object.
    pub fn is_staged(&self) -> bool
        ensures { result ≡ is_staged self.now }
    {
        match self.standing {
            Standing::Visible => false,
            Standing::Staged => true,
            Standing::Both => true,
        }
    }
}
