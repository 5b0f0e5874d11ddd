ghost use Rattle.std.specs.Prelude.{◌≡◌, IfSome};
ghost use Rattle.git_reftx.specs.Repository.{IsBranch, branch_in, main_branch};

use git_refname::RefName;
use std::marker::Model;

/// The name of a branch: a reference's name under `refs/heads/`. It is stored in place and allocates
/// nothing.
#[derive(Debug, Drop)]
pub struct Branch {
    name: RefName,
}

impl Model for Branch {
    ghost use Rattle.std.specs.Prelude.{List, ℕ};
    ghost use Rattle.std.specs.Coded.{coded_list, coded_ℕ};
    ghost use Rattle.git_reftx.specs.Repository.{IsBranch};

    ghost Value = { List ℕ };

    ghost coded = { coded_list coded_ℕ };

    ghost view = { λ a. a.name };

    ghost invariant = { λ a. IsBranch a.name };
}

impl Branch {
    /// `refs/heads/main`, the branch that HEAD of a new repository names.
    pub fn main() -> Branch
        ensures { result ≡ main_branch }
    {
        let Some(branch) = Branch::read(b"refs/heads/main") else {
            unreachable!();
        };
        branch
    }

    /// Reads the name of a branch, if the text is a valid one.
    pub fn read(text: &[u8]) -> Option<Branch>
        ensures value { result ≡ branch_in text.now }
        ensures branch { IfSome result (λ branch. IsBranch text.now) }
    {
        let Ok(name) = RefName::read(text) else {
            return None;
        };
        if !text.starts_with(b"refs/heads/") {
            return None;
        }
        Some(Branch { name })
    }

    /// A copy of the name.
    pub fn copy(&self) -> Branch
        ensures { result ≡ self.now }
    {
        Branch {
            name: self.name.copy(),
        }
    }

    /// The name of the branch as a reference.
    pub fn name(&self) -> &RefName
        ensures name { result.now ≡ self.now }
        ensures branch { IsBranch self.now }
    {
        &self.name
    }
}
