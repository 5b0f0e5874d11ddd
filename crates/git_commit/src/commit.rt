ghost use Rattle.std.specs.Prelude.{◌≡◌, IfOk, IfErr, IsOkAnd};

use crate::fault::CommitFault;
use crate::header::Headers;
use crate::parents::Parents;
use git_header::{Ident, take_ident, take_name};
use git_name::Name;

/// A commit, borrowed from its bytes.
#[derive(Clone, Copy, Debug)]
pub struct Commit<'a> {
    tree: Name,
    parents: Parents<'a>,
    author: Ident<'a>,
    committer: Ident<'a>,
    headers: Headers<'a>,
    message: Option<&'a [u8]>,
}

impl<'a> Commit<'a> {
    ghost use Rattle.std.specs.Option.{option_map};
    ghost use Rattle.std.specs.Result.{result_ok};
    ghost use Rattle.git_commit.specs.Whole.{commit_of};
    ghost use Rattle.git_commit.specs.CommitIn.{commit_in};
    ghost use Rattle.git_commit.specs.Commit.{CommitValue, IsCommit};
    ghost use Rattle.git_commit.specs.Fault.{IsCommitFault};
    ghost use Rattle.git_header.specs.View.{ident_of};
    ghost use Rattle.git_commit.specs.Left.{parents_left};
    ghost use Rattle.git_header.specs.Left.{headers_left};
    ghost use Rattle.git_header.specs.Lent.{message_of};

    // Reads the parts of a commit in turn.
    fn parts_of(bytes: &'a [u8]) -> Result<Commit<'a>, CommitFault>
        ensures found { IfOk result (λ commit. IsCommit (commit_of commit) bytes.now) }
        ensures exact { IfErr result (λ why. IsCommitFault why bytes.now) }
    {
        let (tree, rest) = match take_name(b"tree ", bytes) {
            Ok(taken) => taken,
            Err(fault) => return Err(fault),
        };
        let (parents, rest) = Parents::take(rest)?;
        let (author, rest) = take_ident(b"author ", rest)?;
        let (committer, rest) = take_ident(b"committer ", rest)?;
        let (headers, message) = Headers::take(rest)?;
        Ok(Commit {
            tree,
            parents,
            author,
            committer,
            headers,
            message,
        })
    }

    /// Reads a commit from its one spelling. It allocates nothing.
    pub fn read(bytes: &'a [u8]) -> Result<Commit<'a>, CommitFault>
        // What is read is a commit of these parts.
        ensures found { IfOk result (λ commit. IsCommit (commit_of commit) bytes.now) }
        // Every commit is read.
        ensures only { (value : CommitValue) → IsCommit value bytes.now → IsOkAnd result (λ commit. commit_of commit ≡ value) }
        // The value that models compute.
        ensures value { option_map commit_of (result_ok result) ≡ commit_in bytes.now }
        // Which fault it is.
        ensures exact { IfErr result (λ why. IsCommitFault why bytes.now) }
    {
        Commit::parts_of(bytes)
    }

    /// The name of the commit's tree.
    pub fn tree(&self) -> Name
        ensures { result ≡ (commit_of self.now).tree }
    {
        self.tree
    }

    /// The names of the parents, in order.
    pub fn parents(&self) -> Parents<'a>
        ensures { parents_left result ≡ (commit_of self.now).parents }
    {
        self.parents
    }

    /// Who wrote it, and when.
    pub fn author(&self) -> Ident<'a>
        ensures { ident_of result ≡ (commit_of self.now).author }
    {
        self.author
    }

    /// Who committed it, and when.
    pub fn committer(&self) -> Ident<'a>
        ensures { ident_of result ≡ (commit_of self.now).committer }
    {
        self.committer
    }

    /// The further headers, in order.
    pub fn headers(&self) -> Headers<'a>
        ensures { headers_left result ≡ (commit_of self.now).headers }
    {
        self.headers
    }

    /// The message. `None` is no message, which differs from an empty one.
    pub fn message(&self) -> Option<&'a [u8]>
        ensures { message_of result ≡ (commit_of self.now).message }
    {
        self.message
    }
}
