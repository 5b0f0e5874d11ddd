ghost use Rattle.std.specs.Prelude.{◌≡◌, ◌++◌, IsTrue, IfOk, OnOk, option_map};
ghost use Rattle.std.specs.List.{flat_map};
ghost use Rattle.std.specs.FinMap as map;
ghost use Rattle.git_name.specs.Count.{fault_in};
ghost use Rattle.git_tree.specs.Entry.{entry_with};
ghost use Rattle.git_tree.specs.TreeIn.{tree_in};
ghost use Rattle.fork_reach.specs.Faults.{IsAsked};
ghost use Rattle.fork_query.specs.Peel.{peeled};
ghost use Rattle.fork_query.specs.Told.{Tells, query_fault};
ghost use Rattle.fork_query.specs.Trees.{entries_at_end, entries_of_found, entries_of_kind, entry_row, entry_type, six_digits, tree_name_in, tree_name_of, tree_told};

use crate::followed::Followed;
use crate::items::is_commit;
use crate::peeling::peel;
use crate::query_error::QueryError;
use fork_reach::{Source, SourceFault};
use fork_request::Refusal;
use git_commit::Commit;
use git_name::{Kind, Name, Sealed};
use git_tree::{Entries, Mode, entries};
use std::alloc::{AllocError, Global};

// The mode in six digits.
fn six_digits(mode: Mode) -> &'static [u8]
    ensures { result.now ≡ six_digits mode }
{
    match mode {
        Mode::Tree => b"040000",
        Mode::File => b"100644",
        Mode::Executable => b"100755",
        Mode::Link => b"120000",
        Mode::Gitlink => b"160000",
    }
}

// The type of the entry's object.
fn entry_type(mode: Mode) -> &'static [u8]
    ensures { result.now ≡ entry_type mode }
{
    match mode {
        Mode::Tree => b"tree",
        Mode::File | Mode::Executable | Mode::Link => b"blob",
        Mode::Gitlink => b"commit",
    }
}

// Appends the row of an entry.
fn write_entry(
    text: &mut Vec<u8>,
    mode: Mode,
    file_name: &[u8],
    name: Name,
) -> Result<(), AllocError>
    ensures { OnOk result (text.new.items ≡ text.old.items ++ entry_row (entry_with mode file_name.now name)) }
{
    let mut digits = [0; 64];
    name.write_hex(&mut digits);
    text.extend_from_slice(six_digits(mode))?;
    text.push(b' ')?;
    text.extend_from_slice(entry_type(mode))?;
    text.push(b' ')?;
    text.extend_from_slice(digits.as_slice())?;
    text.push(b'\t')?;
    text.extend_from_slice(file_name)?;
    text.push(0)?;
    Ok(())
}

// The rows of the entries.
fn write_rows(alloc: Global, row: Entries<'_>) -> Result<Vec<u8>, AllocError>
    ensures { IfOk result (λ text. text.items ≡ flat_map entry_row row.entry) }
{
    let mut text = Vec::new(alloc);
    for entry in row {
        write_entry(&mut text, entry.mode, entry.file_name, entry.name)?;
    }
    Ok(text)
}

// The rows of the tree with these bytes, or `None` if they are not a tree.
fn rows_of(alloc: Global, bytes: &[u8]) -> Result<Option<Vec<u8>>, AllocError>
    ensures { IfOk result (λ rows. option_map (λ text. text.items) rows ≡ option_map (flat_map entry_row) (tree_in bytes.now)) }
{
    let Ok(row) = entries(bytes) else {
        return Ok(None);
    };
    let text = write_rows(alloc, row)?;
    Ok(Some(text))
}

// The name of a commit's tree. For any other object, its own name.
fn tree_name(name: Name, sealed: &Sealed) -> Name
    ensures { result ≡ tree_name_in name sealed.now.kind sealed.now.bytes }
{
    if !matches!(sealed.kind(), Kind::Commit) {
        return name;
    }
    match Commit::read(sealed.bytes()) {
        Ok(commit) => commit.tree(),
        Err(_) => name,
    }
}

// Does the same for the object of this name. Only a commit is read.
fn read_tree_name<S: Source>(alloc: Global, source: &mut S, name: Name) -> Result<Name, SourceFault>
    ensures tree { IsTrue (S.state source.old).honest → IfOk result (λ tree. tree ≡ tree_name_of name (map.get (S.state source.old).objects name)) }
    ensures asked { IsAsked (S.state source.old) (S.state source.new) (fault_in result) }
{
    if !is_commit(source, name) {
        return Ok(name);
    }
    match source.read(alloc, name) {
        Ok(Some(sealed)) => Ok(tree_name(name, &sealed)),
        Ok(None) => Ok(name),
        Err(fault) => Err(fault),
    }
}

// The rows of the object if it is a tree.
fn rows_of_sealed(alloc: Global, sealed: &Sealed) -> Result<Option<Vec<u8>>, AllocError>
    ensures { IfOk result (λ rows. option_map (λ text. text.items) rows ≡ option_map (flat_map entry_row) (entries_of_kind sealed.now.kind sealed.now.bytes)) }
{
    match sealed.kind() {
        Kind::Tree => rows_of(alloc, sealed.bytes()),
        Kind::Blob | Kind::Commit | Kind::Tag => Ok(None),
    }
}

// The rows of the object of this name if it is a tree.
fn read_rows<S: Source>(
    alloc: Global,
    source: &mut S,
    name: Name,
) -> Result<Option<Vec<u8>>, SourceFault>
    ensures rows { IsTrue (S.state source.old).honest → IfOk result (λ rows. option_map (λ text. text.items) rows ≡ option_map (flat_map entry_row) (entries_of_found (map.get (S.state source.old).objects name))) }
    ensures asked { IsAsked (S.state source.old) (S.state source.new) (fault_in result) }
{
    match source.read(alloc, name) {
        Ok(Some(sealed)) => rows_of_sealed(alloc, &sealed).map_err(|_| SourceFault::Memory),
        Ok(None) => Ok(None),
        Err(fault) => Err(fault),
    }
}

// The rows of the tree that this name peels to, or of the tree of the commit that it peels to.
fn rows_behind<S: Source>(
    alloc: Global,
    source: &mut S,
    name: Name,
) -> Result<Option<Vec<u8>>, SourceFault>
    ensures rows { IsTrue (S.state source.old).honest → IfOk result (λ rows. option_map (λ text. text.items) rows ≡ option_map (flat_map entry_row) (entries_at_end (S.state source.old).objects (peeled (S.state source.old).objects name))) }
    ensures asked { IsAsked (S.state source.old) (S.state source.new) (fault_in result) }
{
    let end = peel(alloc, source, &mut Followed::new(alloc), name)?;
    let Some(end) = end else {
        return Ok(None);
    };
    match read_tree_name(alloc, source, end) {
        Ok(tree) => read_rows(alloc, source, tree),
        Err(fault) => Err(fault),
    }
}

#[tactic(auto, unfolding(crate::specs::Trees::tree_told))]
/// The entries of a tree, in the order of the tree, each in a row that ends in a zero byte. A tag is peeled, and a
/// commit means its tree. Each of these objects is read once.
pub fn ls_tree<S: Source>(alloc: Global, source: &mut S, name: Name) -> Result<Vec<u8>, QueryError>
    ensures told { IsTrue (S.state source.old).honest → Tells (λ text. text.items) (tree_told (S.state source.old).objects name) result }
    // Over any source.
    ensures asked { IsAsked (S.state source.old) (S.state source.new) (query_fault result) }
{
    if source.kind_of(name).is_none() {
        return Err(QueryError::Refused(Refusal::Missing(name)));
    }
    match rows_behind(alloc, source, name)? {
        Some(text) => Ok(text),
        None => Err(QueryError::Refused(Refusal::NotATree(name))),
    }
}
