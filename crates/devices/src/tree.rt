ghost use Rattle.std.specs.Prelude.{◌≡◌, ◌++◌, OnOk, OnErr, IfOk, Some, None, map as each, option_map};
ghost use Rattle.std.specs.BTreeMap.{IsUnchanged, Updates};
ghost use Rattle.std.specs.FinMap as map;
ghost use Rattle.std.specs.Option.{option_copied};
ghost use Rattle.std.specs.Ordering.{nat_cmp};
ghost use Rattle.std.specs.Cmp.Lexicographic.{slice_cmp};
ghost use Rattle.devices.specs.Copy.{IsCopy};
ghost use Rattle.devices.specs.Device.{name_in_folder, names_in_folder, names_of};

use crate::text::Text;
use std::alloc::{AllocError, Global};
use std::collections::BTreeMap;
use std::marker::Model;

// Files in memory, by their paths.
#[derive(Drop)]
pub(crate) struct Tree {
    files: BTreeMap<Text, Text>,
}

impl Model for Tree {
    ghost use Rattle.std.specs.Prelude.{List, ℕ};
    ghost use Rattle.std.specs.Coded.{coded_list, coded_ℕ};
    ghost use Rattle.std.specs.FinMap as map;
    ghost use Rattle.devices.specs.Device.{Files};

    ghost Value = { Files };

    ghost coded = { map.code (coded_list coded_ℕ) (coded_list coded_ℕ) };

    ghost view = { λ a. map.from_entries a.files.entries };
}

fn put(files: &mut BTreeMap<Text, Text>, path: Text, bytes: Text) -> Result<(), AllocError>
    ensures ok { OnOk result (Updates (slice_cmp nat_cmp) files.old files.new path (Some bytes)) }
    ensures err { OnErr result (IsUnchanged files.old files.new) }
{
    files.insert(path, bytes)?;
    Ok(())
}

fn take_out(files: &mut BTreeMap<Text, Text>, path: &Text)
    ensures { Updates (slice_cmp nat_cmp) files.old files.new path.now None }
{
    files.remove(path);
}

// The name that a path has right in a folder, if it is there.
pub(crate) fn name_in<'a>(path: &'a [u8], folder: &[u8]) -> Option<&'a [u8]>
    ensures { names_of (option_map (λ name. name.now) result) ≡ name_in_folder folder.now path.now }
{
    let Some(name) = path.strip_prefix(folder) else {
        return None;
    };
    if name.contains(&b'/') {
        return None;
    }
    Some(name)
}

fn add_name(
    alloc: Global,
    names: &mut Vec<Vec<u8>>,
    path: &[u8],
    folder: &[u8],
) -> Result<(), AllocError>
    ensures { OnOk result (each (λ name. name.items) names.new.items ≡ each (λ name. name.items) names.old.items ++ name_in_folder folder.now path.now) }
{
    let Some(name) = name_in(path, folder) else {
        return Ok(());
    };
    names.push(name.to_vec(alloc)?)?;
    Ok(())
}

impl Tree {
    // No files.
    pub(crate) fn new(alloc: Global) -> Tree
        ensures { result ≡ map.empty }
    {
        Tree {
            files: BTreeMap::new(alloc),
        }
    }

    // The bytes of a file.
    pub(crate) fn get(&self, path: &Text) -> Option<&Text>
        ensures { option_copied result ≡ map.get self.now path.now }
    {
        self.files.get(path)
    }

    // Puts a file under a path, replacing one that exists.
    pub(crate) fn insert(&mut self, path: Text, bytes: Text) -> Result<(), AllocError>
        ensures ok { OnOk result (self.new ≡ map.insert self.old path bytes) }
        ensures err { OnErr result (self.new ≡ self.old) }
    {
        put(&mut self.files, path, bytes)
    }

    // Removes a file, if it exists. It allocates nothing.
    pub(crate) fn remove(&mut self, path: &Text)
        ensures { self.new ≡ map.remove self.old path.now }
    {
        take_out(&mut self.files, path)
    }

    // The names of the files right in a folder, ascending.
    pub(crate) fn list(&self, alloc: Global, folder: &[u8]) -> Result<Vec<Vec<u8>>, AllocError>
        ensures { IfOk result (λ names. each (λ name. name.items) names.items ≡ names_in_folder folder.now (map.keys self.now)) }
    {
        let mut names = Vec::new(alloc);
        for path in self.files.keys() {
            add_name(alloc, &mut names, path.as_bytes(), folder)?;
        }
        Ok(names)
    }

    // The paths of the files, ascending.
    pub(crate) fn paths(&self, alloc: Global) -> Result<Vec<Text>, AllocError>
        ensures { IfOk result (λ paths. paths.items ≡ map.keys self.now) }
    {
        let mut paths = Vec::new(alloc);
        for path in self.files.keys() {
            paths.push(Text::new(alloc, path.as_bytes())?)?;
        }
        Ok(paths)
    }

    // The same files.
    pub(crate) fn copy(&self, alloc: Global) -> Result<Tree, AllocError>
        ensures { IfOk result (λ copy. copy ≡ self.now) }
    {
        let paths = self.paths(alloc)?;
        copied_among(alloc, self, paths.as_slice())
    }
}

// The files of others at these paths.
fn copied_among(alloc: Global, files: &Tree, paths: &[Text]) -> Result<Tree, AllocError>
    ensures { IfOk result (λ copy. IsCopy paths.now files.now copy) }
{
    let Some((path, others)) = paths.split_first() else {
        return Ok(Tree::new(alloc));
    };
    let mut copy = copied_among(alloc, files, others)?;
    let Some(bytes) = files.get(path) else {
        return Ok(copy);
    };
    let bytes = Text::new(alloc, bytes.as_bytes())?;
    copy.insert(Text::new(alloc, path.as_bytes())?, bytes)?;
    Ok(copy)
}
