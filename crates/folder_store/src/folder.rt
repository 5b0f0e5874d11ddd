ghost use Rattle.std.specs.Prelude.{◌≡◌, ◌≢◌, ℕ, List, None, true, false, Ok, IfOk, OnOk, IsTrue, option_map};
ghost use Rattle.std.specs.FinMap as map;
ghost use Rattle.devices.specs.Device.{files_of};
ghost use Rattle.git_name.specs.Name.{IsName};
ghost use Rattle.folder_store.specs.Contents.{contents_in, contents_of};
ghost use Rattle.loose_store.specs.Durability.{IsSync};
ghost use Rattle.loose_store.specs.Failures.{Counts};
ghost use Rattle.loose_store.specs.Files.{SameBut};
ghost use Rattle.git_name.specs.Same.{same_name};
ghost use Rattle.indexmap.specs.IndexSet.{Updates, contains, index_set_len};
ghost use Rattle.folder_store.specs.Calls.{Calls, Forgets, IsTold, Puts, Reads, Removes, Syncs, standing};
ghost use Rattle.folder_store.specs.Lasting.{AllSafe, IsSafeAt, IsUnfailed, StaysSafe};
ghost use Rattle.folder_store.specs.Place.{place_of};
ghost use Rattle.folder_store.specs.Swept.{IsOpened, is_whole};
ghost use Rattle.folder_store.specs.Synced.{IsUnmarked, durability_of, first_of};

use crate::listing::list_all;
use crate::making::create_all;
use crate::object_file::{put_file, read_file, sweep_file};
use crate::opening::restore;
use crate::rewriting::put_synced;
use crate::swept::empty_swept;
use crate::unsynced::Unsynced;
use devices::{Device, DeviceFault, Real};
use git_name::{Hashing, Name};
use host_folder::{Gate, answered, create_root, of_device, told};
use loose_store::{FileFault, LooseFiles};
use std::alloc::{AllocError, Global};
use std::fs::File;
use std::random::RandomSource;
use std::rt::Files;

/// Files in the folder of a device, each at `objects/`, two digits, `/`, 62 digits. Whenever the process is killed, an
/// object's file is whole or does not exist. A loss of power may lose or damage a file that was not synced (`sync`). A
/// removed file is kept as `swept/` and 64 digits. Opening the folder again puts it back, unless the removal was made
/// final (`forget_removed`). It is as honest as its device.
#[derive(Drop)]
pub struct Folder<D> {
    device: D,
    hashing: Hashing,
    unsynced: Unsynced,
    // Whether there may be swept files.
    has_swept: bool,
    failures: u64,
    gate: Gate,
}

impl<D: Device + Drop> Folder<D> {
    /// The folder of a device, in which no other process writes. Removes the parts that a killed process was writing, and
    /// puts back swept files unless their removal was made final.
    pub fn over(mut device: D, alloc: Global, hashing: Hashing) -> Result<Folder<D>, FileFault>
        ensures contents { IsTrue (D.honest device) → IfOk result (λ folder. IsOpened (files_of (D.past device)) (contents_in (D.honest folder.device) (D.past folder.device))) }
        ensures lasts { IsTrue (D.honest device) → IfOk result (λ folder. AllSafe (D.past device) (D.past folder.device)) }
        ensures told { IsTrue (D.honest device) → IfOk result (λ folder. IsTold (standing (D.past folder.device) folder.has_swept folder.unsynced.has_failed)) }
        ensures unswept { IfOk result (λ folder. folder.has_swept ≡ false) }
        ensures unfailed { IfOk result (λ folder. folder.unsynced.has_failed ≡ false) }
        ensures honest { IfOk result (λ folder. D.honest folder.device ≡ D.honest device) }
    {
        let gate = Gate::new(alloc)?;
        of_device(restore(&mut device, alloc))?;
        Ok(Folder {
            device,
            hashing,
            unsynced: Unsynced::new(alloc, hashing),
            has_swept: false,
            failures: 0,
            gate,
        })
    }

    /// Closes the folder, and gives its device back.
    pub fn into_device(self) -> D
        ensures { result ≡ self.device }
    {
        let Folder { device, .. } = self;
        device
    }

    /// The gate that its reserve shuts (`Reserve::open`). While it is shut, `put` answers `Device` and writes nothing.
    pub fn gate(&self) -> Result<Gate, AllocError> {
        self.gate.share()
    }
}

impl<R: Files<File = File> + AllocGlobal + RandomSource + Clone + Drop> Folder<Real<R>> {
    /// Opens the folder at this path, and creates it and its parents if they do not exist. While it is open, another
    /// process that opens it gets `Device`. A process that is killed unlocks it. A folder that keeps segments is `Device` too.
    pub fn open(rt: R, alloc: Global, path: &str) -> Result<Folder<Real<R>>, FileFault>
        ensures honest { IfOk result (λ folder. ⟦<Real<R> as Device>⟧.honest folder.device ≡ false) }
    {
        let hashing = told(Hashing::drawn(&rt))?;
        create_root(&rt, path)?;
        let device = of_device(Real::open(rt.clone()?, alloc, path))?;
        create_all(&rt, alloc, path)?;
        Folder::over(device, alloc, hashing)
    }
}

// Writes a file. If one of its name was swept, syncs that move first, and then the bytes that it writes.
fn put_again<D: Device>(
    device: &mut D,
    alloc: Global,
    unsynced: &mut Unsynced,
    name: Name,
    bytes: &[u8],
) -> Result<(), DeviceFault>
    ensures ok { IsTrue (D.honest device.old) → OnOk result (contents_in (D.honest device.new) (D.past device.new) ≡ map.insert (contents_in (D.honest device.old) (D.past device.old)) name bytes.now) }
    ensures others { IsTrue (D.honest device.old) → SameBut name (contents_in (D.honest device.old) (D.past device.old)) (contents_in (D.honest device.new) (D.past device.new)) }
    ensures call { IsTrue (D.honest device.old) → Calls (Puts name bytes.now) (standing (D.past device.old) true unsynced.old.has_failed) (standing (D.past device.new) true unsynced.new.has_failed) }
    ensures names { unsynced.new.names ≡ unsynced.old.names }
    ensures honest { D.honest device.new ≡ D.honest device.old }
{
    if !unsynced.sync_move(device, alloc, name)? {
        return put_file(device, alloc, name, bytes);
    }
    put_synced(device, alloc, unsynced, name, bytes)
}

// Notes that a file is not synced, and writes it.
fn put_noted<D: Device>(
    device: &mut D,
    alloc: Global,
    has_swept: bool,
    unsynced: &mut Unsynced,
    name: Name,
    bytes: &[u8],
) -> Result<(), DeviceFault>
    ensures ok { IsTrue (D.honest device.old) → OnOk result (contents_in (D.honest device.new) (D.past device.new) ≡ map.insert (contents_in (D.honest device.old) (D.past device.old)) name bytes.now) }
    ensures others { IsTrue (D.honest device.old) → SameBut name (contents_in (D.honest device.old) (D.past device.old)) (contents_in (D.honest device.new) (D.past device.new)) }
    ensures call { IsTrue (D.honest device.old) → Calls (Puts name bytes.now) (standing (D.past device.old) has_swept unsynced.old.has_failed) (standing (D.past device.new) has_swept unsynced.new.has_failed) }
    ensures noted { OnOk result (Updates same_name unsynced.old.names unsynced.new.names name true) }
    ensures honest { D.honest device.new ≡ D.honest device.old }
{
    unsynced.note(name)?;
    if has_swept {
        return put_again(device, alloc, unsynced, name, bytes);
    }
    put_file(device, alloc, name, bytes)
}

impl<D: Device> LooseFiles for Folder<D> {
    ghost contents = { λ folder. contents_in (D.honest folder.device) (D.past folder.device) };

    ghost honest = { λ folder. D.honest folder.device };

    ghost failures = { λ folder. folder.failures };

    ghost durability = { λ folder. durability_of (index_set_len folder.unsynced.names) folder.unsynced.homes folder.has_swept };

    fn get(&mut self, alloc: Global, name: Name) -> Result<Option<Vec<u8>>, FileFault>
        ensures call { IsTrue (D.honest self.old.device) → Calls Reads (standing (D.past self.old.device) self.old.has_swept self.old.unsynced.has_failed) (standing (D.past self.new.device) self.new.has_swept self.new.unsynced.has_failed) }
        ensures past { IsTrue (D.honest self.old.device) → D.past self.new.device ≡ D.past self.old.device }
        ensures unsynced { self.new.unsynced ≡ self.old.unsynced }
        ensures swept { self.new.has_swept ≡ self.old.has_swept }
        ensures found { IsTrue (D.honest self.old.device) → IfOk result (λ found. option_map (λ bytes. bytes.items) found ≡ map.get (contents_in (D.honest self.old.device) (D.past self.old.device)) name) }
        ensures kept { IsTrue (D.honest self.old.device) → contents_in (D.honest self.new.device) (D.past self.new.device) ≡ contents_in (D.honest self.old.device) (D.past self.old.device) }
        ensures honest { D.honest self.new.device ≡ D.honest self.old.device }
        ensures cause { Counts self.old.failures self.new.failures result }
    {
        let answer = read_file(&self.device, alloc, name);
        answered(&mut self.failures, answer)
    }

    fn put(&mut self, alloc: Global, name: Name, bytes: &[u8]) -> Result<(), FileFault>
        ensures ok { IsTrue (D.honest self.old.device) → OnOk result (contents_in (D.honest self.new.device) (D.past self.new.device) ≡ map.insert (contents_in (D.honest self.old.device) (D.past self.old.device)) name bytes.now) }
        ensures others { IsTrue (D.honest self.old.device) → SameBut name (contents_in (D.honest self.old.device) (D.past self.old.device)) (contents_in (D.honest self.new.device) (D.past self.new.device)) }
        ensures honest { D.honest self.new.device ≡ D.honest self.old.device }
        ensures cause { Counts self.old.failures self.new.failures result }
        ensures call { IsTrue (D.honest self.old.device) → Calls (Puts name bytes.now) (standing (D.past self.old.device) self.old.has_swept self.old.unsynced.has_failed) (standing (D.past self.new.device) self.new.has_swept self.new.unsynced.has_failed) }
        ensures noted { OnOk result (Updates same_name self.old.unsynced.names self.new.unsynced.names name true) }
    {
        if self.gate.is_shut() {
            return answered(&mut self.failures, Err(DeviceFault::Device));
        }
        let answer = put_noted(
            &mut self.device,
            alloc,
            self.has_swept,
            &mut self.unsynced,
            name,
            bytes,
        );
        answered(&mut self.failures, answer)
    }

    fn remove(&mut self, alloc: Global, name: Name) -> Result<(), FileFault>
        ensures ok { IsTrue (D.honest self.old.device) → OnOk result (contents_in (D.honest self.new.device) (D.past self.new.device) ≡ map.remove (contents_in (D.honest self.old.device) (D.past self.old.device)) name) }
        ensures others { IsTrue (D.honest self.old.device) → SameBut name (contents_in (D.honest self.old.device) (D.past self.old.device)) (contents_in (D.honest self.new.device) (D.past self.new.device)) }
        ensures honest { D.honest self.new.device ≡ D.honest self.old.device }
        ensures cause { Counts self.old.failures self.new.failures result }
        ensures marked { self.new.has_swept ≡ true }
        ensures unnoted { Updates same_name self.old.unsynced.names self.new.unsynced.names name false }
        ensures call { IsTrue (D.honest self.old.device) → Calls (Removes name) (standing (D.past self.old.device) self.old.has_swept self.old.unsynced.has_failed) (standing (D.past self.new.device) self.new.has_swept self.new.unsynced.has_failed) }
    {
        self.has_swept = true;
        self.unsynced.forget(name);
        let answer = sweep_file(&mut self.device, alloc, name);
        answered(&mut self.failures, answer)
    }

    fn names(&mut self, alloc: Global) -> Result<Vec<Name>, FileFault>
        ensures found { IsTrue (D.honest self.old.device) → IfOk result (λ names. names.items ≡ map.keys (contents_in (D.honest self.old.device) (D.past self.old.device))) }
        ensures kept { IsTrue (D.honest self.old.device) → contents_in (D.honest self.new.device) (D.past self.new.device) ≡ contents_in (D.honest self.old.device) (D.past self.old.device) }
        ensures honest { D.honest self.new.device ≡ D.honest self.old.device }
        ensures cause { Counts self.old.failures self.new.failures result }
        ensures call { IsTrue (D.honest self.old.device) → Calls Reads (standing (D.past self.old.device) self.old.has_swept self.old.unsynced.has_failed) (standing (D.past self.new.device) self.new.has_swept self.new.unsynced.has_failed) }
    {
        let answer = list_all(&self.device, alloc);
        answered(&mut self.failures, answer)
    }

    fn rely_on(&mut self, name: Name) -> Result<(), AllocError>
        ensures contents { contents_in (D.honest self.new.device) (D.past self.new.device) ≡ contents_in (D.honest self.old.device) (D.past self.old.device) }
        ensures honest { D.honest self.new.device ≡ D.honest self.old.device }
        ensures failures { self.new.failures ≡ self.old.failures }
        ensures noted { OnOk result (Updates same_name self.old.unsynced.names self.new.unsynced.names name true) }
        ensures device { self.new.device ≡ self.old.device }
        ensures marked { self.new.has_swept ≡ self.old.has_swept }
        ensures call { IsTrue (D.honest self.old.device) → Calls Reads (standing (D.past self.old.device) self.old.has_swept self.old.unsynced.has_failed) (standing (D.past self.new.device) self.new.has_swept self.new.unsynced.has_failed) }
    {
        self.unsynced.note(name)
    }

    fn sync(&mut self, alloc: Global) -> Result<(), FileFault>
        ensures contents { contents_in (D.honest self.new.device) (D.past self.new.device) ≡ contents_in (D.honest self.old.device) (D.past self.old.device) }
        ensures honest { D.honest self.new.device ≡ D.honest self.old.device }
        ensures failures { self.new.failures ≡ self.old.failures }
        ensures call { IsTrue (D.honest self.old.device) → Calls Syncs (standing (D.past self.old.device) self.old.has_swept self.old.unsynced.has_failed) (standing (D.past self.new.device) self.new.has_swept self.new.unsynced.has_failed) }
        ensures durable { IsSync (durability_of (index_set_len self.old.unsynced.names) self.old.unsynced.homes self.old.has_swept) (durability_of (index_set_len self.new.unsynced.names) self.new.unsynced.homes self.new.has_swept) result }
        ensures synced { IsTrue (D.honest self.old.device) → IsUnfailed (D.past self.old.device) → OnOk result ((name : List ℕ) → IsName name → contains same_name self.old.unsynced.names name ≡ true → is_whole name (map.get (contents_of (files_of (D.past self.old.device))) name) ≡ true → IsSafeAt (place_of name) (D.past self.new.device) name) }
    {
        match self.unsynced.sync(&mut self.device, alloc) {
            Ok(()) => Ok(()),
            Err(_) if self.unsynced.has_failed() => Err(FileFault::Device),
            Err(_) => Err(FileFault::Memory),
        }
    }

    fn sync_ahead(&mut self, alloc: Global) -> Result<(), FileFault>
        ensures contents { contents_in (D.honest self.new.device) (D.past self.new.device) ≡ contents_in (D.honest self.old.device) (D.past self.old.device) }
        ensures honest { D.honest self.new.device ≡ D.honest self.old.device }
        ensures failures { self.new.failures ≡ self.old.failures }
        ensures call { IsTrue (D.honest self.old.device) → Calls Syncs (standing (D.past self.old.device) self.old.has_swept self.old.unsynced.has_failed) (standing (D.past self.new.device) self.new.has_swept self.new.unsynced.has_failed) }
        ensures removed { self.new.has_swept ≡ self.old.has_swept }
        ensures ahead { IsTrue (D.honest self.old.device) → IsUnfailed (D.past self.old.device) → self.new.unsynced.has_failed ≡ false → (name : List ℕ) → IsName name → contains same_name self.old.unsynced.names name ≡ true → contains same_name self.new.unsynced.names name ≡ false → IsUnmarked self.new.unsynced.homes (first_of name) → is_whole name (map.get (contents_of (files_of (D.past self.old.device))) name) ≡ true → IsSafeAt (place_of name) (D.past self.new.device) name }
    {
        of_device(self.unsynced.sync_ahead(&mut self.device, alloc))
    }

    fn has_removed(&self) -> bool {
        self.has_swept
    }

    fn forget_removed(&mut self, alloc: Global) -> Result<(), FileFault>
        ensures contents { contents_in (D.honest self.new.device) (D.past self.new.device) ≡ contents_in (D.honest self.old.device) (D.past self.old.device) }
        ensures honest { D.honest self.new.device ≡ D.honest self.old.device }
        ensures failures { self.new.failures ≡ self.old.failures }
        ensures call { IsTrue (D.honest self.old.device) → Calls Forgets (standing (D.past self.old.device) self.old.has_swept self.old.unsynced.has_failed) (standing (D.past self.new.device) self.new.has_swept self.new.unsynced.has_failed) }
        ensures places { IsTrue (D.honest self.old.device) → StaysSafe (D.past self.old.device) (D.past self.new.device) }
        ensures settled { OnOk result (self.new.has_swept ≡ false) }
    {
        of_device(empty_swept(&mut self.device, alloc))?;
        self.has_swept = false;
        Ok(())
    }

    fn hashing(&self) -> Hashing {
        self.hashing
    }

    fn failures(&self) -> u64 {
        self.failures
    }
}
