// A host that was loaded of the state in its folder, and one of which the state's journal was repeated too.
ghost use Rattle.std.specs.Prelude.{◌≡◌, [], IfErr, IfOk, IsTrue, OnOk, Some, length, option_map, true};
ghost use Rattle.std.specs.FinMap.{empty, get};
ghost use Rattle.devices.specs.Device.{bytes_or_none, files_of};
ghost use Rattle.fork_host.specs.Shown.{world_of};
ghost use Rattle.host_folder.specs.OtherJournals.{HasNoOther};
ghost use Rattle.host_folder.specs.State.{state_file};
ghost use Rattle.sha2.specs.Sha256.{sha256};
ghost use Rattle.state_text.specs.declared.version.Version.TheVariants.{Two};
ghost use Rattle.fork_program.specs.Given.{AreGiven, AreUngiven};
ghost use Rattle.fork_program.specs.Keeping.{IsSaved, IsUnkept};
ghost use Rattle.fork_program.specs.Repeating.{IsRepeated};
ghost use Rattle.fork_program.specs.Saving.{IsHostOfState, IsRestoredOf, IsUnfailed, StandsIfSure};

use crate::draft::Begun;
use crate::fault::Fault;
use crate::first_tenants::add_tenants;
use crate::kept_state::KeptState;
use crate::noting_reader::NotingReader;
use crate::replaying::{Replayed, replay};
use crate::telling::{of_load, of_state};
use devices::{Device, FileReader};
use fork_command::Grant;
use fork_host::{Host, OpenError};
use fork_state::{LoadFault, load};
use git_name::Name;
use host_folder::{Reserve, RoomyDevice, journal_name, of_device, state_path};
use loose_store::LooseFiles;
use state_text::Version;
use std::alloc::Global;
use std::cell::Cell;
use std::fs::{File, Files};
use std::marker::Model;

/// A host that was loaded of the state in its folder. The state's journal was not repeated yet, so the host is not served.
#[derive(Drop)]
pub(crate) struct Loaded<S: LooseFiles, D: Device> {
    host: Host<S>,
    state: KeptState<D>,
    // Whether the state is a text of the newest version.
    is_current: bool,
}

/// A host that was restored of the state in its folder and of the state's journal, and that state.
#[derive(Drop)]
pub struct Restored<S: LooseFiles, D: Device> {
    host: Host<S>,
    state: KeptState<D>,
    // Whether the state is a text of the newest version, and the host has done nothing since.
    is_current: bool,
}

impl<S: LooseFiles, D: Device> Model for Restored<S, D> {
    ghost use Rattle.std.specs.Prelude.{◌≡◌, true};
    ghost use Rattle.fork_host.specs.Shown.{HostState, host_code};
    ghost use Rattle.fork_program.specs.Saving.{IsRestoredOf};

    ghost Value = { HostState };

    ghost coded = { host_code };

    ghost view = { λ a. a.host };

    ghost invariant = { λ a. a.is_current ≡ true → IsRestoredOf a.host a.state.name (D.honest a.state.device) (D.past a.state.device) };
}

// A host without tenants over a folder.
fn new_host<S: LooseFiles + Drop>(alloc: Global, files: S) -> Result<Host<S>, Fault>
    ensures empty { IfOk result (λ host. world_of host ≡ empty) }
    ensures err { IfErr result IsUnkept }
{
    match Host::new(alloc, files) {
        Ok(host) => Ok(host),
        Err(OpenError::Store) => Err(Fault::Store),
        Err(OpenError::Memory) => Err(Fault::Memory),
    }
}

// Whether a state is saved in this version.
fn is_newest(version: Version) -> bool
    ensures { result ≡ true → version ≡ Two }
{
    match version {
        Version::One => false,
        Version::Two => true,
    }
}

// The host of the state on this device, which has so many bytes, over the store that has its objects.
fn loaded_host<S: LooseFiles + Drop, D: Device + Drop>(
    alloc: Global,
    device: D,
    len: u64,
    files: S,
) -> Result<Loaded<S, D>, Fault>
    requires unfailed { IsTrue (D.honest device) → IsUnfailed (D.past device) }
    requires there { IsTrue (D.honest device) → option_map length (get (files_of (D.past device)) state_file) ≡ Some len }
    ensures device { IfOk result (λ loaded. loaded.state.device ≡ device) }
    ensures shown { IsTrue (D.honest device) → IsTrue (S.honest files) → IfOk result (λ loaded. IsHostOfState (S.contents files) (get (files_of (D.past device)) state_file) loaded.host) }
    ensures named { IsTrue (D.honest device) → IfOk result (λ loaded. loaded.state.name ≡ sha256 (bytes_or_none (get (files_of (D.past device)) state_file))) }
    ensures current { IfOk result (λ loaded. loaded.is_current ≡ true → IsRestoredOf loaded.host loaded.state.name (D.honest device) (D.past device)) }
    ensures err { IfErr result IsUnkept }
{
    let text = FileReader::new(alloc, &device, state_path());
    let lacks_memory = Cell::new(false);
    let mut reader = NotingReader {
        reader: text,
        lacks_memory: &lacks_memory,
        left: len,
    };
    let loaded = load(alloc, &mut reader, files);
    match loaded {
        Ok((host, name, version)) => {
            let state = KeptState::read(device, name, len);
            let is_current = is_newest(version);
            Ok(Loaded {
                host,
                state,
                is_current,
            })
        }
        Err(LoadFault::Read) if lacks_memory.get() => Err(Fault::Memory),
        Err(fault) => Err(of_load(fault)),
    }
}

/// The host of the state on this device, of which no sync has failed, over the store that has its objects. If there is no state, the
/// host has no tenants, and the state's name is that of an empty text.
pub(crate) fn saved_host<S: LooseFiles + Drop, D: Device + Drop>(
    alloc: Global,
    device: D,
    files: S,
) -> Result<Loaded<S, D>, Fault>
    requires unfailed { IsTrue (D.honest device) → IsUnfailed (D.past device) }
    ensures device { IfOk result (λ loaded. loaded.state.device ≡ device) }
    ensures shown { IsTrue (D.honest device) → IsTrue (S.honest files) → IfOk result (λ loaded. IsHostOfState (S.contents files) (get (files_of (D.past device)) state_file) loaded.host) }
    ensures named { IsTrue (D.honest device) → IfOk result (λ loaded. loaded.state.name ≡ sha256 (bytes_or_none (get (files_of (D.past device)) state_file))) }
    ensures current { IfOk result (λ loaded. loaded.is_current ≡ true → IsRestoredOf loaded.host loaded.state.name (D.honest device) (D.past device)) }
    ensures err { IfErr result IsUnkept }
{
    match of_device(device.len(state_path())) {
        Ok(Some(len)) => return loaded_host(alloc, device, len, files),
        Ok(None) => {}
        Err(fault) => return Err(of_state(fault)),
    }
    match new_host(alloc, files) {
        Ok(host) => Ok(Loaded {
            host,
            state: KeptState::read(device, journal_name(b""), 0),
            is_current: false,
        }),
        Err(fault) => Err(fault),
    }
}

/// The host after the requests of the state's journal, and how many those were, if there is no journal of another state.
pub(crate) fn replayed<S: LooseFiles + Drop, D: Device + Drop>(
    alloc: Global,
    loaded: Loaded<S, D>,
) -> Result<(Restored<S, D>, u64), Fault>
    requires { loaded.is_current ≡ true → IsRestoredOf loaded.host loaded.state.name (D.honest loaded.state.device) (D.past loaded.state.device) }
    ensures alone { IsTrue (D.honest loaded.state.device) → OnOk result (HasNoOther (files_of (D.past loaded.state.device)) loaded.state.name) }
    ensures repeated { IsTrue (D.honest loaded.state.device) → IfOk result (λ found. IsRepeated (files_of (D.past loaded.state.device)) loaded.state.name loaded.host found.0 found.1) }
    ensures err { IfErr result IsUnkept }
{
    let Loaded {
        mut host,
        state,
        is_current,
    } = loaded;
    let Replayed { count, is_quiet } = replay(alloc, state.device(), state.name(), &mut host)?;
    let is_current = is_current && is_quiet;
    let restored = Restored {
        host,
        state,
        is_current,
    };
    Ok((restored, count))
}

// Whether no tenant is given.
fn are_none(tenants: &[Grant]) -> bool
    ensures { result ≡ true → tenants.now ≡ [] }
{
    tenants.is_empty()
}

impl<S: LooseFiles + Drop, D: Device + Drop> Restored<S, D> {
    /// The host with these tenants added.
    pub(crate) fn with_tenants(
        self,
        alloc: Global,
        tenants: Vec<Grant>,
    ) -> Result<Restored<S, D>, Fault>
        ensures ok { IfOk result (λ restored. AreGiven tenants.items self restored) }
        ensures err { IfErr result (AreUngiven (world_of self) tenants.items) }
    {
        if are_none(tenants.as_slice()) {
            return Ok(self);
        }
        let Restored {
            mut host,
            state,
            ..
        } = self;
        let is_current = false;
        match add_tenants(&mut host, alloc, tenants) {
            Ok(()) => Ok(Restored {
                host,
                state,
                is_current,
            }),
            Err(fault) => Err(fault),
        }
    }

    /// The host, and the name of the state.
    pub(crate) fn into_named(self) -> (Host<S>, Name)
        ensures { result.0 ≡ self }
    {
        let Restored { host, state, .. } = self;
        (host, state.name())
    }

    /// Goes on with the state, or with a new one if it is not the host's own in the newest version, and begins its journal over
    /// another device of its folder. From now on the state's device may take the room of a reserve.
    pub(crate) fn begin<J: Device + Drop>(
        self,
        alloc: Global,
        reserve: Reserve,
        journals: J,
    ) -> Result<(Host<S>, KeptState<RoomyDevice<D>>, Begun<J>), Fault>
        ensures cause { IfErr result (λ fault. fault ≡ Fault.NotSaved) }
        ensures saved { IfOk result (λ begun. IsSaved self begun.0) }
        ensures stands { IfOk result (λ begun. StandsIfSure begun.1.is_sure (D.honest begun.1.device.device) begun.1.name (D.past begun.1.device.device)) }
    {
        let Restored {
            mut host,
            state,
            is_current,
        } = self;
        let mut state = state.with_reserve(reserve);
        let begun = state.begin(alloc, is_current, &mut host, journals)?;
        Ok((host, state, begun))
    }
}
