// Reads, once each, the objects on the store that tenants saw.
ghost use Rattle.std.specs.Prelude.{◌≡◌, ◌∷◌, [], Contains, IfOk, IsTrue, OnOk};
ghost use Rattle.std.specs.FinMap as map;
ghost use Rattle.fork_sound.specs.Reading.{object_reading};
ghost use Rattle.fork_host.specs.Read.{AreRead, Reads};
ghost use Rattle.state_text.specs.States.{TenantState as State};

use crate::open_error::OpenError;
use fork_ledger::{Survey, VaultFault};
use fork_sound::{Reading, Readings};
use git_name::{Name, Sealed};
use loose_store::LooseFiles;
use state_text::TenantState;
use std::alloc::Global;

// A survey of this store, in which nothing was read yet.
pub(crate) fn survey_of<S: LooseFiles + Drop>(
    alloc: Global,
    files: S,
) -> Result<Survey<S>, OpenError>
    ensures contents { IsTrue (S.honest files) → IfOk result (λ survey. survey.contents ≡ S.contents files) }
    ensures honest { IfOk result (λ survey. survey.honest ≡ S.honest files) }
    ensures failures { IfOk result (λ survey. survey.failures ≡ S.failures files) }
{
    match Survey::new(alloc, files) {
        Ok(survey) => Ok(survey),
        Err(VaultFault::Memory) => Err(OpenError::Memory),
        Err(_) => Err(OpenError::Store),
    }
}

// Reads the objects of the names that these tenants saw, each name once.
pub(crate) fn read_states<S: LooseFiles>(
    alloc: Global,
    survey: &mut Survey<S>,
    states: &[TenantState],
) -> Result<Readings, OpenError>
    ensures read { IfOk result (λ readings. (state : State) → Contains states.now state → AreRead survey.old.honest survey.old.contents state.seen readings) }
    ensures kept { IsTrue survey.old.honest → survey.new.contents ≡ survey.old.contents }
    ensures honest { survey.new.honest ≡ survey.old.honest }
    ensures failures { IfOk result (λ _. survey.new.failures ≡ survey.old.failures) }
{
    let mut readings = Readings::new(alloc);
    for state in states {
        read_seen(alloc, survey, &mut readings, state.seen())?;
    }
    Ok(readings)
}

// Reads the objects of these names that were not read yet.
fn read_seen<S: LooseFiles>(
    alloc: Global,
    survey: &mut Survey<S>,
    readings: &mut Readings,
    names: &[Name],
) -> Result<(), OpenError>
    ensures reads { OnOk result (Reads survey.old.honest survey.old.contents names.now readings.old readings.new) }
    ensures kept { IsTrue survey.old.honest → survey.new.contents ≡ survey.old.contents }
    ensures honest { survey.new.honest ≡ survey.old.honest }
    ensures failures { OnOk result (survey.new.failures ≡ survey.old.failures) }
{
    for name in names {
        read_new(alloc, survey, readings, *name)?;
    }
    Ok(())
}

// Reads the object of this name if it was not read yet.
fn read_new<S: LooseFiles>(
    alloc: Global,
    survey: &mut Survey<S>,
    readings: &mut Readings,
    name: Name,
) -> Result<(), OpenError>
    ensures reads { OnOk result (Reads survey.old.honest survey.old.contents (name ∷ []) readings.old readings.new) }
    ensures kept { IsTrue survey.old.honest → survey.new.contents ≡ survey.old.contents }
    ensures honest { survey.new.honest ≡ survey.old.honest }
    ensures failures { OnOk result (survey.new.failures ≡ survey.old.failures) }
{
    if readings.contains(name) {
        return Ok(());
    }
    read_one(alloc, survey, readings, name)
}

// Reads the object of this name, if the store has it whole.
fn read_one<S: LooseFiles>(
    alloc: Global,
    survey: &mut Survey<S>,
    readings: &mut Readings,
    name: Name,
) -> Result<(), OpenError>
    ensures reads { OnOk result (Reads survey.old.honest survey.old.contents (name ∷ []) readings.old readings.new) }
    ensures kept { IsTrue survey.old.honest → survey.new.contents ≡ survey.old.contents }
    ensures honest { survey.new.honest ≡ survey.old.honest }
    ensures failures { OnOk result (survey.new.failures ≡ survey.old.failures) }
{
    match survey.read(alloc, name) {
        Ok(Some(sealed)) => keep(alloc, readings, name, &sealed),
        // What is missing or damaged is judged once all the rest was read.
        Ok(None) => Ok(()),
        Err(VaultFault::Memory) => Err(OpenError::Memory),
        Err(_) => Err(OpenError::Store),
    }
}

// Keeps what is known of an object that was read.
fn keep(
    alloc: Global,
    readings: &mut Readings,
    name: Name,
    sealed: &Sealed,
) -> Result<(), OpenError>
    ensures { OnOk result (readings.new ≡ map.insert readings.old name (object_reading sealed.now)) }
{
    let Ok(reading) = Reading::of(alloc, sealed) else {
        return Err(OpenError::Memory);
    };
    let Ok(()) = readings.insert(name, reading) else {
        return Err(OpenError::Memory);
    };
    Ok(())
}
