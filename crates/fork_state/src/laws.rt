ghost use Rattle.fork_state.specs.Loaded.{AcceptsItsWorld, LoadsItsWorld, ShowsItsWorld};

/// A law, with no code to run: over an honest store that has the objects of a sound world, `load` refuses
/// the text of its states only if memory runs out or the store fails. What it loads shows that world, except
/// its open uploads.
pub fn what_is_saved_is_loaded()
    ensures accepted { AcceptsItsWorld }
    ensures shown { ShowsItsWorld }
    ensures loaded { LoadsItsWorld }
{}
