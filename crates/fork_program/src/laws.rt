ghost use Rattle.fork_program.specs.Serving.{ServingIsOneRun};
ghost use Rattle.fork_program.specs.Synced.{LossIsRepeated, SyncedIsRepeated};

use chained_log::contents_are_what_was_written;
use fork_frame::a_front_of_frames_is_read;

/// A law, with no code to run: all that a host over a trusted store answered while it served is one run,
/// across all connections, whatever was saved in between. So the laws of runs hold across connections.
pub fn a_serving_is_one_run()
    ensures { ServingIsOneRun }
{}

/// A law, with no code to run: if a journal that refers to no log of uploads is left with all that was synced and a front of
/// what was written since, a start that succeeds does again all requests that were synced, in their order, and then the first
/// of the later ones, and no others.
///
/// The same holds of whatever a loss of power leaves of a journal on an honest device, if all pieces of the requests that were
/// synced are sure there (`an_appended_file_keeps_what_was_synced` of `host_folder`).
pub fn a_start_repeats_what_was_synced()
    ensures left { SyncedIsRepeated }
    ensures loss { LossIsRepeated }
{
    contents_are_what_was_written();
    a_front_of_frames_is_read();
}
