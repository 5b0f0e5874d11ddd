ghost use Rattle.chained_log.specs.Laws.{ContentsAreRead, FrontContents, FrontIsRead, KnownContents, LogIsRead, OneReading, SyncedContents, WrittenContents};
ghost use Rattle.chained_log.specs.Synced.{SyncedStays};

/// A log is read in one way only. What was written is read as the pieces that were written, to its end. Any
/// front of it is read as the first of these pieces, with nothing altered. Each piece may have either sum.
pub fn what_is_written_is_found()
    ensures one { OneReading }
    ensures whole { LogIsRead }
    ensures front { FrontIsRead }
{}

/// The contents of a log are those of the pieces that it is read as. So what was written gives what was
/// written, and any front of it gives the contents of the first of these pieces, and of all that are whole in
/// it.
pub fn contents_are_what_was_written()
    ensures read { ContentsAreRead }
    ensures whole { WrittenContents }
    ensures front { FrontContents }
    ensures synced { SyncedContents }
{}

/// The contents of a log are known as long as it consists of whole pieces up to the sum that is remembered. So
/// they are not known behind a piece that was appended in part.
pub fn known_contents_are_whole()
    ensures { KnownContents }
{}

/// The bytes of a file that are sure to be kept are the front of any bytes that a loss of power may leave in it.
pub fn what_is_synced_stays()
    ensures { SyncedStays }
{}
