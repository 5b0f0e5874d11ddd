ghost use Rattle.std.specs.Prelude.{◌≡◌, option_map};
ghost use Rattle.std.specs.Option.{option_copied};
ghost use Rattle.devices.specs.Loss.{added_in, failed_folder_in, failed_in, folder_in, source_in, synced_in, target_in, written_in};
ghost use Rattle.devices.specs.Note.{effect_of};

use crate::text::Text;

// What was done to a device in memory.
#[derive(Debug, Drop)]
pub(crate) enum Note {
    Write(Text, Text),
    Append(Text, Text),
    Rename(Text, Text),
    Remove(Text),
    SyncFile(Text),
    SyncFolder(Text),
    FailFile(Text),
    FailFolder(Text),
}

impl Note {
    // The path whose file decides what this does to the names.
    pub(crate) fn source(&self) -> Option<&Text>
        ensures { option_copied result ≡ source_in (effect_of self.now) }
    {
        match self {
            Note::Append(path, _) => Some(path),
            Note::Rename(from, _) => Some(from),
            Note::Remove(path) => Some(path),
            _ => None,
        }
    }

    // The path at which this may put a file.
    pub(crate) fn target(&self) -> Option<&Text>
        ensures { option_copied result ≡ target_in (effect_of self.now) }
    {
        match self {
            Note::Write(path, _) => Some(path),
            Note::Append(path, _) => Some(path),
            Note::Rename(_, to) => Some(to),
            _ => None,
        }
    }

    // The folder that was synced.
    pub(crate) fn synced_folder(&self) -> Option<&Text>
        ensures { option_copied result ≡ folder_in (effect_of self.now) }
    {
        match self {
            Note::SyncFolder(folder) => Some(folder),
            _ => None,
        }
    }

    // The folder whose sync failed.
    pub(crate) fn failed_folder(&self) -> Option<&Text>
        ensures { option_copied result ≡ failed_folder_in (effect_of self.now) }
    {
        match self {
            Note::FailFolder(folder) => Some(folder),
            _ => None,
        }
    }

    // The file that was synced.
    pub(crate) fn synced_file(&self) -> Option<&Text>
        ensures { option_copied result ≡ synced_in (effect_of self.now) }
    {
        match self {
            Note::SyncFile(path) => Some(path),
            _ => None,
        }
    }

    // The file whose sync failed.
    pub(crate) fn failed_file(&self) -> Option<&Text>
        ensures { option_copied result ≡ failed_in (effect_of self.now) }
    {
        match self {
            Note::FailFile(path) => Some(path),
            _ => None,
        }
    }

    // Where bytes were appended, and which.
    pub(crate) fn appended(&self) -> Option<(&Text, &Text)>
        ensures { option_map (λ pair. (pair.0.now, pair.1.now)) result ≡ added_in (effect_of self.now) }
    {
        match self {
            Note::Append(path, bytes) => Some((path, bytes)),
            _ => None,
        }
    }

    // The bytes that were written.
    pub(crate) fn written(&self) -> Option<&Text>
        ensures { option_copied result ≡ written_in (effect_of self.now) }
    {
        match self {
            Note::Write(_, bytes) => Some(bytes),
            Note::Append(_, bytes) => Some(bytes),
            _ => None,
        }
    }
}
