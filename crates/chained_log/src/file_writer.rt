ghost use Rattle.std.specs.Prelude.{◌≡◌, Ok, IfOk, string_bytes};
ghost use Rattle.devices.specs.Sink.{bytes_known, past_beside};
ghost use Rattle.chained_log.specs.Synced.{BesideFile, synced_known};

use crate::sync::SyncData;
use devices::{Device, DeviceFault, Sink};
use std::io;

/// The end of a file of a device that it owns. The first append creates a file that does not exist.
#[derive(Drop)]
pub struct FileWriter<D> {
    /// The device of the file.
    pub device: D,
    /// The path of the file.
    pub path: String,
}

fn passed(answer: Result<(), DeviceFault>) -> io::Result<()>
    ensures { IfOk result (λ value. answer ≡ Ok value) }
{
    match answer {
        Ok(()) => Ok(()),
        Err(fault) => Err(io::Error::from(fault)),
    }
}

impl<D: Device> Sink for FileWriter<D> {
    ghost Rest = { BesideFile };

    ghost contents = { λ file. bytes_known (D.honest file.device) (D.past file.device) (string_bytes file.path) };

    ghost rest = { λ file. record {
      path = string_bytes file.path;
      is_honest = D.honest file.device;
      past = past_beside (D.honest file.device) (D.past file.device) (string_bytes file.path);
    } };

    fn append(&mut self, bytes: &[u8]) -> io::Result<()> {
        let answer = self.device.append(self.path.as_str(), bytes);
        passed(answer)
    }
}

impl<D: Device> SyncData for FileWriter<D> {
    ghost synced = { λ file. synced_known (D.honest file.device) (D.past file.device) (string_bytes file.path) };

    fn sync(&mut self) -> io::Result<()> {
        let answer = self.device.sync_file(self.path.as_str());
        passed(answer)
    }
}
