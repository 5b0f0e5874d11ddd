ghost use Rattle.std.specs.Prelude.{◌≡◌, Ok, IfOk};
ghost use Rattle.devices.specs.Sink.{Beside, bytes_known, past_beside};

use crate::device::{Device, DeviceFault};
use crate::sink::Sink;
use std::io;

/// The end of a file of a device. The first append creates a file that does not exist.
#[derive(Drop)]
pub struct FileSink<'a, D: Device> {
    /// The device of the file.
    pub device: &'a mut D,
    /// The path of the file.
    pub path: &'a str,
}

fn passed(answer: Result<(), DeviceFault>) -> io::Result<()>
    ensures { IfOk result (λ value. answer ≡ Ok value) }
{
    match answer {
        Ok(()) => Ok(()),
        Err(fault) => Err(io::Error::from(fault)),
    }
}

impl<D: Device> Sink for FileSink<'_, D> {
    ghost Rest = { Beside };

    ghost contents = { λ sink. bytes_known (D.honest sink.device.now) (D.past sink.device.now) sink.path.now };

    ghost rest = { λ sink. record {
      device = sink.device.ghost_name;
      path = sink.path.now;
      is_honest = D.honest sink.device.now;
      past = past_beside (D.honest sink.device.now) (D.past sink.device.now) sink.path.now;
    } };

    fn append(&mut self, bytes: &[u8]) -> io::Result<()> {
        let answer = self.device.append(self.path, bytes);
        passed(answer)
    }
}
