ghost use Rattle.std.specs.Prelude.{◌≡◌, IfOk};

use crate::byte_string::ByteString;
use crate::host_fault::HostFault;
use crate::refusal::Refusal;
use std::alloc::{AllocError, Global};

/// The reply of a host: the data that was asked for, why the request is refused, or a fault of the host
/// itself.
#[derive(Debug, Drop)]
pub enum Reply {
    /// `ok`, LF and the data.
    Done(ByteString),
    /// `ok` and LF, and the view is as it was.
    Unchanged,
    /// `no`, the refusal and LF.
    Refused(Refusal),
    /// `host`, the fault's word and LF.
    Failed(HostFault),
}

impl Reply {
    ghost use Rattle.fork_request.specs.Told.{bytes_of};

    /// Returns the bytes of the reply.
    pub fn bytes(&self, alloc: Global) -> Result<Vec<u8>, AllocError>
        ensures { IfOk result (λ text. text.items ≡ bytes_of self.now) }
    {
        let mut text = Vec::new(alloc);
        match self {
            Reply::Done(told) => {
                text.extend_from_slice(b"ok\n")?;
                text.extend_from_slice(told.as_bytes())?;
            }
            Reply::Unchanged => text.extend_from_slice(b"ok\n")?,
            Reply::Refused(refusal) => {
                text.extend_from_slice(b"no ")?;
                refusal.write(&mut text)?;
                text.push(b'\n')?;
            }
            Reply::Failed(fault) => {
                text.extend_from_slice(b"host ")?;
                text.extend_from_slice(fault.word())?;
                text.push(b'\n')?;
            }
        }
        Ok(text)
    }
}
