ghost use Rattle.std.specs.Prelude.{◌≡◌, IfOk, IfSome};
ghost use Rattle.git_name.specs.Object.{typed_bytes};

use crate::stored::typed;
use git_name::Kind;
use std::alloc::{AllocError, Global};

// A file in memory: the bytes that were put, or the kind and the content of an object.
#[derive(Debug, Drop)]
pub(crate) enum MemoryFile {
    Bytes(Vec<u8>),
    Object(Kind, Vec<u8>),
}

impl MemoryFile {
    ghost use Rattle.loose_store.specs.MemoryFile.{file_bytes};

    // A copy of its bytes.
    pub(crate) fn to_bytes(&self, alloc: Global) -> Result<Vec<u8>, AllocError>
        ensures { IfOk result (λ bytes. bytes.items ≡ file_bytes self.now) }
    {
        match self {
            MemoryFile::Bytes(bytes) => bytes.to_vec(alloc),
            MemoryFile::Object(kind, content) => typed(alloc, *kind, content.as_slice()),
        }
    }

    // The kind and the bytes of an object that was put as one.
    pub(crate) fn object(&self) -> Option<(Kind, &[u8])>
        ensures { IfSome result (λ lent. file_bytes self.now ≡ typed_bytes (record { kind = lent.0; bytes = lent.1.now })) }
    {
        match self {
            MemoryFile::Bytes(_) => None,
            MemoryFile::Object(kind, content) => Some((*kind, content.as_slice())),
        }
    }
}
