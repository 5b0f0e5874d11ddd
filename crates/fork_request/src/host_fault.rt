ghost use Rattle.std.specs.Prelude.{◌≡◌};
ghost use Rattle.fork_request.specs.Told.{fault_word};

/// Why the host could not answer. A host fault is not an answer to the request, and changes no view.
#[derive(Clone, Copy, Debug, PartialEq, Eq)]
pub enum HostFault {
    /// Memory ran out.
    Memory,
    /// The store failed.
    Store,
    /// The store no longer has what a tenant sees.
    Damaged,
    /// Two different objects with the same name met.
    Collision,
}

impl HostFault {
    /// The word for the fault.
    pub fn word(self) -> &'static [u8]
        ensures { result.now ≡ fault_word self }
    {
        match self {
            HostFault::Memory => b"memory",
            HostFault::Store => b"store",
            HostFault::Damaged => b"damaged",
            HostFault::Collision => b"collision",
        }
    }
}
