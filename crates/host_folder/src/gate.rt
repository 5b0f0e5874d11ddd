use std::alloc::{AllocError, Global};
use std::cell::Cell;
use std::rc::Rc;

/// Whether a store takes objects. A store shares it with the reserve of its folder, which shuts it while it is given back.
#[derive(Drop)]
pub struct Gate {
    is_shut: Rc<Cell<bool>>,
}

impl Gate {
    /// A gate that is open.
    pub fn new(alloc: Global) -> Result<Gate, AllocError> {
        let is_shut = Rc::new(alloc, Cell::new(false))?;
        Ok(Gate { is_shut })
    }

    /// The same gate, for another owner.
    pub fn share(&self) -> Result<Gate, AllocError> {
        let is_shut = self.is_shut.clone()?;
        Ok(Gate { is_shut })
    }

    /// Whether no object is taken.
    pub fn is_shut(&self) -> bool {
        self.is_shut.as_ref().get()
    }

    /// Shuts it, or opens it.
    pub(crate) fn shut(&self, is_shut: bool) {
        self.is_shut.as_ref().set(is_shut);
    }
}
