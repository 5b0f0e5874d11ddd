ghost use Rattle.std.specs.Prelude.{◌≡◌, ◌≤◌, ◌↔◌, ◌++◌, ◌∷◌, [], IsTrue, OnOk, OnErr, IfErr, IfSome, IfNone, length, map};
ghost use Rattle.fork_model.specs.declared.limits.TheConstants.{MAX_TENANTS};
ghost use Rattle.state_text.specs.Adding.{TellsAdd, AreBefore};
ghost use Rattle.state_text.specs.States.{Ascend, IsStates};

use crate::fault::AddError;
use crate::tenant_state::TenantState;
use fork_model::MAX_TENANTS;
use fork_request::TenantName;
use std::alloc::{AllocError, Global};
use std::cmp::Ordering;
use std::marker::Model;

/// What outlives a host's process: the states of its tenants, by name in bytewise order.
#[derive(Drop)]
pub struct States {
    tenants: Vec<TenantState>,
}

impl Model for States {
    ghost use Rattle.std.specs.Coded.{coded_list};
    ghost use Rattle.state_text.specs.States as value;

    ghost Value = { value.States };

    ghost coded = { coded_list value.state_code };

    ghost view = { λ a. a.tenants.items };

    ghost invariant = { λ a. value.IsStates a.tenants.items };
}

impl States {
    /// No tenants.
    pub fn new(alloc: Global) -> States
        ensures { result ≡ [] }
    {
        States {
            tenants: Vec::new(alloc),
        }
    }

    /// The tenants' states, by name.
    pub fn as_slice(&self) -> &[TenantState]
        ensures tenants { result.now ≡ self.now }
        ensures sound { IsStates self.now }
    {
        self.tenants.as_slice()
    }

    /// The tenants' states, by name.
    pub fn into_vec(self) -> Vec<TenantState>
        ensures { result.items ≡ self }
    {
        let States { tenants } = self;
        tenants
    }

    /// Appends a tenant's state. An `Err` leaves the states as they were.
    pub fn push(&mut self, tenant: TenantState) -> Result<(), AddError>
        ensures ok { OnOk result (self.new ≡ self.old ++ tenant ∷ []) }
        ensures err { OnErr result (self.new ≡ self.old) }
        ensures cause { IfErr result (TellsAdd (MAX_TENANTS ≤ length self.old) (map (λ other. other.name) self.old) tenant.name) }
        ensures sound { OnOk result (IsStates self.new) }
    {
        if !tenant_follows(self.tenants.as_slice(), tenant.name()) {
            return Err(AddError::OutOfOrder);
        }
        if self.tenants.len() >= MAX_TENANTS {
            return Err(AddError::TooMany);
        }
        let Ok(()) = self.tenants.push(tenant) else {
            return Err(AddError::Memory);
        };
        Ok(())
    }

    // Keeps in memory only once what the last item has in common with one before it, if memory does not run out.
    pub(crate) fn share_last(&mut self)
        ensures { self.new ≡ self.old }
    {
        share_last_of(self.tenants.as_mut_slice());
    }

    // Removes the last tenant's state and returns it.
    pub(crate) fn pop(&mut self) -> Option<TenantState>
        ensures some { IfSome result (λ last. self.old ≡ self.new ++ last ∷ []) }
        ensures none { IfNone result (self.old ≡ []) }
        ensures sound { IsStates self.old }
    {
        self.tenants.pop()
    }

    // Puts back the state that was taken out last, with more in it.
    pub(crate) fn put_back(&mut self, tenant: TenantState) -> Result<(), AllocError>
        requires { IsStates (self.old ++ tenant ∷ []) }
        ensures { OnOk result (self.new ≡ self.old ++ tenant ∷ []) }
    {
        self.tenants.push(tenant)?;
        Ok(())
    }
}

// Whether the name comes after those of the tenants.
fn tenant_follows(tenants: &[TenantState], name: &TenantName) -> bool
    requires { Ascend (map (λ tenant. tenant.name) tenants.now) }
    ensures { IsTrue result ↔ AreBefore (map (λ tenant. tenant.name) tenants.now) name.now }
{
    let Some(last) = tenants.last() else {
        return true;
    };
    let Ordering::Less = last.name().cmp(name) else {
        return false;
    };
    true
}

// Shares the last item of the last tenant.
fn share_last_of(tenants: &mut [TenantState])
    ensures { tenants.new ≡ tenants.old }
{
    let Some(last) = tenants.last_mut() else {
        return;
    };
    last.share_last();
}
