// The last tenant of states, and its last item, taken out and put back with more in it.
ghost use Rattle.std.specs.Prelude.{◌≡◌, ◌≢◌, ◌∷◌, ◌++◌, [], false, IfOk, IfErr, IfSome, IfNone};
ghost use Rattle.git_reftx.specs.Repository as git;
ghost use Rattle.state_text.specs.Place.{IsLast, with_at};
ghost use Rattle.state_text.specs.States as value;
ghost use Rattle.state_text.specs.States.{IsStates};
ghost use Rattle.state_text.specs.declared.place.Place as place;

use crate::line_fault::LineFault;
use crate::place::Place;
use crate::states::States;
use crate::tenant_state::TenantState;
use git_reftx::Repository;

// Takes out the last tenant, and its last item.
pub(crate) fn open_last(states: &mut States) -> Option<(TenantState, Place, Repository)>
    ensures found { IfSome result (λ found. states.old ≡ states.new ++ with_at found.0 found.1 found.2 ∷ []) }
    ensures last { IfSome result (λ found. IsLast found.0 found.1) }
    ensures none { IfNone result ((before : value.States) (tenant : value.TenantState) (place : place.Place) (repository : git.Repository) → IsLast tenant place → states.old ≢ before ++ with_at tenant place repository ∷ []) }
    ensures sound { IsStates states.old }
{
    let Some(mut tenant) = states.pop() else {
        return None;
    };
    let Some((place, repository)) = tenant.open() else {
        return None;
    };
    Some((tenant, place, repository))
}

// Puts back what was taken out last, with more in it.
pub(crate) fn close_last(
    states: &mut States,
    tenant: TenantState,
    place: Place,
    repository: Repository,
) -> Result<bool, LineFault>
    requires { IsStates (states.old ++ with_at tenant place repository ∷ []) }
    ensures ok { IfOk result (λ more. (more ≡ false) × (states.new ≡ states.old ++ with_at tenant place repository ∷ [])) }
    ensures fault { IfErr result (λ fault. fault ≡ LineFault.Memory) }
    ensures sound { IfOk result (λ more. IsStates states.new) }
{
    let mut tenant = tenant;
    let Ok(()) = tenant.close(place, repository) else {
        return Err(LineFault::Memory);
    };
    put_back(states, tenant, false)
}

// Puts back the tenant that was taken out last, with more in it, and returns whether a HEAD is
// awaited.
pub(crate) fn put_back(
    states: &mut States,
    tenant: TenantState,
    awaits: bool,
) -> Result<bool, LineFault>
    requires { IsStates (states.old ++ tenant ∷ []) }
    ensures ok { IfOk result (λ more. (more ≡ awaits) × (states.new ≡ states.old ++ tenant ∷ [])) }
    ensures fault { IfErr result (λ fault. fault ≡ LineFault.Memory) }
    ensures sound { IfOk result (λ more. IsStates states.new) }
{
    let Ok(()) = states.put_back(tenant) else {
        return Err(LineFault::Memory);
    };
    Ok(awaits)
}
