// What is wrong with states, tenant by tenant: objects are reported at once, targets and limits at the
// end.
ghost use Rattle.std.specs.Prelude.{◌≡◌, Err};
ghost use Rattle.fork_host.specs.Refilled.{first_told, told_at_once, with_judged, with_limit, with_target};

use crate::restore_error::RestoreError;
use crate::seeing::Against;
use fork_request::TenantName;
use git_name::Name;

// What is reported at once.
#[derive(Drop)]
pub(crate) enum Bad {
    // Memory ran out.
    Memory,
    // The object of this name is missing, damaged or unsound.
    Object(Name),
}

// What is reported at the end: the first bad target or, if there is none, the first tenant over its limit.
#[derive(Drop)]
pub(crate) enum Later {
    Nothing,
    Target(Name),
    Limit(TenantName),
}

impl Later {
    // Notes what to report at the end about this tenant, and returns what to report at once.
    pub(crate) fn note(&mut self, tenant: &TenantName, judged: Result<(), Against>) -> Option<Bad>
        ensures noted { self.new ≡ with_judged self.old tenant.now judged }
        ensures told { result ≡ told_at_once judged }
    {
        match judged {
            Ok(()) => None,
            Err(against) => self.note_against(tenant, against),
        }
    }

    fn note_against(&mut self, tenant: &TenantName, against: Against) -> Option<Bad>
        ensures noted { self.new ≡ with_judged self.old tenant.now (Err against) }
        ensures told { result ≡ told_at_once (Err against) }
    {
        match against {
            Against::Memory => Some(Bad::Memory),
            Against::BadObject(name) => Some(Bad::Object(name)),
            Against::Astray(target) => {
                self.note_target(target);
                None
            }
            Against::Limit => {
                self.note_limit(tenant.copy());
                None
            }
        }
    }

    fn note_target(&mut self, target: Name)
        ensures { self.new ≡ with_target self.old target }
    {
        match self {
            Later::Target(_) => {}
            _ => *self = Later::Target(target),
        }
    }

    fn note_limit(&mut self, tenant: TenantName)
        ensures { self.new ≡ with_limit self.old tenant }
    {
        match self {
            Later::Nothing => *self = Later::Limit(tenant),
            _ => {}
        }
    }

    // The error to report at the end, if there is one.
    pub(crate) fn told(self) -> Option<RestoreError>
        ensures { result ≡ first_told self }
    {
        match self {
            Later::Nothing => None,
            Later::Target(target) => Some(RestoreError::Unsound(target)),
            Later::Limit(tenant) => Some(RestoreError::OverLimit(tenant)),
        }
    }
}
