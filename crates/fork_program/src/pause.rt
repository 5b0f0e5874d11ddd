use std::cell::Cell;
use std::time::{Clock, Duration, Instant};

/// Whether this time has come, or none is set. Then it is set to so many seconds from now.
pub(crate) fn is_over<H: Clock>(rt: &H, end: &Cell<Option<Instant>>, seconds: u64) -> bool {
    let Ok(now) = Instant::now(rt) else {
        return false;
    };
    if let Some(end) = end.get() {
        if now < end {
            return false;
        }
    }
    end.set(now.checked_add(Duration::from_secs(seconds)));
    true
}
