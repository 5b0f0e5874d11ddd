ghost use Rattle.std.specs.Prelude.{◌≡◌, ◌<◌, Ok, IfOk};
ghost use Rattle.git_name.specs.Count.{Rises, greatest_count};
ghost use Rattle.loose_store.specs.Failures.{Counts};

use devices::DeviceFault;
use loose_store::FileFault;

/// Turns a fault of the device into one of the store.
pub fn of_device<T: Drop>(answer: Result<T, DeviceFault>) -> Result<T, FileFault>
    ensures { IfOk result (λ value. answer ≡ Ok value) }
{
    match answer {
        Ok(value) => Ok(value),
        Err(DeviceFault::Memory) => Err(FileFault::Memory),
        Err(_) => Err(FileFault::Device),
    }
}

// Counts one more failure, unless the count is at its maximum.
fn rise(failures: &mut u64)
    ensures { Rises failures.old failures.new }
{
    *failures = failures.saturating_add(1);
}

// Passes on an answer, and counts it if it is a fault of the device.
fn counted<T: Drop>(failures: &mut u64, answer: Result<T, FileFault>) -> Result<T, FileFault>
    requires { failures.old < greatest_count }
    ensures same { result ≡ answer }
    ensures cause { Counts failures.old failures.new result }
{
    if let Err(FileFault::Device) = &answer {
        rise(failures);
    }
    answer
}

/// Turns an answer of the device into one of the store, and counts a fault of the device.
pub fn answered<T: Drop>(failures: &mut u64, answer: Result<T, DeviceFault>) -> Result<T, FileFault>
    ensures cause { Counts failures.old failures.new result }
    ensures passed { IfOk result (λ value. answer ≡ Ok value) }
{
    if *failures == u64::MAX {
        return Err(FileFault::Device);
    }
    counted(failures, of_device(answer))
}
