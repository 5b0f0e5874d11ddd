ghost use Rattle.std.specs.Prelude.{◌≡◌, ◌++◌, IfOk, OnOk};
ghost use Rattle.fork_query.specs.Objects.{name_line, name_lines};

use git_name::Name;
use std::alloc::{AllocError, Global};

// The length of a line with a name, in bytes.
pub(crate) const NAME_LINE: usize = 65;

// Appends the name in digits, and LF.
pub(crate) fn write_name(text: &mut Vec<u8>, name: Name) -> Result<(), AllocError>
    ensures { OnOk result (text.new.items ≡ text.old.items ++ name_line name) }
{
    let mut digits = [0; 64];
    name.write_hex(&mut digits);
    text.extend_from_slice(digits.as_slice())?;
    text.push(b'\n')?;
    Ok(())
}

// The names, one per line.
pub(crate) fn write_names(alloc: Global, names: &[Name]) -> Result<Vec<u8>, AllocError>
    ensures { IfOk result (λ text. text.items ≡ name_lines names.now) }
{
    let mut text = Vec::with_capacity(alloc, names.len().saturating_mul(NAME_LINE))?;
    for name in names {
        write_name(&mut text, *name)?;
    }
    Ok(text)
}
