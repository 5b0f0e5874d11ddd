ghost use Rattle.std.specs.Prelude.{◌≡◌, ◌↔◌, IfErr, IsTrue, OnOk};
ghost use Rattle.fork_program.specs.Hashing.{TellsName, IsOfKind, IsUnnamed, object_line};

use crate::content::read_content;
use crate::fault::Fault;
use crate::send::send;
use git_name::{Kind, name_of};
use git_object::Object;
use std::alloc::Global;
use std::io::{Read, Write};

// Whether the bytes are an object of this kind.
fn is_object(kind: Kind, bytes: &[u8]) -> bool
    ensures { IsTrue result ↔ IsOfKind kind bytes.now }
{
    let Ok(_object) = Object::read(kind, bytes) else {
        return false;
    };
    true
}

// The name of the object of this kind, and LF.
fn line_of(kind: Kind, bytes: &[u8]) -> [u8; 65]
    ensures { result ≡ object_line kind bytes.now }
{
    let mut line = [b'\n'; 65];
    let name = name_of(kind, bytes);
    let mut digits = [0; 64];
    name.write_hex(&mut digits);
    line[..64].copy_from_slice(digits.as_slice());
    line
}

/// Prints the name of the object of this kind whose content is the input, and LF.
pub fn hash_object<R: Read, W: Write>(
    alloc: Global,
    kind: Kind,
    reader: &mut R,
    writer: &mut W,
) -> Result<(), Fault>
    ensures ok { OnOk result (TellsName kind (R.remaining reader.old)
        (W.contents writer.old) (W.contents writer.new)) }
    ensures err { IfErr result (IsUnnamed kind (R.remaining reader.old)
        (W.contents writer.old) (W.contents writer.new)) }
{
    let content = read_content(alloc, reader)?;
    if !is_object(kind, content.as_slice()) {
        return Err(Fault::BadObject);
    }
    let line = line_of(kind, content.as_slice());
    match send(line.as_slice(), writer) {
        Ok(()) => Ok(()),
        Err(fault) => Err(fault),
    }
}
