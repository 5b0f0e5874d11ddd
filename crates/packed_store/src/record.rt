ghost use Rattle.std.specs.Prelude.{◌≡◌, ◌+◌, ◌<◌, ◌≤◌, ◌∷◌, ◌++◌, OnOk, IfOk, decimal, length};
ghost use Rattle.std.specs.Int.{to_be_bytes, w16, w32};
ghost use Rattle.git_name.specs.Name.{IsName};
ghost use Rattle.git_name.specs.Object.{object_name, typed_bytes};
ghost use Rattle.packed_store.specs.Entry.{File, Removal, Settled, Undone, object_entry, object_kind, spelled, summed, title_size};
ghost use Rattle.packed_store.specs.Reading.{title_bytes};

use crate::place::{MAX_FILE, SHORT, SHORT_TITLE, TITLE};
use devices::DeviceFault;
use git_name::{Name, Sealed};
use itoa::Buffer;
use sha2::{Digest, Sha256};
use std::alloc::AllocError;

// Spells the title of a record, and nothing before it.
fn spell_title(room: &mut Vec<u8>, kind: u8, len: u32, name: &[u8; 32]) -> Result<(), AllocError>
    ensures { OnOk result (room.new.items ≡ kind ∷ to_be_bytes w32 len ++ name.now) }
{
    room.clear();
    room.push(kind)?;
    room.extend_from_slice(len.to_be_bytes().as_slice())?;
    room.extend_from_slice(name.as_slice())
}

// Spells the short title of a record, and nothing before it.
fn spell_short_title(room: &mut Vec<u8>, len: u32, name: &[u8; 32]) -> Result<(), AllocError>
    requires { len < SHORT }
    ensures { OnOk result (room.new.items ≡ to_be_bytes w16 (SHORT + len) ++ name.now) }
{
    let word = (SHORT + len) as u16;
    room.clear();
    room.extend_from_slice(word.to_be_bytes().as_slice())?;
    room.extend_from_slice(name.as_slice())
}

// Spells the title of an object's record, and nothing before it.
fn spell_object_title(room: &mut Vec<u8>, len: u32, name: &[u8; 32]) -> Result<(), AllocError>
    ensures { OnOk result (room.new.items ≡ title_bytes (object_kind len) len name.now) }
{
    if len < SHORT {
        return spell_short_title(room, len, name);
    }
    spell_title(room, b'o', len, name)
}

/// How many bytes the title of an object's record has, by the length of the object's file.
pub(crate) fn object_title(len: u32) -> u32
    ensures { result ≡ title_size (object_kind len) }
{
    if len < SHORT {
        return SHORT_TITLE;
    }
    TITLE
}

// Adds the sum of all bytes so far.
fn add_sum(room: &mut Vec<u8>) -> Result<(), AllocError>
    ensures { OnOk result (room.new.items ≡ summed room.old.items) }
{
    let sum = Sha256::digest(room.as_slice());
    room.extend_from_slice(sum.as_slice())
}

/// Spells the record of a file of any bytes. Returns how many these are. A file that is too long for any object is not
/// spelled.
pub(crate) fn spell_file(room: &mut Vec<u8>, name: Name, bytes: &[u8]) -> Result<u32, DeviceFault>
    ensures spelled { OnOk result (room.new.items ≡ spelled (File name bytes.now)) }
    ensures fits { OnOk result (length bytes.now ≤ MAX_FILE) }
    ensures len { IfOk result (λ len. len ≡ length bytes.now) }
    ensures name { IsName name }
{
    let own = name.as_bytes();
    if bytes.len() > MAX_FILE {
        return Err(DeviceFault::Device);
    }
    let len = bytes.len() as u32;
    spell_title(room, b'f', len, own)?;
    room.extend_from_slice(bytes)?;
    add_sum(room)?;
    Ok(len)
}

/// Spells the record of an object by its file. Returns how many bytes that has. One that is too long is not spelled.
pub(crate) fn spell_hashed(room: &mut Vec<u8>, name: Name, bytes: &[u8]) -> Result<u32, DeviceFault>
    ensures spelled { OnOk result (room.new.items ≡ spelled (object_entry name bytes.now)) }
    ensures fits { OnOk result (length bytes.now ≤ MAX_FILE) }
    ensures len { IfOk result (λ len. len ≡ length bytes.now) }
    ensures name { IsName name }
{
    let own = name.as_bytes();
    if bytes.len() > MAX_FILE {
        return Err(DeviceFault::Device);
    }
    let len = bytes.len() as u32;
    spell_object_title(room, len, own)?;
    room.extend_from_slice(bytes)?;
    Ok(len)
}

// Adds an object's file, whose length in digits these are.
fn add_typed(room: &mut Vec<u8>, sealed: &Sealed, digits: &str) -> Result<(), AllocError>
    ensures { digits.now ≡ decimal (length sealed.now.bytes) → OnOk result (room.new.items ≡ room.old.items ++ typed_bytes sealed.now) }
{
    room.extend_from_slice(sealed.kind().word())?;
    room.push(b' ')?;
    room.extend_from_slice(digits.as_bytes())?;
    room.push(0)?;
    room.extend_from_slice(sealed.bytes())
}

/// Spells the record of an object. Returns how many bytes its file has. One that is too long is not spelled.
pub(crate) fn spell_object(room: &mut Vec<u8>, sealed: &Sealed) -> Result<u32, DeviceFault>
    ensures spelled { OnOk result (room.new.items ≡ spelled (object_entry (object_name sealed.now) (typed_bytes sealed.now))) }
    ensures fits { OnOk result (length (typed_bytes sealed.now) ≤ MAX_FILE) }
    ensures len { IfOk result (λ len. len ≡ length (typed_bytes sealed.now)) }
    ensures name { IsName (object_name sealed.now) }
{
    let name = sealed.name();
    let own = name.as_bytes();
    let mut buffer = Buffer::new();
    let digits = buffer.format(sealed.bytes().len());
    let len = sealed.kind().word().len() as u128
        + digits.len() as u128
        + sealed.bytes().len() as u128
        + 2;
    if len > MAX_FILE as u128 {
        return Err(DeviceFault::Device);
    }
    let len = len as u32;
    spell_object_title(room, len, own)?;
    add_typed(room, sealed, digits)?;
    Ok(len)
}

/// Spells the record that a name is removed.
pub(crate) fn spell_removal(room: &mut Vec<u8>, name: Name) -> Result<(), AllocError>
    ensures { OnOk result (room.new.items ≡ spelled (Removal name)) }
{
    spell_title(room, b'r', 0, name.as_bytes())?;
    add_sum(room)
}

/// Spells the record that removals so far are final.
pub(crate) fn spell_settled(room: &mut Vec<u8>) -> Result<(), AllocError>
    ensures { OnOk result (room.new.items ≡ spelled Settled) }
{
    spell_title(room, b's', 0, &[0; 32])?;
    add_sum(room)
}

/// Spells the record that removals which are not final are undone.
pub(crate) fn spell_undone(room: &mut Vec<u8>) -> Result<(), AllocError>
    ensures { OnOk result (room.new.items ≡ spelled Undone) }
{
    spell_title(room, b'u', 0, &[0; 32])?;
    add_sum(room)
}
