// The bytes that open an upload again. Its objects are read from the store.
ghost use Rattle.std.specs.Prelude.{◌≡◌, ◌≤◌, ◌++◌, ℕ, List, IfOk, IfErr, IsTrue, OnOk, Some, map as each, replicate, true};
ghost use Rattle.std.specs.FinMap as map;
ghost use Rattle.std.specs.List.{AllByRecursion};
ghost use Rattle.push_stream.specs.declared.upload_limit.TheConstants.{MAX_UPLOAD};
ghost use Rattle.push_stream.specs.Record.{record_of};
ghost use Rattle.push_stream.specs.Spelling.{records_of};
ghost use Rattle.push_stream.specs.Upload.{upload_of};
ghost use Rattle.fork_model.specs.Uploads.{object_sent};
ghost use Rattle.fork_host.specs.Handle.{staged_by};
ghost use Rattle.fork_host.specs.Opening.{OnlyReads, reading_told};
ghost use Rattle.fork_host.specs.Staged.{Came, IsStaged};

use crate::own::Own;
use crate::replies::vault_fault;
use fork_request::HostFault;
use git_name::{Name, Sealed};
use loose_store::LooseFiles;
use push_stream::{OpenUpload, Sent, streams_hold_objects, write_record};
use std::alloc::{AllocError, Global};

// The bytes that open an upload again, with the objects that the tenant has staged for it.
pub(crate) fn bytes_of<S: LooseFiles>(
    alloc: Global,
    own: &mut Own<'_, S>,
    upload: &OpenUpload,
) -> Result<Vec<u8>, HostFault>
    requires staged { IsStaged own.old.vault.now.honest (Some upload.now.brief) (staged_by own.old) }
    ensures opens { (bytes : List ℕ) → IsTrue own.old.vault.now.honest → Came own.old.vault.now.honest bytes upload.now.brief (staged_by own.old) → IfOk result (λ again. upload_of again.items ≡ upload_of bytes) }
    ensures reads { OnlyReads own.old own.new (reading_told result) }
{
    streams_hold_objects();
    let _count = upload.count();
    let again = upload.again();
    let Ok(mut bytes) = again.header.to_vec(alloc) else {
        return Err(HostFault::Memory);
    };
    add_records(alloc, own, upload.sent(), &mut bytes)?;
    match add_end(&mut bytes, again.tail, again.zeros) {
        Ok(()) => Ok(bytes),
        Err(_) => Err(HostFault::Memory),
    }
}

// Adds the records of the staged objects of these names, in this order.
fn add_records<S: LooseFiles>(
    alloc: Global,
    own: &mut Own<'_, S>,
    sent: &[Sent],
    bytes: &mut Vec<u8>,
) -> Result<(), HostFault>
    requires there { AllByRecursion (λ one. map.contains_key (staged_by own.old) one.name ≡ true) sent.now }
    ensures added { IsTrue own.old.vault.now.honest → OnOk result (bytes.new.items ≡ bytes.old.items ++ records_of (each (object_sent (staged_by own.old)) sent.now)) }
    ensures reads { OnlyReads own.old own.new (reading_told result) }
{
    for one in sent {
        add_record(alloc, own, one, bytes)?;
    }
    Ok(())
}

// Adds the record of the staged object of this name.
fn add_record<S: LooseFiles>(
    alloc: Global,
    own: &mut Own<'_, S>,
    one: &Sent,
    bytes: &mut Vec<u8>,
) -> Result<(), HostFault>
    requires there { map.contains_key (staged_by own.old) one.now.name ≡ true }
    ensures added { IsTrue own.old.vault.now.honest → OnOk result (bytes.new.items ≡ bytes.old.items ++ record_of (object_sent (staged_by own.old) one.now)) }
    ensures reads { OnlyReads own.old own.new (reading_told result) }
{
    let sealed = staged(alloc, own, one.name)?;
    write_behind(alloc, &sealed, bytes)
}

// The staged object of this name, which must exist.
fn staged<S: LooseFiles>(
    alloc: Global,
    own: &mut Own<'_, S>,
    name: Name,
) -> Result<Sealed, HostFault>
    requires there { map.contains_key (staged_by own.old) name ≡ true }
    ensures found { IsTrue own.old.vault.now.honest → IfOk result (λ object. map.get (staged_by own.old) name ≡ Some object) }
    ensures reads { OnlyReads own.old own.new (reading_told result) }
{
    match own.get_staged(alloc, name) {
        Ok(Some(sealed)) => Ok(sealed),
        Ok(None) => unreachable!(),
        Err(fault) => Err(vault_fault(fault)),
    }
}

// Adds the record of an object.
fn write_behind(alloc: Global, sealed: &Sealed, bytes: &mut Vec<u8>) -> Result<(), HostFault>
    ensures written { OnOk result (bytes.new.items ≡ bytes.old.items ++ record_of sealed.now) }
    ensures cause { IfErr result (λ fault. fault ≡ HostFault.Memory) }
{
    let Ok(text) = write_record(alloc, sealed) else {
        return Err(HostFault::Memory);
    };
    match bytes.extend_from_slice(text.as_slice()) {
        Ok(()) => Ok(()),
        Err(_) => Err(HostFault::Memory),
    }
}

// Adds the unfinished rest, and a zero byte for each one that is missing.
fn add_end(bytes: &mut Vec<u8>, tail: &[u8], zeros: u64) -> Result<(), AllocError>
    requires { zeros ≤ MAX_UPLOAD }
    ensures { OnOk result (bytes.new.items ≡ bytes.old.items ++ (tail.now ++ replicate zeros 0)) }
{
    bytes.extend_from_slice(tail)?;
    bytes.resize(bytes.len() + zeros as usize, 0)
}
