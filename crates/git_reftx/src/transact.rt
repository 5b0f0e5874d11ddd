ghost use Rattle.std.specs.Prelude.{◌≡◌, None, Ok, IfOk, IfErr};
ghost use Rattle.std.specs.FinMap as map;
ghost use Rattle.git_reftx.specs.Judging.{refused_before, refused_after, TellsTransacted};
ghost use Rattle.git_reftx.specs.Sound.{AreSound};
ghost use Rattle.git_reftx.specs.Transaction.{changed, least_upper, transacted};

use crate::carrying::carried_out;
use crate::command::Command;
use crate::conflict::least_upper;
use crate::fault::{ApplyError, TxRefusal};
use crate::judging::{missing, not_a_commit, orders_of, stale};
use crate::known::Known;
use crate::order::Order;
use crate::ref_map::RefMap;
use crate::repeated::repeated;
use std::alloc::{AllocError, Global};

/// The most references of a repository (own).
pub const MAX_REFERENCES: usize = 4096;

// The references after the commands.
pub(crate) fn transact<K: Known>(
    alloc: Global,
    old: &RefMap,
    commands: &[Command],
    known: &K,
) -> Result<RefMap, ApplyError>
    requires { AreSound old.now }
    ensures found { IfOk result (λ new. transacted old.now commands.now (K.kinds known.now) ≡ Ok new) }
    ensures sound { IfOk result AreSound }
    ensures exact { IfErr result (TellsTransacted (transacted old.now commands.now (K.kinds known.now))) }
{
    let orders = orders_of(alloc, commands)?;
    match refused_before(alloc, old, orders.as_slice(), known) {
        Ok(None) => {}
        Ok(Some(refusal)) => return Err(ApplyError::Refused(refusal)),
        Err(_) => return Err(ApplyError::Memory),
    }
    let Ok(new) = carried_out(old, orders.as_slice()) else {
        return Err(ApplyError::Memory);
    };
    if let Some(refusal) = refused_after(old, &new, orders.as_slice()) {
        return Err(ApplyError::Refused(refusal));
    }
    Ok(new)
}

// The checks on the references before the commands.
fn refused_before<K: Known>(
    alloc: Global,
    old: &RefMap,
    orders: &[Order],
    known: &K,
) -> Result<Option<TxRefusal>, AllocError>
    ensures { IfOk result (λ refusal. refusal ≡ refused_before old.now orders.now (K.kinds known.now)) }
{
    if let Some(refusal) = repeated(alloc, orders)? {
        return Ok(Some(refusal));
    }
    if let Some(refusal) = missing(orders, known) {
        return Ok(Some(refusal));
    }
    if let Some(refusal) = not_a_commit(orders, known) {
        return Ok(Some(refusal));
    }
    Ok(stale(orders, old))
}

// The checks on the references after the commands.
fn refused_after(old: &RefMap, new: &RefMap, orders: &[Order]) -> Option<TxRefusal>
    requires free { least_upper (map.keys old.now) ≡ None }
    requires changed { new.now ≡ changed orders.now old.now }
    ensures { result ≡ refused_after new.now }
{
    if let Some(upper) = least_upper(old, new, orders) {
        return Some(TxRefusal::RefConflict(upper));
    }
    if new.len() > MAX_REFERENCES {
        return Some(TxRefusal::TooMany);
    }
    None
}
