ghost use Rattle.std.specs.Prelude.{◌≡◌, None, Some, IfOk, IfErr};
ghost use Rattle.git_reftx.specs.Judging.{TellsRefusal};
ghost use Rattle.git_reftx.specs.declared.fault.TxRefusal.TheVariants.{BadRef};
ghost use Rattle.git_reftx.specs.Transaction.{bad_ref, first_refusal, is_branch, missing_object, not_a_commit, points_at, stale, meets};

use crate::command::{Change, Command, Demand};
use crate::fault::{ApplyError, TxRefusal};
use crate::known::Known;
use crate::order::Order;
use crate::ref_map::RefMap;
use crate::ref_word::RefWord;
use git_name::{Kind, Name};
use git_refname::RefName;
use std::alloc::Global;

// The commands, if each reference has a valid name.
pub(crate) fn orders_of(alloc: Global, commands: &[Command]) -> Result<Vec<Order>, ApplyError>
    ensures found { IfOk result (λ orders. (orders.items ≡ commands.now) × (first_refusal bad_ref commands.now ≡ None)) }
    ensures exact { IfErr result (TellsRefusal (first_refusal bad_ref commands.now)) }
{
    let mut orders = Vec::new(alloc);
    for command in commands {
        let Ok(reference) = RefName::read(command.reference.as_bytes()) else {
            return Err(bad_ref(alloc, command.reference.as_bytes()));
        };
        let order = Order::new(reference, command.demand, command.change);
        let Ok(()) = orders.push(order) else {
            return Err(ApplyError::Memory);
        };
    }
    Ok(orders)
}

fn bad_ref(alloc: Global, reference: &[u8]) -> ApplyError
    ensures { TellsRefusal (Some (BadRef reference.now)) result }
{
    match reference.to_vec(alloc) {
        Ok(bytes) => ApplyError::Refused(TxRefusal::BadRef(RefWord::new(bytes))),
        Err(_) => ApplyError::Memory,
    }
}

// The first new object that is not known.
pub(crate) fn missing<K: Known>(orders: &[Order], known: &K) -> Option<TxRefusal>
    ensures { result ≡ first_refusal (λ command. missing_object (K.kinds known.now) command.change) orders.now }
{
    for order in orders {
        if let Some(refusal) = missing_in(order.change(), known) {
            return Some(refusal);
        }
    }
    None
}

fn missing_in<K: Known>(change: Change, known: &K) -> Option<TxRefusal>
    ensures { result ≡ missing_object (K.kinds known.now) change }
{
    let Change::Point(name) = change else {
        return None;
    };
    match known.kind_of(name) {
        Some(_) => None,
        None => Some(TxRefusal::Missing(name)),
    }
}

// The first new object of a branch that is not a commit.
pub(crate) fn not_a_commit<K: Known>(orders: &[Order], known: &K) -> Option<TxRefusal>
    ensures { result ≡ first_refusal (λ command. not_a_commit (K.kinds known.now) (is_branch command.reference) command.change) orders.now }
{
    for order in orders {
        let branch = order.reference().as_bytes().starts_with(b"refs/heads/");
        if let Some(refusal) = no_commit_in(branch, order.change(), known) {
            return Some(refusal);
        }
    }
    None
}

fn no_commit_in<K: Known>(branch: bool, change: Change, known: &K) -> Option<TxRefusal>
    ensures { result ≡ not_a_commit (K.kinds known.now) branch change }
{
    let Change::Point(name) = change else {
        return None;
    };
    if !branch {
        return None;
    }
    match known.kind_of(name) {
        Some(Kind::Commit) => None,
        _ => Some(TxRefusal::NotACommit(name)),
    }
}

// The first reference that is not as its command requires.
pub(crate) fn stale(orders: &[Order], old: &RefMap) -> Option<TxRefusal>
    ensures { result ≡ first_refusal (stale old.now) orders.now }
{
    for order in orders {
        let target = old.get(order.reference());
        if !is_met(order.demand(), target) {
            return Some(TxRefusal::Stale(order.reference().copy()));
        }
    }
    None
}

fn is_met(demand: Demand, target: Option<Name>) -> bool
    ensures { result ≡ meets demand target }
{
    match demand {
        Demand::Any => true,
        Demand::Absent => target.is_none(),
        Demand::Present => target.is_some(),
        Demand::At(name) => points_at(name, target),
    }
}

fn points_at(name: Name, target: Option<Name>) -> bool
    ensures { result ≡ points_at name target }
{
    match target {
        Some(target) => target == name,
        None => false,
    }
}
