ghost use Rattle.std.specs.Prelude.{◌≡◌, IfOk, OnOk};
ghost use Rattle.git_reftx.specs.Transaction.{changed, changed_by};

use crate::command::Change;
use crate::order::Order;
use crate::ref_map::RefMap;
use std::alloc::AllocError;

// Carries out the commands in turn on a copy of the references, and returns the copy. It shares with the old
// ones what no command changes.
pub(crate) fn carried_out(old: &RefMap, orders: &[Order]) -> Result<RefMap, AllocError>
    ensures { IfOk result (λ new. new ≡ changed orders.now old.now) }
{
    let mut new = old.copy()?;
    for order in orders {
        carry_out(&mut new, order)?;
    }
    Ok(new)
}

fn carry_out(references: &mut RefMap, order: &Order) -> Result<(), AllocError>
    ensures { OnOk result (references.new ≡ changed_by order.now.reference order.now.change references.old) }
{
    match order.change() {
        Change::Keep => Ok(()),
        Change::Remove => references.remove(order.reference()),
        Change::Point(name) => references.insert(order.reference(), name),
    }
}
