ghost use Rattle.std.specs.Prelude.{◌≡◌, [], IfOk};
ghost use Rattle.git_reftx.specs.Transaction.{repeated_ref};

use crate::fault::TxRefusal;
use crate::order::Order;
use std::alloc::{AllocError, Global};
use std::collections::BTreeSet;

// The first reference that is in an earlier command.
pub(crate) fn repeated(alloc: Global, orders: &[Order]) -> Result<Option<TxRefusal>, AllocError>
    ensures { IfOk result (λ refusal. refusal ≡ repeated_ref [] orders.now) }
{
    let mut met = BTreeSet::new(alloc);
    for order in orders {
        if met.contains(order.reference()) {
            return Ok(Some(TxRefusal::RepeatedRef(order.reference().copy())));
        }
        met.insert(order.reference().copy())?;
    }
    Ok(None)
}
