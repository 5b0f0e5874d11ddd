ghost use Rattle.std.specs.Prelude.{◌≡◌, None};
ghost use Rattle.std.specs.FinMap as map;
ghost use Rattle.std.specs.Option.{option_copied};
ghost use Rattle.git_reftx.specs.Fronts.{AreOf, IsLeastNear, IsLesser, IsLesserOf};
ghost use Rattle.git_reftx.specs.Transaction.{changed, least_upper};

use crate::above::front_above;
use crate::order::Order;
use crate::ref_map::RefMap;
use git_refname::RefName;
use std::cmp::Ordering;

// The least name that is above another after these commands. Before them there was none, so a command has one
// of the two names.
pub(crate) fn least_upper(old: &RefMap, new: &RefMap, orders: &[Order]) -> Option<RefName>
    requires free { least_upper (map.keys old.now) ≡ None }
    requires changed { new.now ≡ changed orders.now old.now }
    ensures { result ≡ least_upper (map.keys new.now) }
{
    // Called for its clause that each name is valid.
    let _count = new.len();
    let Some(upper) = least_near(new, orders) else {
        return None;
    };
    match RefName::read(upper) {
        Ok(name) => Some(name),
        Err(_) => None,
    }
}

// The bytes of the least name above another, among the pairs in which a command has one of the two names.
fn least_near<'a>(references: &RefMap, orders: &'a [Order]) -> Option<&'a [u8]>
    ensures { IsLeastNear (map.keys references.now) (AreOf orders.now) (option_copied result) }
{
    let mut least: Option<&[u8]> = None;
    for order in orders {
        least = lesser_of(least, upper_at(references, order.reference()));
    }
    least
}

// The least name above another, among the pairs in which this is one of the two names.
fn upper_at<'a>(references: &RefMap, name: &'a RefName) -> Option<&'a [u8]>
    ensures { IsLeastNear (map.keys references.now) (λ other. name.now ≡ other) (option_copied result) }
{
    let text = name.as_bytes();
    if !references.contains(text) {
        return None;
    }
    if let Some(upper) = front_above(references, text) {
        return Some(upper);
    }
    if !references.has_below(name) {
        return None;
    }
    Some(text)
}

// The lesser of two names, or the only one.
fn lesser_of<'a>(least: Option<&'a [u8]>, upper: Option<&'a [u8]>) -> Option<&'a [u8]>
    ensures { IsLesserOf (option_copied least.entry) (option_copied upper.entry) (option_copied result) }
{
    let Some(upper) = upper else {
        return least;
    };
    Some(lesser(least, upper))
}

fn lesser<'a>(least: Option<&'a [u8]>, front: &'a [u8]) -> &'a [u8]
    ensures { IsLesser (option_copied least.entry) front.now result.now }
{
    let Some(old) = least else {
        return front;
    };
    match old.cmp(front) {
        Ordering::Greater => front,
        _ => old,
    }
}
