//! Tests of what a loss of power leaves of a store of objects, over a device in memory: a folder with a file for each object,
//! and segments. A run of puts, removals and syncs ends at each of many calls of the device; then power is lost, the store is
//! opened, and power is lost once more. What is there is compared with what a plain model says.
#![tactic(auto)]

#[cfg(test)]
mod tests;
