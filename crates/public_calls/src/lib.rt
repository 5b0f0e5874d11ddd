//! Tests of public calls that no session covers, each with ample memory. Expected results are Git's if Git has them,
//! and reads are counted. The tests are here and not in their crates, because a crate with tests is proved a second
//! time.
#![tactic(auto)]

#[cfg(test)]
mod tests;
