//! Tests of the crates between a typed program and its run: the nodes of members, the code of nodes, of members and of tables,
//! and the code that the predicate may run and its touches. Small functions borrow the values under test and answer whether
//! they are as expected: a step that may fail while a program is owned makes a proof long.
#![tactic(auto)]

#[cfg(test)]
mod tests;
