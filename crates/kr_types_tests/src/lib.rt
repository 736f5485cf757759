//! Tests of the class table and of typing, layer by layer: small sources, and each layer's answers on their trees. Small
//! functions borrow the values under test and answer whether they are as expected: a step that may fail while trees or tables
//! are owned makes a proof long.
#![tactic(auto)]

#[cfg(test)]
mod tests;
