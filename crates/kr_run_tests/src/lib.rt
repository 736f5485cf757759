//! Tests of the machine: heaps, collections, operators, vectors, heaps of candidates, runs of code, calls on values in a heap,
//! verdicts.
#![tactic(auto)]

#[cfg(test)]
mod tests;
