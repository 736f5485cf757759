//! Tests of verdicts, from a source and a finitization on.
#![tactic(auto)]

#[cfg(test)]
mod composed;
#[cfg(test)]
mod problems;
#[cfg(test)]
mod random;
#[cfg(test)]
mod rows;
