//! Tests of the search and of the plain listing over problems whose predicates are closures, and of the counter of runs.
#![tactic(auto)]

#[cfg(test)]
mod bases;
#[cfg(test)]
mod plain;
#[cfg(test)]
mod step;
#[cfg(test)]
mod steps;
