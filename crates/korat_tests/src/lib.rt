//! Tests of the whole tool as one call, and of the demo's texts. tests/run and tests/cases try the built program.
#![tactic(auto)]

mod call;
#[cfg(test)]
mod calls;
#[cfg(test)]
mod demo;
#[cfg(test)]
mod failing;
mod held;
mod making;
mod running;
#[cfg(test)]
mod samples;
#[cfg(test)]
mod sharing;
#[cfg(test)]
mod workers;

pub use call::Call;
pub use held::{Ended, Written};
pub use running::{Given, ended, ends, started};
