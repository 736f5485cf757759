//! Tests of the board: the machine under it, what is scanned for it, and reports in every order.
#![tactic(auto)]

#[cfg(test)]
mod board;
#[cfg(test)]
mod machine;
#[cfg(test)]
mod survey;
#[cfg(test)]
mod texts;
