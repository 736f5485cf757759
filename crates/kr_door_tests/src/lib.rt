//! Tests of cuts and command lines, of files and outputs, of texts.
#![tactic(auto)]

#[cfg(test)]
mod cuts;
#[cfg(test)]
mod files;
#[cfg(test)]
mod texts;
#[cfg(test)]
mod words;
