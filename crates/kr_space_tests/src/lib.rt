//! Tests of finitizations and of the problems that they make of programs. What a test looks at is borrowed by small functions that
//! answer whether it is as it should be: a step that may fail while a program, a document or a layout is owned makes a proof long.
#![tactic(auto)]

#[cfg(test)]
mod tests;
