//! Tests of listings by many workers, who share a board or have a deque each: rows against keys, pieces joined, spans taken.
#![tactic(auto)]

#[cfg(test)]
mod tests;
