// The tests, by what they run.
mod build;
mod codes;
mod collections;
mod evaluate;
mod execute;
mod heap;
mod judge;
mod operators;
mod problems;
mod run;
mod thrown;
mod vector;
