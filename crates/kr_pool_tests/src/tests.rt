// Tests of each pool.
mod fronts;
mod gates;
mod joining;
mod keys;
mod listing;
mod pools;
mod rounds;
mod spans;
mod surveys;
mod taking;
