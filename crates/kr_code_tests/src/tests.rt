// The tests, by what they look at.
mod effects;
mod field;
mod found;
mod layers;
mod purity;
mod runnable;
mod tables;
