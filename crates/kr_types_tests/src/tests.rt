// The tests, layer by layer.
mod classes;
mod constants;
mod expressions;
mod layers;
mod members;
mod names;
mod roster;
mod scopes;
mod statements;
mod type_numbers;
mod types;
