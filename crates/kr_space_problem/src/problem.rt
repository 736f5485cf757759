// A problem: a program with its bounds.

use kr_space_layout::Layout;
use kr_types::Program;

/// A program that breaks no rule, with the array types that it or its finitization names and the layout of its candidates.
#[derive(Drop)]
pub struct Problem {
    pub program: Program,
    /// The array types by their numbers, each as its number among the types of the program's table.
    pub arrays: Vec<u32>,
    pub layout: Layout,
}
