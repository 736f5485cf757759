//! Small problems for tests, read from their sources, with their candidates as vectors.
#![tactic(auto)]

mod random;
mod reading;
mod sources;
mod vectors;

pub use kr_sources::Unread;
pub use random::Random;
pub use reading::{read, read_test};
pub use sources::{
    LOOPING, NODES_FIRST, SORTED, SUMS, Sample, TREES, TWO_INTS, TWO_NODES, TWO_SUBCLASSES,
};
pub use vectors::{change, count_of, fits, indices_of, is_vector, layout_of, stands, vector_of};
