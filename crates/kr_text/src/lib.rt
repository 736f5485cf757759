//! Writing texts to a sink: numbers, places, refusals, and lines that are assembled before they are written. Reading them
//! back: the lines of a text, and the numbers and cuts in a line.
#![tactic(auto)]

mod line;
mod reading;
mod splitting;
mod texts;

pub use kr_base::put_all;
pub use line::Line;
pub use reading::{bound_of, cut_of, number_of};
pub use splitting::{after_front, first_line, part_at};
pub use texts::{put_decimal, put_pieces, put_place, put_refusal, put_refusal_bytes};
