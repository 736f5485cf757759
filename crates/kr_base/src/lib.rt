//! Types that every crate uses: places in files, the words of a call, keys of candidates with bounds and spans, entries,
//! the sink for text, the counter of runs, refusals, the error of an allocation, and a bound for loops.
#![tactic(auto)]

mod cut;
mod entry;
mod laws;
mod lists;
mod memory;
mod place;
mod refusal;
mod sink;
mod span;
mod steps;
mod words;

pub use cut::{Cut, CutRefusal, put_number};
pub use entry::{Entry, Mark};
pub use laws::{inside_law, order_law, reading_law, resumption_law};
pub use lists::add_found;
pub use memory::{Countdown, NoMemory};
pub use place::Place;
pub use refusal::{Fault, ItemName, RefusalAt, RefusalOf};
pub use sink::{Failed, Sink, put_all};
pub use span::{Bound, Span};
pub use steps::{Permit, Steps};
pub use words::Words;
