//! A prepared problem as a survey: its entries in order, of which scans walk parts.
#![tactic(auto)]

mod batch;
mod handing;
mod maker;
mod row;
mod scan;
mod sharing;

pub use handing::walk;
pub use kr_mean::Row;
pub use maker::RowMaker;
pub use scan::{Scan, Stopped};
pub use sharing::may_be_shared;
