//! Entries in order: what a scan of them gives, who takes their rows, and how a listing of them ends. The search is one survey, a
//! list in memory is another.
#![tactic(auto)]

mod laws;
mod list;
mod making;
mod mapped;
mod part;
mod piece;
mod rows;
mod survey;
mod taker;

pub use kr_base::{Entry, Mark};
pub use laws::{mapped_law, scan_law};
pub use list::ListSurvey;
pub use making::Making;
pub use mapped::{Kept, Mapped};
pub use part::{Listing, Part};
pub use piece::Piece;
pub use rows::{RowList, Rows};
pub use survey::Survey;
pub use taker::{End, Halt, Room, RowTaker, Taker};
