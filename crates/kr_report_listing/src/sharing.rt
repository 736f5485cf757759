// That workers may share the surveys.

use crate::{Lines, Units};
use kr_report_streaming::RowLine;

fn is_shared<T: Sync>(value: &T) {
    let _ = value;
}

fn is_sent<T: Send>(values: &[T]) {
    let _ = values;
}

/// Threads may share the surveys, and lines may go from one to another. It does nothing.
pub fn may_be_shared(lines: &Lines<'_>, units: &Units<'_>, rows: &[RowLine]) {
    is_shared(lines);
    is_shared(units);
    is_sent(rows);
}
