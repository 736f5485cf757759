// That workers may share the survey of a problem.

use crate::{Row, Scan};

fn is_shared<T: Sync>(value: &T) {
    let _ = value;
}

fn is_sent<T: Send>(values: &[T]) {
    let _ = values;
}

/// Threads may share a scan, and its rows may go from one to another. It does nothing.
pub fn may_be_shared(scan: &Scan<'_>, rows: &[Row]) {
    is_shared(scan);
    is_sent(rows);
}
