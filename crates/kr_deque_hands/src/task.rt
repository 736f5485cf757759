// The tasks on a deque.

use kr_base::Span;

/// A span to be scanned, or a mark after all spans that its owner had pushed: who takes it knows that those are taken. The
/// marks of a deque are numbered.
#[derive(Drop)]
pub enum Task {
    Whole(Span),
    Mark(u64),
}
