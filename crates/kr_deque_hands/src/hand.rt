// A worker's hand: its own deque, its way to the next one, and what it found.
ghost use Rattle.std.specs.Prelude.{◌≡◌, ◌+◌, ◌<◌, ◌≤◌, true, length, vec_len, vec_capacity, None, Some};
ghost use Rattle.std.specs.Option.{ForNone};
ghost use Rattle.crossbeam_deque.specs.Handles.{view, worker_flavor, worker_view, worker_index, worker_capacity};

use crate::rule::{Owner, Theft};
use kr_base::{NoMemory, Span};
use kr_survey::Piece;

/// How many spans a hand may push.
pub const PUSHES: u32 = 4096;

/// How many marks a hand may push.
pub const MARKS: u32 = 4000;

/// How many marks it uses to make sure, where it pops none, that nothing lies on its deque.
pub const LOOKS: u32 = 3000;

/// A worker's hand. It keeps the pieces that its worker found, the refusal of memory that it met, and what it held then; and
/// whether its worker found out that nothing lies on its deque.
#[derive(Drop)]
pub struct Hand<R> {
    pub(crate) number: u32,
    pub(crate) deque: Owner,
    pub(crate) next: Option<Theft>,
    pub(crate) pushes: u32,
    pub(crate) marks: u32,
    pub(crate) pieces: Vec<Piece<R>>,
    pub(crate) left: Vec<Span>,
    pub(crate) refused: Option<NoMemory>,
    pub(crate) shut: bool,
    ghost fifo: { worker_flavor deque ≡ 0 },
    ghost owner: { (worker_view deque).log.owner ≡ true },
    ghost thief: { (p : _) → next ≡ Some p → (view p).log.thief ≡ true },
    ghost alone: { ForNone next ((worker_view deque).log.thief ≡ true) },
    ghost count: { length (worker_view deque).log.pushed ≡ pushes },
    ghost most: { pushes ≤ 4096 },
    ghost marked: { (worker_view deque).marks.pushed ≡ marks },
    ghost most_marks: { marks ≤ 4000 },
    ghost closed: { shut ≡ true → (worker_view deque).marks.shut ≡ true },
    ghost spare: { refused ≡ None → vec_len left < vec_capacity left },
    ghost none: { refused ≡ None → length left.items ≡ 0 },
    ghost room: { worker_index deque + 8096 ≤ worker_capacity deque + pushes + marks },
}
