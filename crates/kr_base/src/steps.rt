// The count of runs of the predicate, as proofs see it.
ghost use Rattle.std.specs.Prelude.{◌≡◌, ◌+◌, ◌<◌};

use std::marker::Model;
use std::sync::ledger::{Blank, Book, Ledger, Share};

/// A ghost counter: it takes no memory and no time. A caller that needs no count makes one from a `Blank` of a ledger of
/// its own, in a function that is generic in the ledger and called at `Brand`.
#[derive(Drop)]
pub struct Steps<L: Ledger> {
    book: Book<L>,
    share: Share<L>,
}

/// Leave for one run of the predicate: a tick gives it, and what begins or wakes a run takes it.
#[derive(Drop)]
pub struct Permit {
    seal: (),
}

impl<L: Ledger> Model for Steps<L> {
    ghost use Rattle.std.specs.Prelude.{ℕ, ◌<◌};

    ghost Value = { ℕ };

    ghost view = { λ s. s.book.total };

    ghost invariant = { λ s. 0 < s.share.parts };
}

impl<L: Ledger> Steps<L> {
    pub fn start(blank: Blank) -> Steps<L>
        requires ledger { blank.name ≡ L.name }
        requires parts { blank.parts ≡ L.parts }
        requires some { 0 < L.parts }
        ensures { result ≡ 0 }
    {
        let (book, share) = blank.open::<L>();
        Steps { book, share }
    }

    pub fn tick(&mut self) -> Permit
        ensures { self.new ≡ self.old + 1 }
    {
        self.book.add(&mut self.share, 1);
        Permit { seal: () }
    }
}
