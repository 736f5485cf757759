// The runs that the parts account for which a worker handed in, as proofs see them.
ghost use Rattle.std.specs.Prelude.{◌≡◌, ◌+◌, ◌<◌};
ghost use Rattle.kr_pool_desk.specs.Costs.{accounted};

use kr_board::{Refused, Reported};
use std::marker::Model;
use std::sync::ledger::{Blank, Book, Ledger, Share};

/// A ghost counter: it takes no memory and no time. Reports at a board alone count here.
#[derive(Drop)]
pub struct Handed<L: Ledger> {
    book: Book<L>,
    share: Share<L>,
}

impl<L: Ledger> Model for Handed<L> {
    ghost use Rattle.std.specs.Prelude.{ℕ, ◌<◌};

    ghost Value = { ℕ };

    ghost view = { λ h. h.book.total };

    ghost invariant = { λ h. 0 < h.share.parts };
}

impl<L: Ledger> Handed<L> {
    pub fn start(blank: Blank) -> Handed<L>
        requires ledger { blank.name ≡ L.name }
        requires parts { blank.parts ≡ L.parts }
        requires some { 0 < L.parts }
        ensures { result ≡ 0 }
    {
        let (book, share) = blank.open::<L>();
        Handed { book, share }
    }

    fn add(&mut self, count: u64)
        ensures { self.new ≡ self.old + count }
    {
        self.book.add(&mut self.share, count);
    }

    /// Counts the runs of a part of so many entries, scanned from a mark of so many numbers on, unless it came back.
    pub(crate) fn account<R>(
        &mut self,
        tried: u64,
        sought: u64,
        reported: &Result<Reported<R>, Refused<R>>,
    )
        ensures { self.new ≡ self.old + accounted (tried + sought + 3) reported.now }
    {
        match reported {
            Ok(Reported::Full(_, _)) => {}
            Ok(Reported::Gone) => self.add_all(tried, sought),
            Ok(Reported::Moved(_)) => self.add_all(tried, sought),
            Ok(Reported::Overrun(_)) => self.add_all(tried, sought),
            Ok(Reported::Done) => self.add_all(tried, sought),
            Ok(Reported::Go(_)) => self.add_all(tried, sought),
            Err(_) => self.add_all(tried, sought),
        }
    }

    fn add_all(&mut self, tried: u64, sought: u64)
        ensures { self.new ≡ self.old + (tried + sought + 3) }
    {
        self.add(tried);
        self.add(sought);
        self.add(3);
    }
}
