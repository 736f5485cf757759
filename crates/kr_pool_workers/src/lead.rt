// The caller's place in a round: its seat works a part at a time, and between two parts the next rows are drained.
ghost use Rattle.std.specs.Prelude.{◌≡◌, ◌+◌, ◌<◌, true, false, length, take, drop, IfOk, IfSome, OnErr, is_some};
ghost use Rattle.kr_survey.specs.Scans.{rows_of};
ghost use Rattle.kr_survey.specs.Listings.{listed_in};
ghost use Rattle.kr_pool_desk.specs.Observed.{ObservesDrain};

use crate::hand::Hand;
use crate::leading::{Leading, scratch_for};
use crate::stint::Stint;
use kr_base::NoMemory;
use kr_io::Gate;
use kr_pool_desk::{Run, Seat, Shared};
use kr_survey::{Rows, Survey};
use std::marker::Model;
use std::sync::Wait;
use std::sync::ledger::{Blank, Ledger, Share};

/// The caller's seat, and the share by which rows are drained. Contracts see how many rows were handed out, whether a call of the
/// caller's own worker was refused memory, whether a part is kept outside of a stint, and how many calls the seat logged.
#[derive(Drop)]
pub struct Lead<R, N: Run<R>, D: Ledger> {
    hand: Hand<R, N>,
    tap: Share<D>,
}

impl<R, N: Run<R>, D: Ledger> Model for Lead<R, N, D> {
    ghost use Rattle.std.specs.Prelude.{ℕ, Bool, ◌≡◌, ◌<◌, is_some};

    ghost Value = { ℕ × Bool × Bool × ℕ };

    ghost view = { λ l. (l.tap.amount, is_some l.hand.refused, is_some l.hand.kept, l.hand.seat.calls.amount) };

    ghost invariant = { λ l. (l.tap.parts ≡ D.parts) × (0 < l.tap.parts) };
}

impl<R: Drop, N: Run<R>, D: Ledger> Lead<R, N, D> {
    pub fn new(seat: Seat<N>, tap: Share<D>) -> Self
        requires tap { (tap.parts ≡ D.parts) × (0 < tap.parts) }
        ensures amount { result.0 ≡ tap.amount }
        ensures unmarked { result.1 ≡ false }
    {
        Lead {
            hand: Hand::new(seat),
            tap,
        }
    }

    /// Whether a call of the caller's own worker was refused memory.
    pub fn gave_up(&self) -> bool
        ensures { result ≡ self.now.1 }
    {
        self.hand.gave_up()
    }

    /// A scratch for the caller's worker, which gives up where there is no memory for one.
    pub fn scratch<S: Survey<Row = R>>(&mut self, survey: &S) -> Option<S::Scratch>
        ensures made { IfSome result (S.made survey.now) }
        ensures same { self.new.0 ≡ self.old.0 }
        ensures kept { self.new.2 ≡ self.old.2 }
    {
        scratch_for(survey, &mut self.hand)
    }

    /// A stint of the caller's worker, which goes on with the part that it kept.
    pub fn begin<L: Ledger, E: Ledger>(&mut self, runs: Blank, handed: Blank) -> Stint<R, N, L, E>
        requires runs { (runs.name ≡ L.name) × (runs.parts ≡ L.parts) × (0 < L.parts) }
        requires handed { (handed.name ≡ E.name) × (handed.parts ≡ E.parts) × (0 < E.parts) }
        ensures same { self.new.0 ≡ self.old.0 }
        ensures none { self.new.2 ≡ false }
    {
        self.hand.begin(runs, handed)
    }

    /// The stint ends, and the part that it keeps is kept for the next one. There was no other stint since it began.
    pub fn end<L: Ledger, E: Ledger>(&mut self, stint: Stint<R, N, L, E>)
        requires none { self.old.2 ≡ false }
        ensures same { self.new.0 ≡ self.old.0 }
    {
        self.hand.end(stint);
    }

    /// The caller's seat works for a part. Whether it did anything.
    pub fn step<L: Ledger, E: Ledger, S: Survey<Row = R>, G: Gate, W: Wait>(
        &mut self,
        rt: &W,
        shared: &Shared<R, N, D>,
        survey: &S,
        scratch: &mut Option<S::Scratch>,
        leading: &mut Leading,
        stint: &mut Stint<R, N, L, E>,
        gate: &G,
    ) -> bool
        requires survey { S.all survey.now ≡ N.all }
        requires made { IfSome scratch.old (S.made survey.now) }
        ensures made { IfSome scratch.new (S.made survey.now) }
        ensures same { self.new.0 ≡ self.old.0 }
        ensures kept { self.new.2 ≡ self.old.2 }
    {
        leading.step(rt, shared, survey, scratch, &mut self.hand, stint, gate)
    }

    /// The next rows are handed out, with whether these were the last. It may wait for the lock.
    #[tactic(auto, using(crate::proofs::Marking::own_along))]
    pub fn drain<W: Wait>(
        &mut self,
        rt: &W,
        shared: &Shared<R, N, D>,
    ) -> Result<(Rows<R>, bool), NoMemory>
        ensures rows { IfOk result (λ r. r.0 ≡ take (length r.0) (drop self.old.0 (rows_of (listed_in N.all N.span)))) }
        ensures given { IfOk result (λ r. self.new.0 ≡ self.old.0 + length r.0) }
        ensures observed { IfOk result (λ r. ObservesDrain N.all N.span N.cuts N.opening N.workers self.old.3 self.new.3 self.new.0 r.0 r.1) }
        ensures last { IfOk result (λ r. r.1 ≡ true → self.new.0 ≡ length (rows_of (listed_in N.all N.span))) }
        ensures refused { OnErr result (self.new.0 ≡ self.old.0) }
        ensures kept { self.new.2 ≡ self.old.2 }
    {
        shared.drain(rt, &mut self.hand.seat, &mut self.tap)
    }

    /// The seat and the share. A part that the seat kept is dropped.
    pub fn into_parts(self) -> (Seat<N>, Share<D>)
        ensures amount { result.1.amount ≡ self.0 }
        ensures parts { result.1.parts ≡ D.parts }
    {
        let Lead { hand, tap } = self;
        (hand.into_seat(), tap)
    }
}
