// What a seat's worker scans, and hands in.
ghost use Rattle.std.specs.Prelude.{◌≡◌, ◌+◌, ◌<◌, ◌≤◌, Some, None, true, not, is_some, IfOk, IfErr, IfSome};
ghost use Rattle.kr_base.specs.declared.span.Bound.TheVariants.{At};
ghost use Rattle.kr_base.specs.Bounds.{less};
ghost use Rattle.kr_board.specs.Parts.{IsPart};
ghost use Rattle.kr_pool_desk.specs.Leasing.{IsLeaseOf};
ghost use Rattle.kr_pool_desk.specs.Short.{IsShortBound, IsShortRun};
ghost use Rattle.kr_pool_workers.specs.Stints.{IfAnswered, IfTaken, ObservesScan, ObservesTurn, is_full, kept_cost};

use crate::hand::Kept;
use crate::scanning::scan_part;
use crate::turns::Turn;
use kr_base::{NoMemory, Steps};
use kr_board::{Lease, Reported};
use kr_pool_desk::{Handed, Run, Seat, Shared};
use kr_survey::Survey;
use std::sync::Wait;
use std::sync::ledger::{Blank, Ledger};

/// The part that a seat's worker scanned and has to hand in; and, as proofs see them, its runs of the predicate, and those that
/// the parts account for which it handed in. So a part that is scanned is handed in, before another one is scanned. Where a scan
/// was refused memory, which it keeps, its runs aren't known. A stint can't be dropped: it is ended by `into_kept`.
pub struct Stint<R, N: Run<R>, L: Ledger, E: Ledger> {
    kept: Option<Kept<R, N>>,
    runs: Steps<L>,
    handed: Handed<E>,
    refused: Option<NoMemory>,
    ghost paid: { refused ≡ None → runs ≤ handed + kept_cost kept },
}

impl<R: Drop, N: Run<R>, L: Ledger, E: Ledger> Stint<R, N, L, E> {
    /// Begins with the part that was kept before, if there is one.
    pub(crate) fn begin(kept: Option<Kept<R, N>>, runs: Blank, handed: Blank) -> Self
        requires runs { (runs.name ≡ L.name) × (runs.parts ≡ L.parts) × (0 < L.parts) }
        requires handed { (handed.name ≡ E.name) × (handed.parts ≡ E.parts) × (0 < E.parts) }
        ensures { result.kept ≡ kept }
    {
        Stint {
            kept,
            runs: Steps::start(runs),
            handed: Handed::start(handed),
            refused: None,
        }
    }

    /// The part that is kept at the end.
    pub(crate) fn into_kept(self) -> Option<Kept<R, N>>
        ensures { result ≡ self.kept }
    {
        let Stint {
            kept,
            runs: _,
            handed: _,
            refused: _,
        } = self;
        kept
    }

    /// Whether a part is kept.
    pub fn is_keeping(&self) -> bool {
        self.kept.is_some()
    }

    /// Whether what is kept has room.
    pub fn has_room<D: Ledger, W: Wait>(&self, rt: &W, shared: &Shared<R, N, D>) -> bool {
        match &self.kept {
            None => true,
            Some(kept) => shared.has_room(rt, kept.segment(), kept.rows()),
        }
    }

    /// Waits until what is kept has room. Whether it has.
    pub fn await_room<D: Ledger, W: Wait>(&self, rt: &W, shared: &Shared<R, N, D>) -> bool {
        match &self.kept {
            None => true,
            Some(kept) => shared.await_room(rt, kept.segment(), kept.rows()),
        }
    }

    // Scans a part under a lease, and keeps it. The lease comes back where memory is refused, and where another part is kept,
    // which has to be handed in first.
    fn scan<S: Survey<Row = R>>(
        &mut self,
        survey: &S,
        scratch: &mut S::Scratch,
        lease: Lease,
        most: u32,
    ) -> Result<(), (Lease, Option<NoMemory>)>
        requires most { (0 < most) × (most ≤ 256) }
        requires survey { S.all survey.now ≡ N.all }
        requires made { S.made survey.now scratch.old }
        requires ahead { less (At lease.mark) lease.upto ≡ true }
        requires short { IsShortRun N.all N.span N.cuts → IsShortBound lease.upto }
        ensures back { IfErr result (λ e. e.0 ≡ lease) }
        ensures scanned { IfOk result (λ u. IfSome self.new.kept (λ k. (k.0 ≡ lease) × IsPart N.all lease.mark k.1)) }
        ensures kept { IfOk result (λ u. is_some self.new.kept ≡ true) }
        ensures refused { IfErr result (λ e. is_some self.new.kept ≡ not (is_some e.1)) }
        ensures made { S.made survey.now scratch.new }
    {
        if self.kept.is_some() {
            return Err((lease, None));
        }
        match scan_part(survey, scratch, &lease, most, &mut self.runs) {
            Err(why) => {
                self.refused = Some(why);
                Err((lease, Some(why)))
            }
            Ok(part) => {
                self.kept = Some(Kept::new(lease, part));
                Ok(())
            }
        }
    }

    /// Hands in what is kept. Where memory is refused the lease is given up.
    pub(crate) fn hand_in<D: Ledger, W: Wait>(
        &mut self,
        rt: &W,
        shared: &Shared<R, N, D>,
        seat: &mut Seat<N>,
    ) -> Turn
        ensures observed { IfSome self.old.kept (λ k. IfAnswered result (ObservesTurn N.all N.span N.cuts N.opening N.workers N.limit seat.old.number seat.old.calls.amount seat.new.calls.amount k.0 k.1 result)) }
        ensures back { IfSome self.old.kept (λ k. result ≡ Turn.Full → self.new.kept ≡ Some (record k.0 { seat = seat.old.number }, k.1)) }
        ensures kept { is_some self.new.kept ≡ is_full result }
        ensures lease { (next : _) → result ≡ Turn.Go next → IsLeaseOf (IsShortRun N.all N.span N.cuts) seat.old.number next }
        ensures number { seat.new.number ≡ seat.old.number }
    {
        let Some(kept) = self.kept.take() else {
            return Turn::Done;
        };
        let (lease, part) = kept.into_parts();
        let lease = Lease {
            seat: seat.number,
            segment: lease.segment,
            mark: lease.mark,
            upto: lease.upto,
        };
        match shared.report(rt, lease, part, seat, &mut self.handed) {
            Err(refused) => {
                shared.give_up(rt, &refused.lease, seat);
                Turn::Refused(refused.why)
            }
            Ok(Reported::Gone) => Turn::Done,
            Ok(Reported::Moved(_)) => Turn::Done,
            Ok(Reported::Overrun(next)) => Turn::Go(next),
            Ok(Reported::Full(lease, part)) => {
                self.kept = Some(Kept::new(lease, part));
                Turn::Full
            }
            Ok(Reported::Done) => Turn::Done,
            Ok(Reported::Go(next)) => Turn::Go(next),
        }
    }

    /// A scan, and its report where the part has room. Where memory is refused the lease is given up.
    pub(crate) fn turn<D: Ledger, S: Survey<Row = R>, W: Wait>(
        &mut self,
        rt: &W,
        shared: &Shared<R, N, D>,
        survey: &S,
        scratch: &mut S::Scratch,
        seat: &mut Seat<N>,
        lease: Lease,
    ) -> Turn
        requires survey { S.all survey.now ≡ N.all }
        requires made { S.made survey.now scratch.old }
        requires lease { IsLeaseOf (IsShortRun N.all N.span N.cuts) seat.old.number lease }
        ensures observed { IfTaken result (ObservesScan N.all N.span N.cuts N.opening N.workers N.limit seat.old.number seat.old.calls.amount seat.new.calls.amount lease result) }
        ensures kept { is_some self.new.kept ≡ is_full result }
        ensures lease { (next : _) → result ≡ Turn.Go next → IsLeaseOf (IsShortRun N.all N.span N.cuts) seat.old.number next }
        ensures made { S.made survey.now scratch.new }
        ensures number { seat.new.number ≡ seat.old.number }
    {
        match self.scan(survey, scratch, lease, shared.batch()) {
            Err((lease, why)) => {
                shared.give_up(rt, &lease, seat);
                match why {
                    None => Turn::Full,
                    Some(why) => Turn::Refused(why),
                }
            }
            Ok(()) => {
                if self.has_room(rt, shared) {
                    self.hand_in(rt, shared, seat)
                } else {
                    Turn::Full
                }
            }
        }
    }
}
