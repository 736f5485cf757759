// The caller's work in a round that it leads: a part at a time, so that it can drain between two parts.
ghost use Rattle.std.specs.Prelude.{◌≡◌, IfSome, is_some};
ghost use Rattle.kr_pool_desk.specs.Leasing.{IsLeaseOf};
ghost use Rattle.kr_pool_desk.specs.Short.{IsShortRun};
ghost use Rattle.kr_pool_workers.specs.Stints.{ObservesNext};

use crate::hand::{Hand, Open};
use crate::stint::Stint;
use crate::turns::Turn;
use kr_board::Lease;
use kr_io::Gate;
use kr_pool_desk::{Run, Shared};
use kr_survey::Survey;
use std::sync::Wait;
use std::sync::ledger::Ledger;

/// After so many parts of its own the caller drains at the latest, if there are rows.
const PARTS: u64 = 64;

/// How the caller gets on in a round: how many leases its seat took, how many parts it did since rows were drained, after how many
/// they are drained next, and what news it saw before it looked for work.
#[derive(Drop)]
pub struct Leading {
    turn: u64,
    parts: u64,
    most: u64,
    seen: u64,
}

/// A scratch for the caller's seat, which keeps the refusal where there is no memory for one.
pub fn scratch_for<R: Drop, N: Run<R>, S: Survey<Row = R>>(
    survey: &S,
    hand: &mut Hand<R, N>,
) -> Option<S::Scratch>
    ensures made { IfSome result (S.made survey.now) }
    ensures kept { hand.new.kept ≡ hand.old.kept }
{
    match survey.scratch() {
        Ok(scratch) => Some(scratch),
        Err(why) => {
            hand.refuse(why);
            None
        }
    }
}

impl Leading {
    pub fn start() -> Leading {
        Leading {
            turn: 0,
            parts: 0,
            most: 1,
            seen: 0,
        }
    }

    // The lease under which the seat goes on, or one that it takes now. It passes the gate once after each take.
    #[tactic(auto, using(crate::proofs::Marking::own_along))]
    fn next_lease<R: Drop, N: Run<R>, D: Ledger, G: Gate, W: Wait>(
        &mut self,
        rt: &W,
        shared: &Shared<R, N, D>,
        hand: &mut Hand<R, N>,
        gate: &G,
    ) -> Option<Lease>
        ensures lease { IfSome result (IsLeaseOf (IsShortRun N.all N.span N.cuts) hand.new.seat.number) }
        ensures observed { ObservesNext N.all N.span N.cuts N.opening N.workers N.limit hand.old.seat.number hand.old.seat.calls.amount hand.new.seat.calls.amount hand.old.open (is_some hand.new.refused) result }
        ensures kept { hand.new.kept ≡ hand.old.kept }
    {
        if let Some(open) = hand.open.take() {
            let lease = open.into_lease();
            if lease.seat == hand.seat.number {
                return Some(lease);
            }
        }
        match shared.take_now(rt, &mut hand.seat) {
            Err(why) => {
                hand.refuse(why);
                None
            }
            Ok(None) => None,
            Ok(Some(lease)) => {
                gate.pass(hand.seat.number, self.turn);
                self.turn = self.turn.saturating_add(1);
                Some(lease)
            }
        }
    }

    // Hands in the part that was kept, if that has room now, or else scans one and hands it in; none where there was nothing to
    // do.
    #[tactic(auto, using(crate::proofs::Marking::own_along))]
    fn next_turn<
        R: Drop,
        N: Run<R>,
        D: Ledger,
        L: Ledger,
        E: Ledger,
        S: Survey<Row = R>,
        G: Gate,
        W: Wait,
    >(
        &mut self,
        rt: &W,
        shared: &Shared<R, N, D>,
        survey: &S,
        scratch: &mut S::Scratch,
        hand: &mut Hand<R, N>,
        stint: &mut Stint<R, N, L, E>,
        gate: &G,
    ) -> Option<Turn>
        requires survey { S.all survey.now ≡ N.all }
        requires made { S.made survey.now scratch.old }
        ensures made { S.made survey.now scratch.new }
        ensures lease { IfSome result (λ t. (next : _) → t ≡ Turn.Go next → IsLeaseOf (IsShortRun N.all N.span N.cuts) hand.new.seat.number next) }
        ensures kept { hand.new.kept ≡ hand.old.kept }
    {
        if stint.is_keeping() {
            if !stint.has_room(rt, shared) {
                return None;
            }
            return Some(stint.hand_in(rt, shared, &mut hand.seat));
        }
        match self.next_lease(rt, shared, hand, gate) {
            None => None,
            Some(lease) => Some(stint.turn(rt, shared, survey, scratch, &mut hand.seat, lease)),
        }
    }

    /// The caller's seat reports what it kept, or scans a part and reports it, unless it gave up; and where its segment is done, it
    /// takes the next lease. Whether it did anything.
    pub fn step<
        R: Drop,
        N: Run<R>,
        D: Ledger,
        L: Ledger,
        E: Ledger,
        S: Survey<Row = R>,
        G: Gate,
        W: Wait,
    >(
        &mut self,
        rt: &W,
        shared: &Shared<R, N, D>,
        survey: &S,
        scratch: &mut Option<S::Scratch>,
        hand: &mut Hand<R, N>,
        stint: &mut Stint<R, N, L, E>,
        gate: &G,
    ) -> bool
        requires survey { S.all survey.now ≡ N.all }
        requires made { IfSome scratch.old (S.made survey.now) }
        ensures made { IfSome scratch.new (S.made survey.now) }
        ensures kept { hand.new.kept ≡ hand.old.kept }
    {
        self.seen = shared.changes();
        let Some(scratch) = scratch else {
            return false;
        };
        if hand.gave_up() {
            return false;
        }
        match self.next_turn(rt, shared, survey, scratch, hand, stint, gate) {
            None => return false,
            Some(Turn::Go(lease)) => hand.open = Some(Open::new(lease)),
            Some(Turn::Full) => {}
            Some(Turn::Refused(why)) => hand.refuse(why),
            Some(Turn::Done) => {
                hand.open = match self.next_lease(rt, shared, hand, gate) {
                    None => None,
                    Some(lease) => Some(Open::new(lease)),
                };
            }
        }
        self.parts = self.parts.saturating_add(1);
        true
    }

    /// Whether the caller should drain now: always where there are rows, and it has nothing else to do, or a seat waits for room;
    /// and after twice as many parts of its own as the last time, so that there are rows early.
    pub fn is_due<R: Drop, N: Run<R>, D: Ledger, W: Wait>(
        &mut self,
        rt: &W,
        shared: &Shared<R, N, D>,
        has_worked: bool,
    ) -> bool {
        if !shared.is_due(rt, !has_worked || self.parts >= self.most) {
            return false;
        }
        self.parts = 0;
        self.most = if self.most >= PARTS {
            PARTS
        } else {
            self.most * 2
        };
        true
    }

    /// The caller found nothing to do: it waits a while for news. Not where the round should end.
    pub fn watch<R: Drop, N: Run<R>, D: Ledger, W: Wait>(
        &self,
        rt: &W,
        shared: &Shared<R, N, D>,
    ) -> bool {
        shared.watch(rt, self.seen)
    }
}
