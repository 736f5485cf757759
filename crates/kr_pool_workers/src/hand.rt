// A worker's seat, the part that a full board gave back, and the lease under which it goes on.
ghost use Rattle.std.specs.Prelude.{◌≡◌, ◌+◌, ◌<◌, ◌≤◌, true, false, length, vec_len, vec_capacity, IfOk, None, is_some, map, reverse};
ghost use Rattle.std.specs.List.{list_any};
ghost use Rattle.std.specs.Option.{ForSome};
ghost use Rattle.kr_base.specs.Bounds.{less};
ghost use Rattle.kr_base.specs.declared.span.Bound.TheVariants.{At};
ghost use Rattle.kr_board.specs.Parts.{IsPart};
ghost use Rattle.kr_pool_desk.specs.Short.{IsShortBound, IsShortRun};
ghost use Rattle.kr_pool_workers.specs.Refusals.{whose};

use crate::refusal::Refusal;
use crate::stint::Stint;
use kr_base::NoMemory;
use kr_board::Lease;
use kr_pool_desk::{Crew, Run, Seat};
use kr_survey::Part;
use std::alloc::Global;
use std::marker::{Model, PhantomData};
use std::sync::ledger::{Blank, Ledger};

/// A part of the run's entries that a full board didn't take in, with its lease. Contracts see both.
#[derive(Drop)]
pub struct Kept<R, N: Run<R>> {
    lease: Lease,
    part: Part<R>,
    run: PhantomData<N>,
}

impl<R, N: Run<R>> Model for Kept<R, N> {
    ghost use Rattle.std.specs.Prelude.{◌≤◌, length};
    ghost use Rattle.kr_core.specs.declared.event.Lease.{Lease};
    ghost use Rattle.kr_survey.specs.declared.part.Part.{Part};
    ghost use Rattle.kr_board.specs.Parts.{IsPart};
    ghost use Rattle.kr_pool_desk.specs.Short.{IsShortBound, IsShortRun};

    ghost Value = { Lease × Part R };

    ghost view = { λ k. (k.lease, k.part) };

    ghost invariant = { λ k. IsPart N.all k.lease.mark k.part × (length k.part.rows ≤ 256)
        × (IsShortRun N.all N.span N.cuts → IsShortBound k.part.reach) };
}

impl<R, N: Run<R>> Kept<R, N> {
    pub fn new(lease: Lease, part: Part<R>) -> Self
        requires honest { IsPart N.all lease.mark part }
        requires few { length part.rows ≤ 256 }
        requires short { IsShortRun N.all N.span N.cuts → IsShortBound part.reach }
        ensures { (result.0 ≡ lease) × (result.1 ≡ part) }
    {
        Kept {
            lease,
            part,
            run: PhantomData,
        }
    }

    pub fn into_parts(self) -> (Lease, Part<R>)
        ensures lease { result.0 ≡ self.0 }
        ensures part { result.1 ≡ self.1 }
        ensures honest { IsPart N.all result.0.mark result.1 }
        ensures few { length result.1.rows ≤ 256 }
        ensures short { IsShortRun N.all N.span N.cuts → IsShortBound result.1.reach }
    {
        let Kept {
            lease,
            part,
            run: _,
        } = self;
        (lease, part)
    }

    /// The number of the lease's segment.
    pub fn segment(&self) -> u64
        ensures { result ≡ self.now.0.segment }
    {
        self.lease.segment
    }

    /// How many rows the part has.
    pub fn rows(&self) -> u64
        ensures { result ≡ length self.now.1.rows }
    {
        self.part.rows.len() as u64
    }
}

/// A lease of the run, under which something is left. Contracts see the lease.
#[derive(Drop)]
pub struct Open<R, N: Run<R>> {
    lease: Lease,
    run: PhantomData<N>,
    rows: PhantomData<R>,
}

impl<R, N: Run<R>> Model for Open<R, N> {
    ghost use Rattle.std.specs.Prelude.{◌≡◌, true};
    ghost use Rattle.kr_base.specs.Bounds.{less};
    ghost use Rattle.kr_base.specs.declared.span.Bound.TheVariants.{At};
    ghost use Rattle.kr_core.specs.declared.event.Lease.{Lease};
    ghost use Rattle.kr_pool_desk.specs.Short.{IsShortBound, IsShortRun};

    ghost Value = { Lease };

    ghost view = { λ o. o.lease };

    ghost invariant = { λ o. (less (At o.lease.mark) o.lease.upto ≡ true) × (IsShortRun N.all N.span N.cuts → IsShortBound o.lease.upto) };
}

impl<R, N: Run<R>> Open<R, N> {
    pub fn new(lease: Lease) -> Self
        requires ahead { less (At lease.mark) lease.upto ≡ true }
        requires short { IsShortRun N.all N.span N.cuts → IsShortBound lease.upto }
        ensures { result ≡ lease }
    {
        Open {
            lease,
            run: PhantomData,
            rows: PhantomData,
        }
    }

    pub fn into_lease(self) -> Lease
        ensures lease { result ≡ self }
        ensures ahead { less (At result.mark) result.upto ≡ true }
        ensures short { IsShortRun N.all N.span N.cuts → IsShortBound result.upto }
    {
        let Open {
            lease,
            run: _,
            rows: _,
        } = self;
        lease
    }
}

/// A worker's seat; the refusal of memory that its own worker met, after which it works no more; what it kept; and the lease under
/// which it goes on, if it has one between two parts. What is kept goes into the next stint.
#[derive(Drop)]
pub struct Hand<R, N: Run<R>> {
    pub(crate) seat: Seat<N>,
    refused: Option<Refusal>,
    kept: Option<Kept<R, N>>,
    pub(crate) open: Option<Open<R, N>>,
    pub ghost own: { ForSome refused (λ r. whose r ≡ seat.number) },
}

impl<R, N: Run<R>> Hand<R, N> {
    /// A seat whose worker wasn't refused memory, with nothing kept.
    pub fn new(seat: Seat<N>) -> Self
        ensures seat { result.seat ≡ seat }
        ensures unmarked { result.refused ≡ None }
        ensures none { result.kept ≡ None }
    {
        Hand {
            seat,
            refused: None,
            kept: None,
            open: None,
        }
    }

    /// Whether the hand keeps a refusal of memory. It is one that a call of its own worker answered.
    pub fn gave_up(&self) -> bool
        ensures kept { result ≡ is_some self.now.refused }
        ensures own { ForSome self.now.refused (λ r. whose r ≡ self.now.seat.number) }
    {
        self.refused.is_some()
    }

    /// Keeps what a call of the hand's worker answered.
    pub(crate) fn refuse(&mut self, why: NoMemory)
        ensures marked { is_some self.new.refused ≡ true }
        ensures seat { self.new.seat ≡ self.old.seat }
        ensures kept { self.new.kept ≡ self.old.kept }
    {
        self.refused = Some(Refusal::of(self.seat.number, why));
    }
}

impl<R: Drop, N: Run<R>> Hand<R, N> {
    /// A stint of the seat's worker, which goes on with the part that it kept.
    pub(crate) fn begin<L: Ledger, E: Ledger>(
        &mut self,
        runs: Blank,
        handed: Blank,
    ) -> Stint<R, N, L, E>
        requires runs { (runs.name ≡ L.name) × (runs.parts ≡ L.parts) × (0 < L.parts) }
        requires handed { (handed.name ≡ E.name) × (handed.parts ≡ E.parts) × (0 < E.parts) }
        ensures kept { result.kept ≡ self.old.kept }
        ensures none { self.new.kept ≡ None }
        ensures seat { self.new.seat ≡ self.old.seat }
    {
        Stint::begin(self.kept.take(), runs, handed)
    }

    /// The stint ends, and the part that it keeps is kept for the next one. There was no other stint since it began.
    pub(crate) fn end<L: Ledger, E: Ledger>(&mut self, stint: Stint<R, N, L, E>)
        requires none { self.old.kept ≡ None }
        ensures kept { self.new.kept ≡ stint.kept }
        ensures seat { self.new.seat ≡ self.old.seat }
    {
        self.kept = stint.into_kept();
    }

    /// The seat. A part that it kept is dropped.
    pub(crate) fn into_seat(self) -> Seat<N>
        ensures { result ≡ self.seat }
    {
        let Hand {
            seat,
            refused: _,
            kept: _,
            open: _,
        } = self;
        seat
    }
}

/// The seats from the last to the first, with nothing kept; no worker was refused memory. The seats' place is left, empty.
pub fn hands_of<R: Drop, N: Run<R>>(
    alloc: Global,
    seats: &mut Vec<Seat<N>>,
) -> Result<Vec<Hand<R, N>>, NoMemory>
    ensures count { IfOk result (λ hands. length hands.items ≡ length seats.old.items) }
    ensures seats { IfOk result (λ hands. reverse (map (λ h. h.seat) hands.items) ≡ seats.old.items) }
    ensures unmarked { IfOk result (λ hands. list_any (λ h. is_some h.refused) hands.items ≡ false) }
    ensures none { IfOk result (λ hands. length seats.new.items ≡ 0) }
    ensures room { vec_capacity seats.old ≤ vec_capacity seats.new }
{
    let mut hands = Vec::new(alloc);
    while let Some(seat) = seats.pop() {
        hands.push(Hand::new(seat))?;
    }
    Ok(hands)
}

/// All seats again, in a place that has room for them. It takes no memory.
pub fn seats_of<R: Drop, N: Run<R>>(
    place: Vec<Seat<N>>,
    first: Seat<N>,
    hands: Vec<Hand<R, N>>,
) -> Vec<Seat<N>>
    requires none { length place.items ≡ 0 }
    requires room { length hands.items + 1 ≤ vec_capacity place }
    ensures { length result.items ≡ length hands.items + 1 }
{
    let mut seats = place;
    let mut hands = hands;
    add_seat(&mut seats, first);
    while let Some(hand) = hands.pop() {
        add_seat(&mut seats, hand.into_seat());
    }
    seats
}

/// Adds a seat, for which there is room.
fn add_seat<N: Crew>(seats: &mut Vec<Seat<N>>, seat: Seat<N>)
    requires { vec_len seats.old < vec_capacity seats.old }
    ensures len { length seats.new.items ≡ length seats.old.items + 1 }
    ensures room { vec_capacity seats.old ≤ vec_capacity seats.new }
{
    match seats.push(seat) {
        Ok(()) => {}
        Err(_) => unreachable!(),
    }
}
