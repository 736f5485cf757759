// The seats of all workers at a board, in rounds that the caller leads.
ghost use Rattle.std.specs.Prelude.{◌≡◌, ◌+◌, ◌<◌, ◌≤◌, ◌++◌, ◌∷◌, [], Some, IfOk, IfSome, ◌||◌, ◌&&◌, is_some, length, map, reverse, vec_capacity, true};
ghost use Rattle.std.specs.List.{list_all, list_any};
ghost use Rattle.kr_pool.specs.Vocabulary.{AreInside, drained, IsBoardOf, numbers_below, numbers_of};

use crate::alone::Alone;
use kr_base::{Cut, NoMemory, Span};
use kr_board::Board;
use kr_pool_desk::{Run, Seat, Shared};
use kr_pool_workers::{Hand, Lead, hands_of, seats_of};
use kr_survey::Survey;
use std::alloc::Global;
use std::sync::ledger::{Blank, Ledger};

/// A shared board, the caller's place, and the seats of the others.
#[derive(Drop)]
pub struct Rounds<R, N: Run<R>, D: Ledger> {
    pub shared: Shared<R, N, D>,
    pub lead: Lead<R, N, D>,
    pub others: Vec<Hand<R, N>>,
}

fn any_gave_up<R, N: Run<R>>(hands: &[Hand<R, N>]) -> bool
    ensures { result ≡ list_any (λ h. is_some h.refused) hands.now }
{
    for hand in hands {
        if hand.gave_up() {
            return true;
        }
    }
    false
}

fn all_gave_up<R, N: Run<R>>(hands: &[Hand<R, N>]) -> bool
    ensures { result ≡ list_all (λ h. is_some h.refused) hands.now }
{
    for hand in hands {
        if !hand.gave_up() {
            return false;
        }
    }
    true
}

/// A board of a survey's span, with a window or without.
fn board_of<R: Drop, S: Survey<Row = R>>(
    alloc: Global,
    survey: &S,
    span: Span,
    cuts: &[Cut],
    window: Option<u64>,
) -> Result<Board<R>, NoMemory>
    requires inside { AreInside cuts.now span }
    requires window { IfSome window (λ w. (0 < w) × (w ≤ 65536)) }
    ensures log { IfOk result (λ board. board.log ≡ []) }
    ensures window { IfOk result (λ board. board.window ≡ window) }
    ensures of_survey { IfOk result (IsBoardOf (S.all survey.now) span cuts.now) }
{
    match window {
        None => Board::new(alloc, survey, span, cuts),
        Some(window) => Board::with_window(alloc, survey, span, cuts, window),
    }
}

impl<R: Drop + Send, N: Run<R> + Send + Sync, D: Ledger + Send + Sync> Rounds<R, N, D> {
    /// So many workers at a span, before the first round: one seat for each, the caller's and those of the others; and a place for
    /// their seats, to give them back.
    #[tactic(auto, using(crate::proofs::Seated::seated))]
    pub fn start<S: Survey<Row = R>>(
        alloc: Global,
        survey: &S,
        span: Span,
        cuts: &[Cut],
        workers: u32,
        window: Option<u64>,
        limit: Option<u64>,
        calls: Blank,
        tap: Blank,
    ) -> Result<(Rounds<R, N, D>, Vec<Seat<N>>), NoMemory>
        requires ledger { (calls.name ≡ N.name) × (calls.parts ≡ N.parts) }
        requires tap { (tap.name ≡ D.name) × (tap.parts ≡ D.parts) × (tap.parts ≡ 1) }
        requires workers { (N.parts ≡ workers) × (N.workers ≡ workers) }
        requires some { 0 < workers }
        requires window { IfSome window (λ w. (0 < w) × (w ≤ 65536)) × (N.window ≡ window) }
        requires limit { N.limit ≡ limit }
        requires survey { S.all survey.now ≡ N.all }
        requires span { span ≡ N.span }
        requires cuts { cuts.now ≡ N.cuts }
        requires inside { AreInside cuts.now span }
        requires opening { N.opening ≡ [] }
        ensures none { IfOk result (λ r. r.0.lead.0 ≡ 0) }
        ensures seats { IfOk result (λ r. length r.0.others.items + 1 ≡ workers) }
        ensures numbers { IfOk result (λ r. numbers_of (reverse (map (λ h. h.seat) r.0.others.items)) ++ 0 ∷ [] ≡ numbers_below workers) }
        ensures place { IfOk result (λ r. (length r.1.items ≡ 0) × (workers ≤ vec_capacity r.1)) }
    {
        survey.ascends();
        let board = board_of(alloc, survey, span, cuts, window)?;
        let (shared, mut seats, tap) = Shared::<R, N, D>::start(
            alloc, board, limit, workers, calls, tap,
        )?;
        let Some(seat) = seats.pop() else {
            unreachable!()
        };
        let others = hands_of::<R, N>(alloc, &mut seats)?;
        let rounds = Rounds {
            shared,
            lead: Lead::new(seat, tap),
            others,
        };
        Ok((rounds, seats))
    }

    /// Whether some seat's worker was refused memory.
    pub fn any_marked(&self) -> bool
        ensures { result ≡ (self.now.lead.1 || list_any (λ h. is_some h.refused) self.now.others.items) }
    {
        self.lead.gave_up() || any_gave_up(self.others.as_slice())
    }

    /// Whether every seat's worker was refused memory.
    pub fn all_marked(&self) -> bool
        ensures { result ≡ (self.now.lead.1 && list_all (λ h. is_some h.refused) self.now.others.items) }
    {
        self.lead.gave_up() && all_gave_up(self.others.as_slice())
    }

    /// The caller alone at the board, once all seats are back. Parts that they kept are dropped. It takes no memory.
    pub fn into_alone(self, place: Vec<Seat<N>>, limit: Option<u64>) -> Alone<R, N>
        requires workers { N.parts ≡ N.workers }
        requires seats { length self.others.items + 1 ≡ N.workers }
        requires place { (length place.items ≡ 0) × (N.workers ≤ vec_capacity place) }
        requires limit { N.limit ≡ limit }
        ensures { drained result.log ≡ self.lead.0 }
    {
        let Rounds {
            shared,
            lead,
            others,
        } = self;
        let (seat, mut tap) = lead.into_parts();
        let seats = seats_of(place, seat, others);
        Alone::new(shared.shut(seats, &mut tap), limit)
    }
}
