// The candidates of a problem, whose runs go on from before the first place that changed.
ghost use Rattle.std.specs.Prelude.{◌≡◌, ◌<◌, ◌≤◌, ◌+◌, ◌^◌, false, take, IfOk, OnOk, length, replicate};
ghost use Rattle.kr_judge_replay.specs.Vocabulary.{bare, contains_number, end_on, end_said, ending_of, IsPredicateOf, IsVector, IsWellFormed, Numbering, order_of, posed, problem_with, Program, RunsOn, slots, space_of};

use crate::checks::Checks;
use crate::going::{Input, Last, run};
use kr_base::{NoMemory, Steps};
use kr_iso::{Object, Slots};
use kr_judge::{Accesses, Predicate, blank_world};
use kr_judge_prepared::Prepared;
use kr_mean::Stop;
use kr_run_frames::Stack;
use kr_run_state::World;
use kr_space_layout::Layout;
use kr_step::{Candidate, Ending};
use kr_vector::{Slot, Vector};
use std::alloc::Global;
use std::marker::Model;
use std::sync::ledger::Ledger;

/// A candidate of a problem that can be changed slot by slot and run. A run goes on from the last checkpoint of earlier runs
/// whose reads don't distinguish the candidate from theirs. Contracts see the problem, its slots and domains, its predicate's
/// code, the candidate and the order of slots of the last run.
#[derive(Drop)]
pub struct Runner<'s> {
    alloc: Global,
    prepared: &'s Prepared,
    layout: &'s Layout,
    predicate: &'s Predicate,
    vector: Vector,
    checks: Checks,
    // the vector of the last run, whose heap the world has, if it is known
    known: Vector,
    is_known: bool,
    // at so many of the first slots of its order the candidate has its indices
    fresh: usize,
    // and at all slots but those from one to another
    low: u32,
    high: u32,
    world: World,
    stack: Stack,
    accesses: Accesses,
}

impl<'s> Model for Runner<'s> {
    ghost use Rattle.std.specs.Prelude.{◌≡◌, ◌≤◌, length, true};
    ghost use Rattle.kr_build.specs.Renewed.{IsSameBut};
    ghost use Rattle.kr_mean.specs.Problem.{slots};
    ghost use Rattle.kr_mean.specs.Runs.{slots_for};
    ghost use Rattle.kr_space_layout.specs.Bounds.{bare};
    ghost use Rattle.kr_judge.specs.Follows.{Follow};
    ghost use Rattle.kr_space_problem.specs.Posed.{posed};
    ghost use Rattle.kr_judge_replay.specs.Going.{Alike, IsLast};
    ghost use Rattle.kr_judge_replay.specs.Seen.{IsRunOn, Seen};

    ghost Value = { Seen };

    ghost view = { λ r. record { problem = r.prepared.now.problem; bounds = r.layout.now; predicate = r.predicate.now; vector = r.vector; order = r.accesses.order } };

    ghost invariant = { λ r. Follow (slots_for (bare r.layout.now)) r.accesses × (length r.known ≡ length (slots (bare r.layout.now)))
        × (length r.vector ≡ length (slots (bare r.layout.now))) × (r.high ≤ length (slots (bare r.layout.now)))
        × (r.is_known ≡ true → IsLast r.layout.now r.predicate.now r.known r.checks r.world r.accesses × Alike r.layout.now r.known r.vector r.fresh r.accesses × IsSameBut r.known r.vector r.low r.high)
        × IsRunOn (posed r.prepared.now.problem) r.layout.now r.predicate.now };
}

/// How many of the first slots, of so many, come before one; none where it's a root.
#[inline(always)]
fn first_without(layout: &Layout, accesses: &Accesses, fresh: usize, slot: u32) -> usize
    ensures few { result ≤ fresh }
    ensures none { contains_number (take result accesses.now.order) slot ≡ false }
    ensures root { slot ≤ length layout.now.parameters → result ≡ 0 }
{
    if (slot as usize) <= layout.parameters() {
        0
    } else {
        accesses.order.first_without(fresh, slot)
    }
}

/// The number after a slot's, or a greater one.
#[inline(always)]
fn behind(layout: &Layout, high: u32, slot: u32) -> u32
    requires slot { slot < length (slots (bare layout.now)) }
    requires high { high ≤ length (slots (bare layout.now)) }
    ensures most { high ≤ result }
    ensures behind { slot < result }
    ensures few { result ≤ length (slots (bare layout.now)) }
{
    let count = layout.slots();
    if slot < high {
        high
    } else if slot < count {
        slot + 1
    } else {
        count
    }
}

/// How a run ends, for the search: one that traps is invalid.
fn ending_for(end: Result<bool, Stop>) -> Ending
    ensures { result ≡ ending_of (end_said end) }
{
    match end {
        Ok(true) => Ending::Valid,
        Ok(false) => Ending::Invalid,
        Err(Stop::Trapped(_)) => Ending::Invalid,
        Err(Stop::OutOfFuel) => Ending::Spent,
        Err(Stop::Stuck) => Ending::Invalid,
    }
}

impl<'s> Runner<'s> {
    /// The candidate of index 0 in every slot. A search over this candidate finds the problem's entries.
    pub fn new(alloc: Global, prepared: &'s Prepared) -> Result<Runner<'s>, NoMemory>
        ensures problem { IfOk result (λ runner. runner.problem ≡ prepared.now.problem) }
        ensures first { IfOk result (λ runner. ⟦<Runner<'s> as Candidate>⟧.vector runner ≡ replicate (⟦<Runner<'s> as Slots>⟧.space runner).slots 0) }
        ensures runs_on { IfOk result (λ runner. RunsOn (posed prepared.now.problem) (⟦<Runner<'s> as Slots>⟧.space runner) (⟦<Runner<'s> as Candidate>⟧.order runner) (⟦<Runner<'s> as Candidate>⟧.ending runner)) }
    {
        prepared.laws();
        let layout = prepared.layout();
        let vector = Vector::zero(alloc, layout.slots() as usize)?;
        let known = Vector::zero(alloc, layout.slots() as usize)?;
        Ok(Runner {
            alloc,
            prepared,
            layout,
            predicate: prepared.predicate(),
            vector,
            checks: Checks::new(alloc),
            known,
            is_known: false,
            fresh: 0,
            low: u32::MAX,
            high: 0,
            world: blank_world(alloc),
            stack: Stack::new(alloc),
            accesses: Accesses::new(alloc),
        })
    }

    /// Runs the predicate on the candidate, once: how the run ends, and the order of the slots that decide it.
    fn judge<L: Ledger>(&mut self, runs: &mut Steps<L>) -> Result<Result<bool, Stop>, NoMemory>
        requires well { IsWellFormed (bare self.old.bounds) }
        requires vector { IsVector (space_of (bare self.old.bounds)) self.old.vector }
        requires small { length (slots (bare self.old.bounds)) < 2 ^ 31 }
        requires some { 0 < length self.old.predicate.conditions.items }
        ensures ends { IfOk result (λ end. (program : Program) (n : Numbering) → IsPredicateOf (problem_with program self.old.bounds) self.old.predicate n → end_said end ≡ end_on (problem_with program self.old.bounds) self.old.vector) }
        ensures order { OnOk result ((program : Program) (n : Numbering) → IsPredicateOf (problem_with program self.old.bounds) self.old.predicate n → self.new.order ≡ order_of (problem_with program self.old.bounds) self.old.vector) }
        ensures others { self.new ≡ record self.old { order = self.new.order } }
        ensures runs { runs.new ≡ runs.old + 1 }
    {
        let is_known = self.is_known;
        self.is_known = false;
        let went = run(
            self.alloc,
            Input {
                layout: self.layout,
                predicate: self.predicate,
                vector: &self.vector,
            },
            Last {
                accesses: &self.accesses,
                is_known,
                fresh: self.fresh,
                low: self.low,
                high: self.high,
            },
            &mut self.known,
            &mut self.checks,
            &mut self.world,
            &mut self.stack,
            runs,
        )?;
        self.accesses.take(
            self.layout,
            &self.vector,
            went.end,
            &self.world.reads,
            went.shared,
        )?;
        self.is_known = true;
        self.fresh = self.accesses.order.len();
        self.low = u32::MAX;
        self.high = 0;
        Ok(went.end)
    }
}

impl<'s> Slots for Runner<'s> {
    ghost use Rattle.kr_mean.specs.Space.{space_of};
    ghost use Rattle.kr_space_problem.specs.Posed.{posed};

    ghost space = { λ r. space_of (posed r.problem) };

    fn slots(&self) -> u32 {
        self.layout.slots()
    }

    #[inline(always)]
    fn size(&self, slot: u32) -> u32 {
        self.layout.size(slot)
    }

    #[inline(always)]
    fn object_at(&self, slot: u32, index: u32) -> Option<Object> {
        self.layout.object(slot, index)
    }

    #[inline(always)]
    fn row(&self, slot: u32, index: u32) -> u32 {
        self.layout.row(slot, index)
    }
}

impl<'s> Candidate for Runner<'s> {
    ghost use Rattle.kr_mean.specs.Runs.{end_on, order_of};
    ghost use Rattle.kr_step.specs.Scans.{ending_of};
    ghost use Rattle.kr_space_problem.specs.Posed.{posed};

    ghost order = { λ r. order_of (posed r.problem) };

    ghost ending = { λ r v. ending_of (end_on (posed r.problem) v) };

    ghost vector = { λ r. r.vector };

    ghost last = { λ r. r.order };

    #[inline(always)]
    fn set(&mut self, slot: u32, index: u32) {
        self.fresh = first_without(self.layout, &self.accesses, self.fresh, slot);
        self.low = self.low.min(slot);
        self.high = behind(self.layout, self.high, slot);
        self.vector.set(Slot(slot), index);
    }

    fn run<L: Ledger>(&mut self, runs: &mut Steps<L>) -> Result<Ending, NoMemory> {
        self.prepared.laws();
        let end = self.judge(runs)?;
        Ok(ending_for(end))
    }

    #[inline(always)]
    fn last_order(&self) -> &[u32] {
        self.accesses.order.as_slice()
    }

    #[inline(always)]
    fn current(&self) -> &Vector {
        &self.vector
    }

    fn index(&self, slot: u32) -> u32 {
        self.vector.get(Slot(slot))
    }

    fn laws(&self) {
        self.prepared.laws();
    }
}
