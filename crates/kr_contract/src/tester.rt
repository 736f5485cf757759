// The verdicts of a problem's method under test.
ghost use Rattle.std.specs.Prelude.{◌≡◌, ◌∷◌, IfOk, IsSome, List, Some, map};
ghost use Rattle.kr_contract.specs.Vocabulary.{bare, IsVector, Node, Numbering, posed, space_of, tested_method, verdict_of, verdict_with};
ghost use Rattle.kr_contract.specs.Kept.{IsKept};

use crate::heap::{Kept, bring};
use crate::start::begin;
use crate::trial::test;
use kr_base::NoMemory;
use kr_judge::{Predicate, blank_world, release_made};
use kr_judge_prepared::{Contract, Prepared};
use kr_mean::Verdict;
use kr_run_frames::Stack;
use kr_run_state::{Old, World};
use kr_value::Value;
use kr_vector::Vector;
use std::alloc::Global;
use std::marker::Model;

/// Rooms that are kept from test to test: the heap of a candidate, a world, a stack, and lists.
#[derive(Drop)]
pub struct Rooms {
    pub kept: Kept,
    pub world: World,
    pub stack: Stack,
    pub olds: Vec<Old>,
    pub arguments: Vec<Value>,
}

/// Tests of a prepared problem's method under test, one after another, in rooms that are used again: once they have grown,
/// a test takes no memory but what the method's own objects take. Contracts see the problem and its code.
#[derive(Drop)]
pub struct Tester<'p> {
    alloc: Global,
    prepared: &'p Prepared,
    rooms: Rooms,
}

impl<'p> Model for Tester<'p> {
    ghost use Rattle.kr_space_layout.specs.Bounds.{bare};
    ghost use Rattle.kr_judge_prepared.specs.Preparing.{Ready};
    ghost use Rattle.kr_contract.specs.Kept.{IsKept};

    ghost Value = { Ready };

    ghost view = { λ t. t.prepared.now };

    ghost invariant = { λ t. IsKept (bare t.prepared.now.problem.layout) t.rooms.kept };
}

/// The node of `this.repOk()`: the predicate's first condition.
fn rep_ok(predicate: &Predicate) -> u32
    ensures { (n : Numbering) (e : Node) (es : List Node) → map n.origin predicate.now.conditions.items ≡ e ∷ es → n.origin result ≡ e }
{
    match predicate.conditions.as_slice().first() {
        Some(node) => *node,
        None => 0,
    }
}

/// Tests the method of a contract on a candidate.
fn judge(
    alloc: Global,
    prepared: &Prepared,
    contract: &Contract,
    rooms: &mut Rooms,
    vector: &Vector,
    fuel: u64,
) -> Result<Verdict, NoMemory>
    requires vector { IsVector (space_of (posed prepared.now.problem)) vector.now }
    requires contract { prepared.now.contract ≡ Some contract.now }
    requires kept { IsKept (bare prepared.now.problem.layout) rooms.old.kept }
    ensures kept { IsKept (bare prepared.now.problem.layout) rooms.new.kept }
    ensures verdict { IfOk result (λ verdict. Some verdict ≡ verdict_with (posed prepared.now.problem) vector.now fuel) }
{
    prepared.laws();
    let layout = prepared.layout();
    let predicate = prepared.predicate();
    let root = rep_ok(predicate);
    bring(alloc, &mut rooms.kept, layout, vector)?;
    begin(
        alloc,
        layout,
        vector,
        &rooms.kept.heap,
        fuel,
        &mut rooms.world,
    )?;
    let verdict = test(
        alloc,
        &predicate.code,
        root,
        contract,
        &mut rooms.world,
        &mut rooms.stack,
        &mut rooms.olds,
        &mut rooms.arguments,
    );
    rooms.stack.release();
    release_made(alloc, &mut rooms.world.made);
    verdict
}

/// The verdict on a candidate, with so much fuel, where a method is tested.
fn verdict_with_fuel(
    alloc: Global,
    prepared: &Prepared,
    rooms: &mut Rooms,
    vector: &Vector,
    fuel: u64,
) -> Result<Option<Verdict>, NoMemory>
    requires vector { IsVector (space_of (posed prepared.now.problem)) vector.now }
    requires kept { IsKept (bare prepared.now.problem.layout) rooms.old.kept }
    ensures kept { IsKept (bare prepared.now.problem.layout) rooms.new.kept }
    ensures verdict { IfOk result (λ verdict. verdict ≡ verdict_with (posed prepared.now.problem) vector.now fuel) }
{
    let _ = prepared.predicate();
    match prepared.contract() {
        None => Ok(None),
        Some(contract) => {
            let verdict = judge(alloc, prepared, contract, rooms, vector, fuel)?;
            Ok(Some(verdict))
        }
    }
}

impl<'p> Tester<'p> {
    /// Nothing is tested yet. It takes no memory.
    pub fn new(alloc: Global, prepared: &'p Prepared) -> Result<Tester<'p>, NoMemory>
        ensures { IfOk result (λ tester. tester ≡ prepared.now) }
    {
        let kept = Kept::new(alloc)?;
        Ok(Tester {
            alloc,
            prepared,
            rooms: Rooms {
                kept,
                world: blank_world(alloc),
                stack: Stack::new(alloc),
                olds: Vec::new(alloc),
                arguments: Vec::new(alloc),
            },
        })
    }

    /// The verdict on a candidate, with so much fuel: exactly what the contract of the method under test means; none where a
    /// problem is listed.
    pub fn verdict(&mut self, vector: &Vector, fuel: u64) -> Result<Option<Verdict>, NoMemory>
        requires vector { IsVector (space_of (posed self.old.problem)) vector.now }
        ensures verdict { IfOk result (λ verdict. verdict ≡ verdict_with (posed self.old.problem) vector.now fuel) }
        ensures same { self.new ≡ self.old }
    {
        verdict_with_fuel(self.alloc, self.prepared, &mut self.rooms, vector, fuel)
    }

    /// The verdict on a candidate, with the problem's fuel; none where a problem is listed: then nothing is done.
    pub fn verdict_on(&mut self, vector: &Vector) -> Result<Option<Verdict>, NoMemory>
        requires vector { IsVector (space_of (posed self.old.problem)) vector.now }
        ensures verdict { IfOk result (λ verdict. verdict ≡ verdict_of (posed self.old.problem) vector.now) }
        ensures same { self.new ≡ self.old }
    {
        let fuel = self.prepared.layout().fuel();
        verdict_with_fuel(self.alloc, self.prepared, &mut self.rooms, vector, fuel)
    }
}

/// The verdict on one candidate of a problem whose method is tested, with so much fuel.
pub fn verdict(
    alloc: Global,
    prepared: &Prepared,
    vector: &Vector,
    fuel: u64,
) -> Result<Verdict, NoMemory>
    requires tested { IsSome (tested_method (posed prepared.now.problem) (posed prepared.now.problem).mode) }
    requires vector { IsVector (space_of (posed prepared.now.problem)) vector.now }
    ensures { IfOk result (λ verdict. Some verdict ≡ verdict_with (posed prepared.now.problem) vector.now fuel) }
{
    let mut tester = Tester::new(alloc, prepared)?;
    match tester.verdict(vector, fuel)? {
        Some(verdict) => Ok(verdict),
        // a method is tested
        None => unreachable!(),
    }
}
