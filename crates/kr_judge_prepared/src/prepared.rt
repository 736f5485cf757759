// Problems that are searched and written.
ghost use Rattle.std.specs.Prelude.{◌≡◌, ◌<◌, ◌^◌, All, IfOk, IfSome, is_some, length, map, option_copied, option_map};
ghost use Rattle.kr_classes_table.specs.Table.{fields_of};
ghost use Rattle.kr_classes_members.specs.Shown.{IsField, IsMethod, field_shown, method_shown, table_in};
ghost use Rattle.kr_mean.specs.Problem.{slots};
ghost use Rattle.kr_mean.specs.Runs.{tested_method};
ghost use Rattle.kr_mean.specs.WellFormed.{IsWellFormed};
ghost use Rattle.kr_laws_pruning.specs.Laws.{IsLawful};
ghost use Rattle.kr_space_layout.specs.Bounds.{problem_with};
ghost use Rattle.kr_space_problem.specs.Posed.{IsPosed, posed};
ghost use Rattle.kr_space_problem.specs.Subjects.{IsSubject};
ghost use Rattle.kr_judge_prepared.specs.Accepting.{IsAccepted};
ghost use Rattle.kr_judge_prepared.specs.Tested.{IsCodeFor};
ghost use Rattle.kr_judge_prepared.specs.Preparing.{IsRunBy};

use crate::accepted::Accepted;
use crate::contract::{Contract, ProblemCode};
use crate::fields::{fields_at, fields_of_classes};
use kr_base::NoMemory;
use kr_classes_members::{Field, Method};
use kr_classes_table::ClassId;
use kr_judge::Predicate;
use kr_laws_pruning::lawful_law;
use kr_space_layout::Layout;
use kr_space_problem::{Problem, Subject};
use std::alloc::Global;
use std::marker::Model;

/// The method under test of a problem, where one is tested.
fn method_tested(problem: &Problem, subject: &Subject) -> Option<Method>
    requires posed { IsPosed problem.now }
    requires subject { IsSubject problem.now subject.now }
    ensures stands { IfSome result (IsMethod problem.now.program.trees.items) }
    ensures shown { option_map (method_shown problem.now.program.trees.items) result ≡ tested_method (posed problem.now) (posed problem.now).mode }
{
    match subject.tested {
        None => None,
        Some(number) => problem.program.roster.methods.get(number as usize).copied(),
    }
}

/// An accepted problem of any mode, with the code of its predicate and of its method under test, and the fields of each class's
/// objects. Contracts see the problem and the code.
#[derive(Drop)]
pub struct Prepared {
    accepted: Accepted,
    code: ProblemCode,
    rows: Vec<Vec<Field>>,
}

impl Model for Prepared {
    ghost use Rattle.kr_judge_prepared.specs.Fields.{rows_of};
    ghost use Rattle.kr_judge_prepared.specs.Preparing.{IsPrepared, Ready};

    ghost Value = { Ready };

    ghost view = { λ p. record { problem = p.accepted; predicate = p.code.predicate; contract = p.code.contract } };

    ghost invariant = { λ p. IsPrepared p.accepted p.code (rows_of p.rows.items) };
}

impl Prepared {
    /// The problem, whose code this is.
    pub fn new(alloc: Global, accepted: Accepted, code: ProblemCode) -> Result<Prepared, NoMemory>
        requires { IsCodeFor (posed accepted) code }
        ensures { IfOk result (λ prepared. prepared.problem ≡ accepted) }
    {
        let rows = fields_of_classes(alloc, &accepted.problem().program.table.members)?;
        Ok(Prepared {
            accepted,
            code,
            rows,
        })
    }

    pub fn problem(&self) -> &Problem
        ensures { result.now ≡ self.now.problem }
    {
        self.accepted.problem()
    }

    /// The slots of its candidates.
    pub fn layout(&self) -> &Layout
        ensures laid { posed self.now.problem ≡ problem_with (posed self.now.problem).program result.now }
        ensures same { result.now ≡ self.now.problem.layout }
    {
        &self.accepted.problem().layout
    }

    /// The conditions, as code of its program.
    pub fn predicate(&self) -> &Predicate
        ensures run { IsRunBy (posed self.now.problem) result.now }
        ensures same { result.now ≡ self.now.predicate }
        ensures tested { IsCodeFor (posed self.now.problem) (record { predicate = result.now; contract = self.now.contract }) }
    {
        &self.code.predicate
    }

    /// The method under test with its contract, as nodes of the predicate's code; none where a problem is listed.
    pub fn contract(&self) -> Option<&Contract>
        ensures same { option_copied result ≡ self.now.contract }
        ensures tested { is_some result ≡ is_some (tested_method (posed self.now.problem) (posed self.now.problem).mode) }
    {
        self.code.contract.as_ref()
    }

    /// The method under test, where one is tested.
    pub fn method(&self) -> Option<Method>
        ensures stands { IfSome result (IsMethod self.now.problem.program.trees.items) }
        ensures shown { option_map (method_shown self.now.problem.program.trees.items) result ≡ tested_method (posed self.now.problem) (posed self.now.problem).mode }
    {
        method_tested(self.accepted.problem(), self.accepted.subject())
    }

    /// The fields of a class's objects, inherited ones first; none of what is no class.
    pub fn fields(&self, class: ClassId) -> &[Field]
        ensures fields { All (IsField self.now.problem.program.trees.items) result.now }
        ensures shown { map (field_shown self.now.problem.program.trees.items) result.now ≡ fields_of (table_in self.now.problem.program.trees.items) class }
    {
        fields_at(self.rows.as_slice(), class)
    }

    /// Its laws: it breaks no rule; it is well formed; its orders fork and rename, and its runs read only what is reachable, as
    /// those of each pure problem do; and its slots have numbers.
    pub fn laws(&self)
        ensures accepted { IsAccepted self.now.problem }
        ensures well { IsWellFormed (posed self.now.problem) }
        ensures lawful { IsLawful (posed self.now.problem) }
        ensures small { length (slots (posed self.now.problem)) < 2 ^ 31 }
    {
        let _ = self.accepted.problem();
        lawful_law();
    }
}
