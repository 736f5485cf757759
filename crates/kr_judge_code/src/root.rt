// The methods that are run on the root.
ghost use Rattle.std.specs.Prelude.{◌<◌, IfSome, codes, length};
ghost use Rattle.kr_judge_code.specs.Vocabulary.{all_methods, IsFound, IsSubject, method_named, posed, root_class, table, tested_method};

use kr_classes_table::MethodId;
use kr_space_problem::{Problem, Subject};

/// The root's `repOk`.
#[tactic(auto, using(crate::proofs::Found::found_numbered))]
pub(crate) fn rep_ok(_problem: &Problem, subject: &Subject) -> Option<MethodId>
    requires subject { IsSubject _problem.now subject.now }
    ensures within { IfSome result (λ k. k < length (all_methods (table _problem.now.program))) }
    ensures is { IsFound _problem.now.program result (method_named (table _problem.now.program) (root_class (posed _problem.now)) (codes "repOk")) }
{
    subject.rep_ok
}

/// The method under test, where one is tested and the root's class has it.
#[tactic(auto, using(crate::proofs::Found::found_numbered))]
pub(crate) fn tested_method(_problem: &Problem, subject: &Subject) -> Option<MethodId>
    requires subject { IsSubject _problem.now subject.now }
    ensures { IsFound _problem.now.program result (tested_method (posed _problem.now) (posed _problem.now).mode) }
{
    subject.tested
}
