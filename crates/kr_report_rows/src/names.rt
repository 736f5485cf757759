// The method under test, whose parameters structures have.
ghost use Rattle.std.specs.Prelude.{◌≡◌, IfSome};
ghost use Rattle.kr_report_rows.specs.Vocabulary.{IsMethod, names_of, posed, tested_parameters};

use kr_classes_members::Method;
use kr_judge_prepared::Prepared;

/// The method under test, where one is tested.
pub(crate) fn method_under_test(prepared: &Prepared) -> Option<Method>
    ensures stands { IfSome result (IsMethod prepared.now.problem.program.trees.items) }
    ensures names { names_of prepared.now.problem.program.trees.items result ≡ tested_parameters (posed prepared.now.problem) }
{
    prepared.method()
}
