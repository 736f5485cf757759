// The call of the root's `repOk`.
ghost use Rattle.std.specs.Prelude.{◌<◌, ℕ, IfSome, codes, length};
ghost use Rattle.kr_judge_code.specs.Vocabulary.{all_methods, IsFound, IsProgram, method_named, table};
ghost use Rattle.kr_judge_code.specs.Compiled.{CallsRepOk};

use kr_classes_table::MethodId;
use kr_code::{Expression, Nodes};
use kr_code_lowering::called_on;
use kr_types::Program;

/// `this.repOk()` in the code of a class, by the number of its `repOk` and of the node of its `this`.
pub(crate) fn rep_ok_call(program: &Program, method: Option<MethodId>, object: u32) -> Expression
    requires program { IsProgram program.now }
    requires method { IfSome method (λ k. k < length (all_methods (table program.now))) }
    ensures { (class : ℕ) → IsFound program.now method (method_named (table program.now) class (codes "repOk")) → CallsRepOk program.now class object result }
{
    let name = b"repOk".as_slice();
    let no_arguments = Nodes { first: 0, count: 0 };
    called_on(program, object, method, name, no_arguments)
}
