// The subject of a problem, found once.
ghost use Rattle.std.specs.Prelude.{◌≡◌, IfOk, codes};
ghost use Rattle.kr_classes_table.specs.Table.{method_named};
ghost use Rattle.kr_code_members.specs.Nodes.{AreShaped, table};
ghost use Rattle.kr_mean.specs.Runs.{root_class, tested_method};
ghost use Rattle.kr_space_problem.specs.Posed.{IsPosed, posed};
ghost use Rattle.kr_space_problem.specs.Subjects.{IsNumberOf, IsSubject};

use crate::Problem;
use kr_base::NoMemory;
use kr_classes_table::{ClassId, MethodId};
use kr_code_members::{MemberNodes, member_nodes};
use kr_mean::Mode;
use kr_value::Class;
use std::alloc::Global;

/// The class of the root's objects, the numbers of its `repOk` and of the method under test, and the nodes of all members.
#[derive(Drop)]
pub struct Subject {
    pub members: MemberNodes,
    pub class: ClassId,
    pub rep_ok: Option<MethodId>,
    pub tested: Option<MethodId>,
}

/// The class of the root's objects.
fn root_class(problem: &Problem) -> ClassId
    ensures { result ≡ root_class (posed problem.now) }
{
    let layout = &problem.layout;
    let root = layout.root();
    if root as usize >= layout.domains() {
        return 0;
    }
    match layout.class(root) {
        Class::Object(class) => class,
        _ => 0,
    }
}

/// The number of the method of a name that a class has.
fn numbered(problem: &Problem, class: ClassId, name: &[u8]) -> Option<MethodId>
    requires { IsPosed problem.now }
    ensures { IsNumberOf (table problem.now.program) result (method_named (table problem.now.program) class name.now) }
{
    let program = &problem.program;
    program
        .roster
        .method_named(&program.table.members, class, name)
}

/// The number of the `repOk` that a class has.
fn rep_ok(problem: &Problem, class: ClassId) -> Option<MethodId>
    requires { IsPosed problem.now }
    ensures { IsNumberOf (table problem.now.program) result (method_named (table problem.now.program) class (codes "repOk")) }
{
    numbered(problem, class, b"repOk")
}

/// The number of the method under test, where one is tested and the root's class has it.
fn tested(problem: &Problem, class: ClassId) -> Option<MethodId>
    requires posed { IsPosed problem.now }
    requires class { class ≡ root_class (posed problem.now) }
    ensures { IsNumberOf (table problem.now.program) result (tested_method (posed problem.now) (posed problem.now).mode) }
{
    match problem.layout.mode() {
        Mode::List => None,
        Mode::Method(name) => numbered(problem, class, name.as_str().as_bytes()),
    }
}

impl Subject {
    /// That of a problem.
    pub fn of(alloc: Global, problem: &Problem) -> Result<Subject, NoMemory>
        requires posed { IsPosed problem.now }
        requires shaped { AreShaped problem.now.program }
        ensures { IfOk result (IsSubject problem.now) }
    {
        let class = root_class(problem);
        let rep_ok = rep_ok(problem, class);
        let tested = tested(problem, class);
        let members = member_nodes(alloc, &problem.program)?;
        Ok(Subject {
            members,
            class,
            rep_ok,
            tested,
        })
    }
}
