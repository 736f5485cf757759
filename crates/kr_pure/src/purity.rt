// Whether a problem is pure: whether no node of the predicate's code touches candidates.
ghost use Rattle.std.specs.Prelude.{◌≡◌, All, IfOk, IfErr};
ghost use Rattle.kr_mean.specs.Purity.{IsPure};
ghost use Rattle.kr_code_members.specs.Nodes.{AreShaped, IsThere};
ghost use Rattle.kr_space_problem.specs.Posed.{IsPosed, posed};
ghost use Rattle.kr_space_problem.specs.Subjects.{IsSubject};
ghost use Rattle.kr_pure.specs.declared.purity.PureRefusal.TheVariants.{NoMemory as Lacking};
ghost use Rattle.kr_pure.specs.Touched.{IsFirstTouch, IsTouchAt, Refuses};

use crate::node_list::NodeList;
use crate::reaching::predicate_nodes;
use kr_ast::{NodeId, tree_of};
use kr_base::{NoMemory, Place};
use kr_classes::earlier;
use kr_pure_effects::touches_candidates;
use kr_space_problem::{Problem, Subject};
use std::alloc::Global;

/// The problem was refused: the predicate's code creates an object that the finitization counts, or writes a field or an element
/// of one, first at this place; or memory was refused.
#[derive(Clone, Copy, PartialEq, Eq)]
pub enum PureRefusal {
    Impure { place: Place },
    NoMemory(NoMemory),
}

impl From<NoMemory> for PureRefusal {
    ghost from_gives = { λ why refusal. refusal ≡ Lacking why };

    fn from(why: NoMemory) -> PureRefusal {
        PureRefusal::NoMemory(why)
    }
}

/// The place of a node, if it touches candidates.
fn touch_at(problem: &Problem, at: NodeId) -> Result<Option<Place>, NoMemory>
    requires posed { IsPosed problem.now }
    requires node { IsThere problem.now.program at.file at.node }
    ensures { IfOk result (λ place. IsTouchAt problem.now at place) }
{
    if !touches_candidates(problem, at.file, at.node)? {
        return Ok(None);
    }
    let entry = tree_of(&problem.program.trees, at.file).entry(at.node);
    Ok(Some(entry.place))
}

/// The first place at which some of these nodes touches candidates.
fn first_touch(problem: &Problem, nodes: &NodeList) -> Result<Option<Place>, NoMemory>
    requires posed { IsPosed problem.now }
    requires nodes { All (λ n. IsThere problem.now.program n.file n.node) nodes.now.items }
    ensures { IfOk result (λ first. IsFirstTouch problem.now nodes.now.items first) }
{
    let count = nodes.len();
    let mut first = None;
    for next in 0..count {
        let at = nodes.at(next);
        let place = touch_at(problem, at)?;
        first = earlier(first, place);
    }
    Ok(first)
}

/// Tests that a problem is pure, by its subject.
fn test(alloc: Global, problem: &Problem, subject: &Subject) -> Result<(), PureRefusal>
    requires posed { IsPosed problem.now }
    requires subject { IsSubject problem.now subject.now }
    ensures pure { IfOk result (λ done. IsPure (posed problem.now)) }
    ensures impure { IfErr result (λ refusal. Refuses (posed problem.now) refusal) }
{
    let nodes = predicate_nodes(alloc, problem, subject)?;
    match first_touch(problem, &nodes)? {
        None => Ok(()),
        Some(place) => Err(PureRefusal::Impure { place }),
    }
}

/// Tests that a problem is pure, and returns its subject.
pub fn pure(alloc: Global, problem: &Problem) -> Result<Subject, PureRefusal>
    requires posed { IsPosed problem.now }
    requires shaped { AreShaped problem.now.program }
    ensures pure { IfOk result (λ subject. IsPure (posed problem.now)) }
    ensures subject { IfOk result (IsSubject problem.now) }
    ensures impure { IfErr result (λ refusal. Refuses (posed problem.now) refusal) }
{
    let subject = Subject::of(alloc, problem)?;
    test(alloc, problem, &subject)?;
    Ok(subject)
}
