// A problem that breaks no rule.
ghost use Rattle.std.specs.Prelude.{◌≡◌};
ghost use Rattle.kr_space_problem.specs.Subjects.{IsSubject};
ghost use Rattle.kr_judge_prepared.specs.Accepting.{IsAccepted};

use kr_space_problem::{Problem, Subject};
use std::marker::Model;

/// A problem whose program and finitization break no rule, and whose predicate leaves the candidates alone, with its subject.
/// Contracts see the problem.
#[derive(Drop)]
pub struct Accepted {
    problem: Problem,
    subject: Subject,
}

impl Model for Accepted {
    ghost use Rattle.kr_space_problem.specs.declared.problem.Problem.{Problem};
    ghost use Rattle.kr_judge_prepared.specs.Accepting.{IsAcceptedWith};

    ghost Value = { Problem };

    ghost view = { λ a. a.problem };

    ghost invariant = { λ a. IsAcceptedWith a.problem a.subject };
}

impl Accepted {
    pub fn new(problem: Problem, subject: Subject) -> Accepted
        requires accepted { IsAccepted problem }
        requires subject { IsSubject problem subject }
        ensures { result ≡ problem }
    {
        Accepted { problem, subject }
    }

    pub fn problem(&self) -> &Problem
        ensures accepted { IsAccepted result.now }
        ensures same { result.now ≡ self.now }
    {
        &self.problem
    }

    pub fn subject(&self) -> &Subject
        ensures { IsSubject self.now result.now }
    {
        &self.subject
    }
}
