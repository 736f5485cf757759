// The rule of a deque of spans and marks.
ghost use Rattle.kr_deque_hands.specs.Logs.{IsGiven, IsPushed, IsPopped, IsStolen, MayBeEmpty, KnowsRest};

use crate::task::Task;
use crossbeam_deque::protocol::{Join, Lesson, Outcome, Protocol, Split};
use crossbeam_deque::{Pass, Stealer, Worker};
use kr_base::Span;
use std::alloc::Global;
use std::collections::LinkedList;

/// The rights of a pass of a deque, as its owner or its thief, and what it did. No value of it is made.
pub struct Log {
    pub owner: bool,
    pub thief: bool,
    pub given: LinkedList<Span>,
    pub pushed: LinkedList<Span>,
    pub popped: LinkedList<Span>,
    pub stolen: LinkedList<Span>,
}

/// How many marks the owner pushed, how many it took back, and whether the last task that it took was the last that it had
/// pushed. No value of it is made.
pub struct Marks {
    pub pushed: u64,
    pub popped: u64,
    pub shut: bool,
}

/// The view of a pass. No value of it is made.
pub struct View {
    pub log: Log,
    pub marks: Marks,
}

/// The rule: what came is what was taken, in order, and then what the deque holds.
pub struct InOrder;

impl Protocol<Task, View> for InOrder {
    ghost use Rattle.std.specs.Prelude.{true, false, []};
    ghost use Rattle.kr_deque_hands.specs.Logs.{log, view_of, no_marks, Kept};

    ghost holds = { Kept };

    ghost first = { view_of (log true true [] [] [] []) no_marks };

    ghost guest = { view_of (log false false [] [] [] []) no_marks };
}

/// A span that is given at the start.
pub struct Given;

impl Outcome<Task, View> for Given {
    ghost then = { IsGiven };
}

/// A span or a mark that is pushed later.
pub struct Pushed;

impl Outcome<Task, View> for Pushed {
    ghost then = { IsPushed };
}

/// A task that the owner takes.
pub struct Popped;

impl Outcome<Task, View> for Popped {
    ghost then = { IsPopped };

    ghost empty = { λ v. MayBeEmpty v.log };
}

/// A task that the thief takes.
pub struct Stolen;

impl Outcome<Task, View> for Stolen {
    ghost then = { IsStolen };
}

/// The contents of a deque whose owner has its thief's part.
pub struct Total;

impl Lesson<Task, View> for Total {
    ghost fact = { λ v items. KnowsRest v.log items };
}

/// How many tasks a deque holds, which says nothing of them.
pub struct Looked;

impl Lesson<Task, View> for Looked {
    ghost fact = { λ _ _. Unit {0} };
}

/// The thief's part of a pass, split off and joined again.
pub struct Roles;

impl Split<View> for Roles {
    ghost use Rattle.kr_deque_hands.specs.Logs.{owner_part, thief_part};

    ghost left = { owner_part };

    ghost right = { thief_part };
}

impl Join<View> for Roles {
    ghost use Rattle.kr_deque_hands.specs.Logs.{both_parts, no_part};

    ghost both = { both_parts };

    ghost spent = { no_part };
}

/// The owner's end of a deque.
pub type Owner = Worker<Task, Global, View, InOrder>;

/// A handle that takes at its front.
pub type Front = Stealer<Task, Global, View, InOrder>;

/// A thief's view of a deque.
pub type Theft = Pass<Task, View>;
