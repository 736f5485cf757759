// The pending work between the outcome of a part and that of the whole expression.
ghost use Rattle.std.specs.Prelude.{◌≡◌, ◌<◌, ℕ, ◌∷◌, [], IfOk, OnOk, MatchOption};
ghost use Rattle.kr_ast.specs.Arena.{Arena};
ghost use Rattle.kr_classes_constants.specs.declared.frames.Task.TheVariants.{Give};
ghost use Rattle.kr_classes_constants.specs.Frames.{AreWithin, IsWithin, Setting, weights, whole};

use crate::note::{Found, binary_found, cast_found, conditional_found, unary_found};
use kr_ast::{BinaryOperator, UnaryOperator};
use kr_base::NoMemory;
use kr_value::Width;
use std::alloc::Global;
use std::marker::Model;

/// A pending step, with the outcomes found before: it waits for the operand of a unary operator, the left operand, the
/// right one, the condition, one of the two arms, or the operand of a cast.
#[derive(Clone, Copy)]
pub(crate) enum Frame {
    Operand(UnaryOperator),
    Left {
        operator: BinaryOperator,
        right: u32,
    },
    Right {
        operator: BinaryOperator,
        left: Found,
    },
    Condition {
        holds: u32,
        fails: u32,
    },
    Holds {
        condition: Found,
        fails: u32,
    },
    Fails {
        condition: Found,
        holds: Found,
    },
    /// To a type of numbers of a width, or to another primitive one.
    Cast(Option<Width>),
}

/// A node to be looked at, or what was found of one.
#[derive(Clone, Copy)]
pub(crate) enum Task {
    Look(u32),
    Give(Found),
}

/// Frames, the innermost on top. Contracts see the list of them, the innermost first.
#[derive(Drop)]
pub(crate) struct Frames {
    items: Vec<Frame>,
}

impl Model for Frames {
    ghost use Rattle.std.specs.Prelude.{List, reverse};
    ghost use Rattle.kr_classes_constants.specs.declared.frames.Frame.{Frame};

    ghost Value = { List Frame };

    ghost view = { λ s. reverse s.items.items };
}

impl Frames {
    /// Allocates nothing.
    pub(crate) fn new(alloc: Global) -> Self
        ensures { result ≡ [] }
    {
        Frames {
            items: Vec::new(alloc),
        }
    }

    pub(crate) fn push(&mut self, frame: Frame) -> Result<(), NoMemory>
        ensures { OnOk result (self.new ≡ frame ∷ self.old) }
    {
        self.items.push(frame)?;
        Ok(())
    }

    pub(crate) fn pop(&mut self) -> Option<Frame>
        ensures { MatchOption result ((self.old ≡ []) × (self.new ≡ [])) (λ frame. self.old ≡ frame ∷ self.new) }
    {
        self.items.pop()
    }
}

/// Continues a frame with the outcome that it waited for.
pub(crate) fn resume(frames: &mut Frames, frame: Frame, note: Found) -> Result<Task, NoMemory>
    ensures within { IfOk result (λ task. (n : ℕ) → AreWithin n (frame ∷ frames.old) → IsWithin n task × AreWithin n frames.new) }
    ensures light { IfOk result (λ task. (a : Arena) → weights a task frames.new < weights a (Give note) (frame ∷ frames.old)) }
    ensures same { IfOk result (λ task. (s : Setting) → whole s task frames.new ≡ whole s (Give note) (frame ∷ frames.old)) }
{
    match frame {
        Frame::Operand(operator) => Ok(Task::Give(unary_found(operator, note))),
        Frame::Left { operator, right } => {
            frames.push(Frame::Right {
                operator,
                left: note,
            })?;
            Ok(Task::Look(right))
        }
        Frame::Right { operator, left } => Ok(Task::Give(binary_found(operator, left, note))),
        Frame::Condition { holds, fails } => {
            frames.push(Frame::Holds {
                condition: note,
                fails,
            })?;
            Ok(Task::Look(holds))
        }
        Frame::Holds { condition, fails } => {
            frames.push(Frame::Fails {
                condition,
                holds: note,
            })?;
            Ok(Task::Look(fails))
        }
        Frame::Fails { condition, holds } => {
            Ok(Task::Give(conditional_found(condition, holds, note)))
        }
        Frame::Cast(width) => Ok(Task::Give(cast_found(width, note))),
    }
}
