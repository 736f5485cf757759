// Values that take the place of others.
ghost use Rattle.std.specs.Prelude.{◌≡◌};
ghost use Rattle.kr_parse_reduction.specs.Plans.{one, over, member, modified, owner, move};

use crate::value::{Kept, ValueStack, no_modifiers};
use kr_parse_grammar::{Form, Make, Modifiers};

/// A value that replaces `count` others, or one of these.
#[derive(Clone, Copy)]
pub struct Move {
    pub taken: usize,
    pub top: Kept,
    pub below: Option<Kept>,
}

const fn one(taken: usize, top: Kept) -> Move
    ensures { result ≡ one taken top }
{
    Move {
        taken,
        top,
        below: None,
    }
}

/// Replaces two values by one, below the value that was on top.
fn over(top: Kept, values: &ValueStack) -> Move
    ensures { result ≡ over top values.now }
{
    Move {
        taken: 2,
        top,
        below: values.peek(0),
    }
}

/// The member ahead, with these modifiers.
fn member(taken: usize, values: &ValueStack, modifiers: Modifiers) -> Move
    ensures { result ≡ member taken values.now modifiers }
{
    one(
        taken,
        Kept::Member {
            is_nested: values.is_nested(0),
            modifiers,
        },
    )
}

/// The member ahead with one modifier more, or with none.
#[inline(always)]
fn modified(make: Make, values: &ValueStack) -> Move
    ensures { result ≡ modified make values.now }
{
    let before = values.modifiers(0);
    match make {
        Make::SetStatic => member(
            1,
            values,
            Modifiers {
                is_static: true,
                ..before
            },
        ),
        Make::SetFinal => member(
            1,
            values,
            Modifiers {
                is_final: true,
                ..before
            },
        ),
        Make::SetOverrides => member(
            1,
            values,
            Modifiers {
                overrides: true,
                ..before
            },
        ),
        _ => member(0, values, no_modifiers()),
    }
}

/// The name of a class, above the class that it extends.
fn owner(is_nested: bool, values: &ValueStack) -> Move
    ensures { result ≡ owner is_nested values.now }
{
    over(
        Kept::Owner {
            is_nested,
            place: values.place(1),
            name: values.name(1),
        },
        values,
    )
}

/// Values again.
#[inline(always)]
pub fn move_of(make: Make, values: &ValueStack) -> Move
    ensures { result ≡ move make values.now }
{
    match make {
        Make::Pair => one(
            2,
            Kept::Pair {
                place: values.place(1),
                outer: values.name(1),
                name: values.name(0),
            },
        ),
        Make::Enclosed => one(
            2,
            Kept::Part {
                place: values.place(1),
                form: Form::Other,
                node: values.node(0),
            },
        ),
        Make::Owner => owner(false, values),
        Make::NestedOwner => owner(true, values),
        Make::Nested => one(2, values.value(0)),
        _ => modified(make, values),
    }
}
