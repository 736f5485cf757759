// Which run it is that workers share.
ghost use Rattle.std.specs.Prelude.{List, ℕ, [], Option, None};
ghost use Rattle.kr_base.specs.declared.span.Bound.TheVariants.{End};
ghost use Rattle.kr_base.specs.declared.span.Span.{Span};
ghost use Rattle.kr_base.specs.declared.entry.Entry.{Entry};
ghost use Rattle.kr_core.specs.declared.event.Event.{Event};

use std::marker::Brand;
use std::sync::ledger::Ledger;

/// How many workers there are, whose calls a ledger counts.
pub trait Crew: Ledger {
    ghost workers: { ℕ };
}

impl Crew for Brand {
    ghost workers = { 0 };
}

/// Of which entries, span and cuts, with which log at its start; how many rows may be kept, and how many are wanted, if there
/// are bounds.
pub trait Run<R>: Crew {
    ghost all: { List (Entry R) };

    ghost span: { Span };

    ghost cuts: { List (List ℕ) };

    ghost opening: { List Event };

    ghost window: { Option ℕ };

    ghost limit: { Option ℕ };
}

impl<R> Run<R> for Brand {
    ghost all = { [] };

    ghost span = { record { after = []; upto = End } };

    ghost cuts = { [] };

    ghost opening = { [] };

    ghost window = { None };

    ghost limit = { None };
}
