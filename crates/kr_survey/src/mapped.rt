// The survey.
ghost use Rattle.std.specs.Prelude.{◌≡◌, ◌<◌, ◌++◌, [], ◌∷◌, IfOk, OnOk, map};
ghost use Rattle.kr_base.specs.Entries.{Ascends};
ghost use Rattle.kr_survey.specs.Scans.{IsScan};
ghost use Rattle.kr_survey.specs.Mapping.{IsMade, entries_by};

use crate::making::Making;
use crate::{Part, RowList, Survey};
use kr_base::{Bound, Cut, NoMemory, Steps};
use std::alloc::Global;
use std::sync::ledger::Ledger;

/// A survey, and what its rows are made into.
#[derive(Drop)]
pub struct Mapped<S, M> {
    alloc: Global,
    pub survey: S,
    pub making: M,
}

/// What one scan leaves for the next: the survey's own scratch, and room for a row.
#[derive(Drop)]
pub struct Kept<T, M> {
    pub scratch: T,
    pub room: M,
}

impl<S, M> Mapped<S, M> {
    /// The survey with its rows made so. It takes no memory before it is scanned.
    pub fn new(alloc: Global, survey: S, making: M) -> Mapped<S, M>
        ensures survey { result.survey ≡ survey }
        ensures making { result.making ≡ making }
    {
        Mapped {
            alloc,
            survey,
            making,
        }
    }
}

// Adds what a row is made into.
fn add_made<R: Drop, M: Making<R, Row: Drop>>(
    making: &M,
    room: &mut M::Room,
    row: R,
    rows: &mut Vec<M::Row>,
) -> Result<(), NoMemory>
    ensures { OnOk result (rows.new.items ≡ rows.old.items ++ M.made_of making.now row ∷ []) }
{
    let mut row = row;
    let mut made = making.blank();
    match making.make(room, &mut row, &mut made) {
        Ok(()) => {
            rows.push(made)?;
            Ok(())
        }
        Err(why) => Err(why),
    }
}

// What rows are made into, in their order.
fn make_rows<R: Drop, M: Making<R, Row: Drop>>(
    alloc: Global,
    making: &M,
    room: &mut M::Room,
    rows: Vec<R>,
) -> Result<Vec<M::Row>, NoMemory>
    ensures { IfOk result (λ made. made.items ≡ map (M.made_of making.now) rows.items) }
{
    let mut all = Vec::new(alloc);
    for row in rows {
        match add_made(making, room, row, &mut all) {
            Ok(()) => {}
            Err(why) => return Err(why),
        }
    }
    Ok(all)
}

// A part with its rows made so.
fn make_part<R: Drop, M: Making<R, Row: Drop>>(
    alloc: Global,
    making: &M,
    room: &mut M::Room,
    part: Part<R>,
) -> Result<Part<M::Row>, NoMemory>
    ensures { IfOk result (IsMade (M.made_of making.now) part) }
{
    match make_rows(alloc, making, room, part.rows.into_vec()) {
        Ok(rows) => Ok(Part {
            reach: part.reach,
            rows: RowList::new(rows),
            tried: part.tried,
            spent: part.spent,
        }),
        Err(why) => Err(why),
    }
}

impl<S: Survey<Row: Drop>, M: Making<S::Row, Row: Drop, Room: Send>> Survey for Mapped<S, M> {
    ghost use Rattle.kr_survey.specs.Mapping.{entries_by};

    type Row = M::Row;

    type Scratch = Kept<S::Scratch, M::Room>;

    ghost all = { λ s. entries_by (M.made_of s.making) (S.all s.survey) };

    ghost made = { λ s kept. S.made s.survey kept.scratch };

    fn scratch(&self) -> Result<Kept<S::Scratch, M::Room>, NoMemory> {
        match self.survey.scratch() {
            Ok(scratch) => Ok(Kept {
                scratch,
                room: self.making.room(),
            }),
            Err(why) => Err(why),
        }
    }

    fn scan_with<L: Ledger>(
        &self,
        scratch: &mut Kept<S::Scratch, M::Room>,
        after: &Cut,
        upto: &Bound,
        most: u32,
        runs: &mut Steps<L>,
    ) -> Result<Part<M::Row>, NoMemory> {
        match self
            .survey
            .scan_with(&mut scratch.scratch, after, upto, most, runs)
        {
            Ok(part) => make_part(self.alloc, &self.making, &mut scratch.room, part),
            Err(why) => Err(why),
        }
    }

    fn scan<L: Ledger>(
        &self,
        after: &Cut,
        upto: &Bound,
        most: u32,
        runs: &mut Steps<L>,
    ) -> Result<Part<M::Row>, NoMemory> {
        let mut scratch = self.scratch()?;
        self.scan_with(&mut scratch, after, upto, most, runs)
    }

    fn ascends(&self) {
        self.survey.ascends();
    }
}
