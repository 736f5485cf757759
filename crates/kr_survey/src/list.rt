// Entries in memory, as a survey.
ghost use Rattle.std.specs.Prelude.{◌≡◌, ◌↔◌, ◌<◌, ◌≤◌, ◌+◌, ◌++◌, List, ℕ, IsTrue, IfOk, OnOk, length};
ghost use Rattle.kr_base.specs.Entries.{Ascends, is_spent};
ghost use Rattle.kr_survey.specs.Scans.{IsScan, row_of};
ghost use Rattle.kr_survey.specs.Ascents.{ascends_from};

use crate::{Part, RowList, Survey};
use kr_base::{Bound, Cut, Entry, Mark, NoMemory, Steps};
use std::alloc::Global;
use std::marker::Model;
use std::sync::ledger::Ledger;

/// A list of entries, whose rows are cuts as their keys. It runs no predicate. Contracts see the list.
#[derive(Drop)]
pub struct ListSurvey {
    alloc: Global,
    entries: Vec<Entry<Cut>>,
}

impl Model for ListSurvey {
    ghost use Rattle.std.specs.Prelude.{List, ℕ};
    ghost use Rattle.kr_base.specs.declared.entry.Entry.{Entry};
    ghost use Rattle.kr_base.specs.Entries.{Ascends};

    ghost Value = { List (Entry (List ℕ)) };

    ghost view = { λ s. s.entries.items };

    ghost invariant = { λ s. Ascends s.entries.items };
}

// Whether each key is before the next one, from a key on.
fn ascends_from(first: &Cut, entries: &[Entry<Cut>]) -> bool
    ensures { result ≡ ascends_from first.now entries.now }
{
    let mut last = first;
    for entry in entries {
        if !last.is_below(&entry.key) {
            return false;
        }
        last = &entry.key;
    }
    true
}

impl ListSurvey {
    /// Whether the keys ascend.
    pub fn is_ascending(entries: &[Entry<Cut>]) -> bool
        ensures { IsTrue result ↔ Ascends entries.now }
    {
        match entries.split_first() {
            None => true,
            Some((first, rest)) => ascends_from(&first.key, rest),
        }
    }

    /// The survey of these entries. It takes no memory before it is scanned.
    pub fn new(alloc: Global, entries: Vec<Entry<Cut>>) -> Self
        requires { Ascends entries.items }
        ensures { result ≡ entries.items }
    {
        ListSurvey { alloc, entries }
    }
}

fn is_spent(mark: &Mark<Cut>) -> bool
    ensures { result ≡ is_spent mark.now }
{
    match mark {
        Mark::Spent => true,
        Mark::Valid(_) => false,
        Mark::Invalid => false,
    }
}

// Adds the row of an entry, if it has one.
fn add_row(rows: &mut Vec<Cut>, mark: &Mark<Cut>) -> Result<(), NoMemory>
    ensures { OnOk result (rows.new.items ≡ rows.old.items ++ row_of mark.now) }
{
    match mark {
        Mark::Valid(row) => {
            rows.push(row.try_clone()?)?;
            Ok(())
        }
        Mark::Invalid => Ok(()),
        Mark::Spent => Ok(()),
    }
}

impl Survey for ListSurvey {
    type Row = Cut;

    type Scratch = ();

    ghost all = { λ s. s };

    ghost made = { λ s scratch. Unit {0} };

    fn scratch(&self) -> Result<(), NoMemory> {
        Ok(())
    }

    fn scan_with<L: Ledger>(
        &self,
        scratch: &mut (),
        after: &Cut,
        upto: &Bound,
        most: u32,
        runs: &mut Steps<L>,
    ) -> Result<Part<Cut>, NoMemory>
        requires some { 0 < most }
        requires made { Unit {0} }
        ensures part { IfOk result (IsScan self.now after.now upto.now most) }
        ensures made { Unit {0} }
        ensures runs { IfOk result (λ part. runs.new ≤ runs.old + part.tried + length after.now + 3) }
        ensures no_run { runs.new ≡ runs.old }
    {
        let _ = scratch;
        self.scan(after, upto, most, runs)
    }

    fn scan<L: Ledger>(
        &self,
        after: &Cut,
        upto: &Bound,
        most: u32,
        runs: &mut Steps<L>,
    ) -> Result<Part<Cut>, NoMemory>
        requires { 0 < most }
        ensures part { IfOk result (IsScan self.now after.now upto.now most) }
        ensures runs { IfOk result (λ part. runs.new ≤ runs.old + part.tried + length after.now + 3) }
        ensures no_run { runs.new ≡ runs.old }
    {
        let _ = runs;
        let mut rows = Vec::new(self.alloc);
        let mut tried: u32 = 0;
        for entry in self.entries.as_slice() {
            if entry.key.is_within(after, upto) {
                add_row(&mut rows, &entry.mark)?;
                tried += 1;
                let spent = is_spent(&entry.mark);
                if spent || tried == most {
                    return Ok(Part {
                        reach: Bound::At(entry.key.try_clone()?),
                        rows: RowList::new(rows),
                        tried: u64::from(tried),
                        spent,
                    });
                }
            }
        }
        Ok(Part {
            reach: upto.try_clone()?,
            rows: RowList::new(rows),
            tried: u64::from(tried),
            spent: false,
        })
    }

    fn ascends(&self) {
        let _ = &self.entries;
    }
}
