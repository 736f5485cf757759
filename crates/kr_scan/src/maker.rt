// What makes rows.
ghost use Rattle.std.specs.Prelude.{◌≡◌, IfOk, OnOk};
ghost use Rattle.kr_mean.specs.Entries.{row_of};
ghost use Rattle.kr_mean.specs.Runs.{key_of};
ghost use Rattle.kr_mean.specs.Space.{IsVector, space_of};
ghost use Rattle.kr_space_problem.specs.Posed.{posed};

use kr_base::{Cut, NoMemory};
use kr_build::{Walk, fill_structure};
use kr_contract::Tester;
use kr_judge_prepared::Prepared;
use kr_mean::Row;
use kr_step::Candidate;
use kr_vector::Vector;
use std::alloc::Global;
use std::marker::Model;

/// Makes the rows of a problem's valid candidates. The walk and the tester are kept from row to row. Contracts see the problem and
/// its code.
#[derive(Drop)]
pub struct RowMaker<'p> {
    alloc: Global,
    prepared: &'p Prepared,
    walk: Walk,
    tester: Tester<'p>,
}

impl<'p> Model for RowMaker<'p> {
    ghost use Rattle.std.specs.Prelude.{◌≡◌};
    ghost use Rattle.kr_judge_prepared.specs.Preparing.{Ready};

    ghost Value = { Ready };

    ghost view = { λ m. m.tester };

    ghost invariant = { λ m. m.tester ≡ m.prepared.now };
}

/// The cut of these numbers.
pub(crate) fn cut_of(alloc: Global, numbers: &[u32]) -> Result<Cut, NoMemory>
    ensures { IfOk result (λ cut. cut ≡ numbers.now) }
{
    Ok(Cut::new(numbers.to_vec(alloc)?))
}

/// Makes a row that of a candidate, whose key this is.
fn fill_row(
    prepared: &Prepared,
    walk: &mut Walk,
    tester: &mut Tester<'_>,
    key: &[u32],
    vector: &Vector,
    row: &mut Row,
) -> Result<(), NoMemory>
    requires tester { tester.old ≡ prepared.now }
    requires vector { IsVector (space_of (posed prepared.now.problem)) vector.now }
    requires key { key.now ≡ key_of (posed prepared.now.problem) vector.now }
    ensures row { OnOk result (row.new ≡ row_of (posed prepared.now.problem) vector.now) }
    ensures tester { tester.new ≡ tester.old }
{
    prepared.laws();
    let layout = prepared.layout();
    row.verdict = tester.verdict_on(vector)?;
    row.key.assign(key)?;
    fill_structure(layout, walk, vector, &mut row.structure)?;
    Ok(())
}

impl<'p> RowMaker<'p> {
    /// No row is made yet.
    pub fn new(alloc: Global, prepared: &'p Prepared) -> Result<RowMaker<'p>, NoMemory>
        ensures { IfOk result (λ maker. maker ≡ prepared.now) }
    {
        let tester = Tester::new(alloc, prepared)?;
        Ok(RowMaker {
            alloc,
            prepared,
            walk: Walk::new(alloc),
            tester,
        })
    }

    /// Makes a row that of a valid candidate with this key: with its verdict, where a method is tested.
    pub fn fill<C: Candidate>(
        &mut self,
        key: &[u32],
        candidate: &C,
        row: &mut Row,
    ) -> Result<(), NoMemory>
        requires vector { IsVector (space_of (posed self.old.problem)) (C.vector candidate.now) }
        requires key { key.now ≡ key_of (posed self.old.problem) (C.vector candidate.now) }
        ensures row { OnOk result (row.new ≡ row_of (posed self.old.problem) (C.vector candidate.now)) }
        ensures same { self.new ≡ self.old }
    {
        fill_row(
            self.prepared,
            &mut self.walk,
            &mut self.tester,
            key,
            candidate.current(),
            row,
        )
    }

    /// The row of a valid candidate with this key.
    pub fn row<C: Candidate>(&mut self, key: &[u32], candidate: &C) -> Result<Row, NoMemory>
        requires vector { IsVector (space_of (posed self.old.problem)) (C.vector candidate.now) }
        requires key { key.now ≡ key_of (posed self.old.problem) (C.vector candidate.now) }
        ensures row { IfOk result (λ row. row ≡ row_of (posed self.old.problem) (C.vector candidate.now)) }
        ensures same { self.new ≡ self.old }
    {
        let mut row = Row::blank(self.alloc);
        self.fill(key, candidate, &mut row)?;
        Ok(row)
    }
}
