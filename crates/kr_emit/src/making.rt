// Rows made into builders.
ghost use Rattle.std.specs.Prelude.{◌≡◌, OnOk};
ghost use Rattle.kr_emit.specs.Vocabulary.{front_text, posed, rest_text};

use crate::texts::{builder_front, builder_rest};
use kr_base::{Cut, NoMemory};
use kr_judge_prepared::Prepared;
use kr_mean::Row;
use kr_report_streaming::Text;
use kr_survey::Making;
use kr_text::Line;
use std::alloc::Global;
use std::marker::Model;
use std::mem;

/// A row's key, and its builder before and after its number.
#[derive(Drop)]
pub struct Builder {
    pub key: Cut,
    pub front: Text,
    pub rest: Text,
}

/// Makes rows into builders. Contracts see the problem.
#[derive(Drop)]
pub struct ToBuilders<'p> {
    alloc: Global,
    prepared: &'p Prepared,
}

impl<'p> Model for ToBuilders<'p> {
    ghost use Rattle.kr_space_problem.specs.declared.problem.Problem.{Problem as ProblemOf};

    ghost Value = { ProblemOf };

    ghost view = { λ s. s.prepared.now.problem };
}

impl<'p> ToBuilders<'p> {
    pub(crate) fn new(alloc: Global, prepared: &'p Prepared) -> ToBuilders<'p>
        ensures { result ≡ prepared.now.problem }
    {
        ToBuilders { alloc, prepared }
    }

    /// Makes a text what comes before a builder's number.
    fn write_front(&self, row: &Row, line: &mut Line, text: &mut Text) -> Result<(), NoMemory>
        ensures { OnOk result (text.new ≡ front_text (posed self.now) row.now) }
    {
        line.clear();
        builder_front(line, self.prepared, row)?;
        text.assign(line.bytes())?;
        Ok(())
    }

    /// Makes a text what comes after it.
    fn write_rest(&self, row: &Row, line: &mut Line, text: &mut Text) -> Result<(), NoMemory>
        ensures { OnOk result (text.new ≡ rest_text (posed self.now) row.now) }
    {
        line.clear();
        builder_rest(self.alloc, line, self.prepared, row)?;
        text.assign(line.bytes())?;
        Ok(())
    }
}

impl<'p> Making<Row> for ToBuilders<'p> {
    ghost use Rattle.kr_space_problem.specs.Posed.{posed};
    ghost use Rattle.kr_emit.specs.Makings.{made_of};

    type Row = Builder;

    type Room = Line;

    ghost made_of = { λ s row. made_of (posed s) row };

    fn room(&self) -> Line {
        Line::new(self.alloc)
    }

    fn blank(&self) -> Builder {
        Builder {
            key: Cut::empty(self.alloc),
            front: Text::new(Vec::new(self.alloc)),
            rest: Text::new(Vec::new(self.alloc)),
        }
    }

    fn make(&self, room: &mut Line, row: &mut Row, made: &mut Builder) -> Result<(), NoMemory> {
        self.write_front(&*row, room, &mut made.front)?;
        match self.write_rest(&*row, room, &mut made.rest) {
            Ok(()) => {
                mem::swap(&mut made.key, &mut row.key);
                Ok(())
            }
            Err(why) => Err(why),
        }
    }
}
