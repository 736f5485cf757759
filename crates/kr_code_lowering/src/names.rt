// The names of fields by number: `length`, of arrays, is the first.
ghost use Rattle.std.specs.Prelude.{◌≡◌, Some, IfOk, map, slice_get};
ghost use Rattle.kr_code_lowering.specs.Vocabulary.{AreApart, IsGrown, row_items};
ghost use Rattle.kr_code_lowering.specs.Names.{AreNames};

use kr_base::NoMemory;
use kr_classes_names::Spellings;
use kr_classes_table::NameId;
use std::alloc::Global;
use std::marker::Model;

/// Names by their numbers. Contracts see the list of them.
#[derive(Drop)]
pub struct Names {
    all: Spellings,
}

impl Model for Names {
    ghost use Rattle.std.specs.Prelude.{List, ℕ};

    ghost Value = { List (List ℕ) };

    ghost view = { λ names. names.all };
}

impl Names {
    /// The first name alone.
    pub(crate) fn new(alloc: Global) -> Result<Names, NoMemory>
        ensures { IfOk result (λ names. AreNames names) }
    {
        let mut all = Spellings::new(alloc);
        all.number(alloc, b"length".as_slice())?;
        Ok(Names { all })
    }

    /// The number of a name, which is added where it isn't there yet.
    pub(crate) fn number(&mut self, alloc: Global, name: &[u8]) -> Result<NameId, NoMemory>
        ensures at { IfOk result (λ n. slice_get self.new n ≡ Some name.now) }
        ensures grown { IsGrown self.old self.new }
        ensures stay { AreNames self.old → AreNames self.new }
    {
        self.all.number(alloc, name)
    }

    /// The names in order.
    pub fn as_slice(&self) -> &[Vec<u8>]
        ensures all { map row_items result.now ≡ self.now }
        ensures apart { AreApart self.now }
    {
        self.all.as_slice()
    }
}
