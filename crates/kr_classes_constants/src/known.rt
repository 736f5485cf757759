// The values of constants by the places of their names, found in a time that hardly grows with their number.
ghost use Rattle.std.specs.Prelude.{◌≡◌, ◌++◌, [], List, IfOk, Some, option_map};
ghost use Rattle.kr_base.specs.declared.place.Place.{Place};
ghost use Rattle.kr_ast.specs.Arena.{Arena};
ghost use Rattle.kr_classes_table.specs.Constants.{Known, constant_in as constant_of_value, known_as, known_value, value_at};
ghost use Rattle.kr_classes_members.specs.Shown.{field_shown};
ghost use Rattle.kr_classes_constants.specs.Outcomes.{note_shown, with_outcome};
ghost use Rattle.kr_classes_constants.specs.Kept.{AreValues, found};

use crate::note::Note;
use indexmap::IndexMap;
use kr_base::{NoMemory, Place};
use kr_classes_members::Field;
use kr_value::Value;
use std::alloc::Global;
use std::marker::Model;

/// The values of constants: of each place the first one's.
#[derive(Drop)]
pub struct Values {
    by_place: IndexMap<(u32, u32, u32), Value>,
}

impl Model for Values {
    ghost use Rattle.std.specs.Prelude.{List, ℕ};
    ghost use Rattle.kr_value.specs.declared.value.Value.{Value as JavaValue};

    ghost Value = { List ((ℕ × ℕ × ℕ) × JavaValue) };

    ghost view = { λ v. v.by_place.entries };
}

/// The value, if it can be a constant's: not a reference.
fn constant_in(value: Value) -> Option<Value>
    ensures { result ≡ constant_of_value value }
{
    match value {
        Value::Ref(_) => None,
        _ => Some(value),
    }
}

impl Values {
    /// Allocates nothing.
    pub(crate) fn new(alloc: Global) -> Self
        ensures { AreValues [] result }
    {
        Values {
            by_place: IndexMap::new(alloc),
        }
    }

    fn find(&self, place: Place) -> Option<Value>
        ensures { result ≡ found place self.now }
    {
        let key = (place.file, place.line, place.col);
        self.by_place.get(&key).copied()
    }

    /// The value of the constant whose name is at a place.
    pub fn value_at(&self, place: Place) -> Option<Value>
        ensures { (known : List Known) → AreValues known self.now → result ≡ value_at known place }
    {
        self.find(place)
    }

    /// The value of a constant, if there is one.
    pub fn value_of(&self, field: Option<Field>) -> Option<Value>
        ensures { (files : List Arena) (known : List Known) → AreValues known self.now → result ≡ known_value known (option_map (field_shown files) field) }
    {
        constant_in(self.value_at(field?.place)?)
    }

    /// Notes the outcome of the initial value of the constant at a place.
    pub(crate) fn note(&mut self, place: Place, note: Note) -> Result<(), NoMemory>
        ensures { IfOk result (λ none. (known : List Known) → AreValues known self.old → AreValues (with_outcome known place (note_shown note)) self.new) }
    {
        match note {
            Note::NotConstant | Note::NoValue => Ok(()),
            Note::Value(value) => self.add(place, value),
        }
    }

    /// Adds a value at the end.
    pub(crate) fn add(&mut self, place: Place, value: Value) -> Result<(), NoMemory>
        ensures { IfOk result (λ none. (known : List Known) → AreValues known self.old → AreValues (known ++ known_as place (Some value)) self.new) }
    {
        if self.find(place).is_some() {
            return Ok(());
        }
        self.by_place
            .insert((place.file, place.line, place.col), value)?;
        Ok(())
    }
}
