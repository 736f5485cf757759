// How a type is made: of none, of a class, of names, or of types that have numbers already.
ghost use Rattle.std.specs.Prelude.{◌≡◌, ◌<◌, ◌≤◌, ◌⊎◌, ◌++◌, ◌∷◌, [], length, Some, slice_get, IfOk, OnErr};
ghost use Rattle.kr_classes_names.specs.ListedTypes.{AreApart, IsAbsent};

use indexmap::IndexSet;
use kr_base::NoMemory;
use kr_classes_table::{ClassId, NameId, TypeId};
use kr_value::Width;
use std::alloc::Global;
use std::marker::Model;

/// A type by its parts. `Number` has the width of its numbers; `Class` has the number of a class; `Array`, `Set` and `List` that of the type of the elements or
/// members; `Unknown` those of the outer name and the name that no class has; `Applied` those of its head and its argument.
#[derive(Clone, Copy, PartialEq, Eq, Hash)]
pub enum TypeForm {
    Number(Width),
    Boolean,
    Null,
    Void,
    Inferred,
    Class(ClassId),
    Array(TypeId),
    Set(TypeId),
    List(TypeId),
    Unknown(NameId, NameId),
    Applied(TypeId, TypeId),
}

/// Forms by their numbers. Contracts see the list of them.
#[derive(Drop)]
pub(crate) struct Forms {
    set: IndexSet<TypeForm>,
}

impl Model for Forms {
    ghost use Rattle.std.specs.Prelude.{List};
    ghost use Rattle.kr_classes_names.specs.ListedTypes.{AreApart};
    ghost use Rattle.kr_classes_names.specs.declared.form.TypeForm.{TypeForm};

    ghost Value = { List TypeForm };

    ghost view = { λ f. f.set.keys };

    ghost invariant = { λ f. AreApart f.set.keys };
}

impl Forms {
    pub(crate) fn new(alloc: Global) -> Self
        ensures { result ≡ [] }
    {
        Forms {
            set: IndexSet::new(alloc),
        }
    }

    pub(crate) fn len(&self) -> usize
        ensures { result ≡ length self.now }
    {
        self.set.len()
    }

    pub(crate) fn at_limit(&self) -> NoMemory
        requires { 4294967295 ≤ length self.now }
    {
        NoMemory::at_limit(self.set.as_slice())
    }

    /// The number of a form, which is added where it isn't there yet.
    pub(crate) fn number(&mut self, form: TypeForm) -> Result<usize, NoMemory>
        ensures at { IfOk result (λ n. slice_get self.new n ≡ Some form) }
        ensures added { IfOk result (λ n. IsAbsent form self.old → self.new ≡ self.old ++ form ∷ []) }
        ensures new { IfOk result (λ n. (self.new ≡ self.old) ⊎ (self.new ≡ self.old ++ form ∷ [])) }
        ensures apart { AreApart self.new }
        ensures unchanged { OnErr result (self.new ≡ self.old) }
    {
        let (number, _) = self.set.insert_full(form)?;
        Ok(number)
    }

    /// The form of a number.
    pub(crate) fn form(&self, number: usize) -> TypeForm
        requires { number < length self.now }
        ensures { slice_get self.now number ≡ Some result }
    {
        match self.set.get_index(number) {
            Some(form) => *form,
            None => TypeForm::Void,
        }
    }
}
