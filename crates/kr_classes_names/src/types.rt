// All types by their numbers.
ghost use Rattle.std.specs.Prelude.{◌≡◌, ◌<◌, ◌≤◌, ◌⊎◌, ◌∷◌, ◌++◌, [], Some, slice_get, slice_index_or, length, IfOk, OnErr};
ghost use Rattle.kr_classes_table.specs.Types.{int_type, long_type, BooleanType, NullType, VoidType, InferredType, UnknownType, is_same, is_known, is_element, is_collection, is_reference};
ghost use Rattle.kr_classes_table.specs.Table.{applied};
ghost use Rattle.kr_classes_table.specs.Numbers.{Bits32, Bits64};
ghost use Rattle.kr_classes_names.specs.declared.form.TypeForm.TheVariants.{Number, Boolean, Null, Void, Inferred, Unknown, Applied};
ghost use Rattle.kr_classes_names.specs.ListedTypes.{AreApart, IsGrown};
ghost use Rattle.kr_classes_names.specs.Types.{AreDistinct, Extends, IsMadeOf, IsTypeNumber, count, type_at, type_of_form};

use crate::form::{Forms, TypeForm};
use crate::spellings::Spellings;
use kr_base::NoMemory;
use kr_classes_table::{NameId, TypeId};
use kr_value::Width;
use std::alloc::Global;
use std::marker::Model;

/// Types by their numbers; equal types have one number. Of each it is kept whether rule T1 holds of it. Contracts see the
/// list of the types' forms, with the names that unknown ones are spelled with.
#[derive(Drop)]
pub struct Types {
    names: Spellings,
    forms: Forms,
    known: Vec<bool>,
}

impl Model for Types {
    ghost use Rattle.kr_classes_names.specs.Types.{TypeList, AreTypes};

    ghost Value = { TypeList };

    ghost view = { λ t. record { names = t.names; forms = t.forms } };

    ghost invariant = { λ t. AreTypes (record { names = t.names; forms = t.forms }) t.known.items };
}

/// The forms of the types that are always there, without `long`.
fn first_forms(alloc: Global) -> Result<Forms, NoMemory>
    ensures { IfOk result (λ forms. forms ≡ Number Bits32 ∷ Boolean ∷ Null ∷ Void ∷ Inferred ∷ []) }
{
    let mut forms = Forms::new(alloc);
    forms.number(TypeForm::Number(Width::Bits32))?;
    forms.number(TypeForm::Boolean)?;
    forms.number(TypeForm::Null)?;
    forms.number(TypeForm::Void)?;
    forms.number(TypeForm::Inferred)?;
    Ok(forms)
}

/// The forms of the types that are always there.
fn base_forms(alloc: Global) -> Result<Forms, NoMemory>
    ensures forms { IfOk result (λ forms. forms ≡ Number Bits32 ∷ Boolean ∷ Null ∷ Void ∷ Inferred ∷ Number Bits64 ∷ []) }
    ensures apart { IfOk result (λ forms. AreApart forms) }
{
    let mut forms = first_forms(alloc)?;
    forms.number(TypeForm::Number(Width::Bits64))?;
    Ok(forms)
}

/// Adds a form unless it is there, with the facts kept of it.
fn add_form(
    forms: &mut Forms,
    known: &mut Vec<bool>,
    form: TypeForm,
    is_known: bool,
) -> Result<usize, NoMemory>
    requires { length known.old.items ≡ length forms.old }
    ensures at { IfOk result (λ n. slice_get forms.new n ≡ Some form) }
    ensures apart { AreApart forms.old → AreApart forms.new }
    ensures added { ((forms.new ≡ forms.old) × (known.new.items ≡ known.old.items)) ⊎ ((forms.new ≡ forms.old ++ form ∷ []) × (known.new.items ≡ known.old.items ++ is_known ∷ [])) }
{
    known.push(is_known)?;
    let found = forms.number(form);
    known.truncate(forms.len());
    found
}

impl Types {
    /// The types that are always there.
    pub fn new(alloc: Global) -> Result<Types, NoMemory>
        ensures { IfOk result (λ types. count types ≡ 6) }
    {
        let forms = base_forms(alloc)?;
        let known = Vec::from_slice(alloc, &[true, true, true, true, true, true])?;
        Ok(Types {
            names: Spellings::new(alloc),
            forms,
            known,
        })
    }

    /// How many types there are.
    pub fn len(&self) -> usize
        ensures { result ≡ count self.now }
    {
        self.forms.len()
    }

    /// For more types than have numbers.
    pub fn at_limit(&self) -> NoMemory
        requires { 4294967295 ≤ count self.now }
    {
        self.forms.at_limit()
    }

    /// The form of a type.
    pub fn form(&self, number: TypeId) -> TypeForm
        requires { number < count self.now }
        ensures at { slice_get self.now.forms number ≡ Some result }
        ensures made { IsMadeOf self.now result }
        ensures shown { type_at self.now number ≡ type_of_form self.now result }
    {
        self.forms.form(number as usize)
    }

    /// A name by its number.
    fn name(&self, number: NameId) -> &[u8]
        requires { number < length self.now.names }
        ensures { result.now ≡ slice_index_or self.now.names number [] }
    {
        self.names.name(number)
    }

    /// `int`
    pub fn int(&self) -> TypeId
        ensures { IsTypeNumber self.now result int_type }
    {
        prove!(0 < self.forms.len());
        0
    }

    /// `boolean`
    pub fn boolean(&self) -> TypeId
        ensures { IsTypeNumber self.now result BooleanType }
    {
        prove!(1 < self.forms.len());
        1
    }

    /// The type of `null`.
    pub fn null(&self) -> TypeId
        ensures { IsTypeNumber self.now result NullType }
    {
        prove!(2 < self.forms.len());
        2
    }

    /// The type of a method without a result.
    pub fn void(&self) -> TypeId
        ensures number { result ≡ 3 }
        ensures is { IsTypeNumber self.now result VoidType }
    {
        prove!(3 < self.forms.len());
        3
    }

    /// The inferred type argument of `new HashSet<>()`.
    pub(crate) fn inferred(&self) -> TypeId
        ensures { IsTypeNumber self.now result InferredType }
    {
        prove!(4 < self.forms.len());
        4
    }

    /// `long`
    pub fn long(&self) -> TypeId
        ensures { IsTypeNumber self.now result long_type }
    {
        prove!(5 < self.forms.len());
        5
    }

    /// Whether two types are equal.
    pub fn is_same(&self, a: TypeId, b: TypeId) -> bool
        requires first { a < count self.now }
        requires second { b < count self.now }
        ensures { result ≡ is_same (type_at self.now a) (type_at self.now b) }
    {
        prove!((a as usize) < self.forms.len());
        a == b
    }

    /// Equal types have one number: what holds of all types, at no cost.
    pub fn distinct_law(&self)
        ensures { AreDistinct self.now }
    {
        prove!(0 < self.forms.len());
    }

    /// Whether typing rule T1 holds of a type.
    pub fn is_known(&self, number: TypeId) -> bool
        requires { number < count self.now }
        ensures { result ≡ is_known (type_at self.now number) }
    {
        self.known[number as usize]
    }

    /// Whether it is a class or array type.
    pub fn is_element(&self, number: TypeId) -> bool
        requires { number < count self.now }
        ensures { result ≡ is_element (type_at self.now number) }
    {
        match self.form(number) {
            TypeForm::Class(_) => true,
            TypeForm::Array(_) => true,
            _ => false,
        }
    }

    /// Whether it is a collection.
    pub fn is_collection(&self, number: TypeId) -> bool
        requires { number < count self.now }
        ensures { result ≡ is_collection (type_at self.now number) }
    {
        match self.form(number) {
            TypeForm::Set(_) => true,
            TypeForm::List(_) => true,
            _ => false,
        }
    }

    /// Whether it is a reference type.
    pub fn is_reference(&self, number: TypeId) -> bool
        requires { number < count self.now }
        ensures { result ≡ is_reference (type_at self.now number) }
    {
        match self.form(number) {
            TypeForm::Null => true,
            TypeForm::Class(_) => true,
            TypeForm::Array(_) => true,
            TypeForm::Set(_) => true,
            TypeForm::List(_) => true,
            _ => false,
        }
    }

    /// Whether typing rule T1 holds of the type of a form.
    fn is_known_form(&self, form: TypeForm) -> bool
        requires { IsMadeOf self.now form }
        ensures { result ≡ is_known (type_of_form self.now form) }
    {
        match form {
            TypeForm::Array(element) => self.is_known(element),
            TypeForm::Set(member) => self.is_known(member) && self.is_element(member),
            TypeForm::List(member) => self.is_known(member) && self.is_element(member),
            TypeForm::Unknown(..) => false,
            TypeForm::Applied(..) => false,
            _ => true,
        }
    }

    /// The number of the type of a form, which is added where it isn't there yet.
    pub fn number(&mut self, form: TypeForm) -> Result<TypeId, NoMemory>
        requires { IsMadeOf self.old form }
        ensures number { IfOk result (λ n. IsTypeNumber self.new n (type_of_form self.old form)) }
        ensures extends { Extends self.old self.new }
    {
        let is_known = self.is_known_form(form);
        let number = add_form(&mut self.forms, &mut self.known, form, is_known)?;
        if number >= 0xffff_ffff {
            return Err(self.at_limit());
        }
        Ok(number as u32)
    }

    /// The number of a name, which is added where it isn't there yet.
    fn spell(&mut self, alloc: Global, name: &[u8]) -> Result<NameId, NoMemory>
        ensures at { IfOk result (λ n. slice_get self.new.names n ≡ Some name.now) }
        ensures grown { IsGrown self.old.names self.new.names }
        ensures extends { Extends self.old self.new }
    {
        self.names.number(alloc, name)
    }

    /// The number of what a name means that no class has; the outer name may be empty.
    pub fn unknown(&mut self, alloc: Global, outer: &[u8], name: &[u8]) -> Result<TypeId, NoMemory>
        ensures number { IfOk result (λ n. IsTypeNumber self.new n (UnknownType outer.now name.now)) }
        ensures extends { Extends self.old self.new }
    {
        let first = self.spell(alloc, outer)?;
        let second = self.spell(alloc, name)?;
        self.number(TypeForm::Unknown(first, second))
    }

    /// The form of a name with an argument: only the two collections take one.
    fn applied_name(&self, outer: NameId, name: NameId, head: TypeId, argument: TypeId) -> TypeForm
        requires names { IsMadeOf self.now (Unknown outer name) }
        requires parts { IsMadeOf self.now (Applied head argument) }
        requires head_is { type_at self.now head ≡ type_of_form self.now (Unknown outer name) }
        ensures made { IsMadeOf self.now result }
        ensures shown { type_of_form self.now result ≡ applied (type_at self.now head) (type_at self.now argument) }
    {
        if !self.name(outer).is_empty() {
            return TypeForm::Applied(head, argument);
        }
        if self.name(name) == b"HashSet".as_slice() {
            return TypeForm::Set(argument);
        }
        if self.name(name) == b"LinkedList".as_slice() {
            return TypeForm::List(argument);
        }
        TypeForm::Applied(head, argument)
    }

    /// The form of a type with an argument.
    fn applied_form(&self, head: TypeId, argument: TypeId) -> TypeForm
        requires head { head < count self.now }
        requires argument { argument < count self.now }
        ensures made { IsMadeOf self.now result }
        ensures shown { type_of_form self.now result ≡ applied (type_at self.now head) (type_at self.now argument) }
    {
        match self.form(head) {
            TypeForm::Unknown(outer, name) => self.applied_name(outer, name, head, argument),
            _ => TypeForm::Applied(head, argument),
        }
    }

    /// The number of a type with an argument.
    pub fn applied(&mut self, head: TypeId, argument: TypeId) -> Result<TypeId, NoMemory>
        requires head { head < count self.old }
        requires argument { argument < count self.old }
        ensures number { IfOk result (λ n. IsTypeNumber self.new n (applied (type_at self.old head) (type_at self.old argument))) }
        ensures extends { Extends self.old self.new }
    {
        let form = self.applied_form(head, argument);
        self.number(form)
    }
}
