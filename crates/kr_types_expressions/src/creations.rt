// Rules on creations and constructors: T26, T27, T34, T39.
ghost use Rattle.std.specs.Prelude.{◌≡◌, ◌<◌, List, Some, IfOk, length, map, All, slice_get};
ghost use Rattle.kr_types_meaning.specs.Rules as rules;
ghost use Rattle.kr_types_expressions.specs.Vocabulary.{AreClassTypes, Arena, Binding, class_there, constructor_parameters, count, Extends, IsConstructor, IsVerdictWithin, Scope, scope_in, Setting, super_parameters, table_in, type_at, verdict_shown};
ghost use Rattle.kr_types_expressions.specs.Constructors.{AreSingle, IsSingle};

use kr_base::NoMemory;
use kr_classes_members::Constructor;
use kr_classes_names::{TypeForm, Types};
use kr_classes_table::{ClassId, TypeId};
use kr_types_judging::{ClassTypes, Judgement, TypingRule, arguments_fit, is_code, is_int};
use kr_types_scopes::Within;

/// T27: the length is an int; T39.
pub(crate) fn array_creation_rule(
    types: &mut Types,
    here: Within,
    element: TypeId,
    length: TypeId,
) -> Result<Judgement, NoMemory>
    requires element { element < count types.old }
    requires length { length < count types.old }
    ensures extends { Extends types.old types.new }
    ensures within { IfOk result (λ v. IsVerdictWithin types.new v) }
    ensures says { IfOk result (λ v. (g : Setting) (bs : List Binding) → verdict_shown types.new v ≡ rules.array_creation_rule (scope_in g bs here) (type_at types.old element) (type_at types.old length)) }
{
    let is_length = is_int(types, length);
    let array = types.number(TypeForm::Array(element))?;
    Ok(Judgement::ask(
        is_length,
        TypingRule::ArrayLength,
        Judgement::value_if(is_code(here.part), TypingRule::ContractWrite, array),
    ))
}

/// The first constructor.
fn first_constructor(constructors: &[Constructor]) -> Constructor
    requires { 0 < length constructors.now }
    ensures got { slice_get constructors.now 0 ≡ Some result }
    ensures stands { (files : List Arena) → All (IsConstructor files) constructors.now → IsConstructor files result }
{
    constructors[0]
}

/// Whether arguments fit a class's constructor: there are none where it has none.
fn constructor_fits(classes: &ClassTypes<'_>, class: ClassId, arguments: &[TypeId]) -> bool
    requires classes { AreClassTypes classes.now }
    requires arguments { All (λ t. t < count classes.now.types.now) arguments.now }
    ensures { (s : Scope) → s.table ≡ table_in classes.now.trees.now → IsSingle s.table class → result ≡ rules.arguments_fit s (map (type_at classes.now.types.now) arguments.now) (constructor_parameters s.table class) }
{
    let constructors = classes.members.constructors(class);
    if constructors.is_empty() {
        return arguments.is_empty();
    }
    let constructor = first_constructor(constructors);
    arguments_fit(classes, arguments, constructor.file, constructor.parameters)
}

/// Whether arguments fit the creation of an object of a type.
fn creation_fits(classes: &ClassTypes<'_>, created: TypeId, arguments: &[TypeId]) -> bool
    requires classes { AreClassTypes classes.now }
    requires created { created < count classes.now.types.now }
    requires arguments { All (λ t. t < count classes.now.types.now) arguments.now }
    ensures { (s : Scope) → s.table ≡ table_in classes.now.trees.now → AreSingle s.table → result ≡ rules.creation_fits s (type_at classes.now.types.now created) (map (type_at classes.now.types.now) arguments.now) }
{
    match classes.types.form(created) {
        TypeForm::Class(class) => constructor_fits(classes, class, arguments),
        TypeForm::Set(_) => arguments.is_empty(),
        TypeForm::List(_) => arguments.is_empty(),
        _ => false,
    }
}

/// T26: the arguments fit the constructor, and a collection takes none; `<>` only on collections; T39.
pub(crate) fn creation_rule(
    classes: &ClassTypes<'_>,
    here: Within,
    created: TypeId,
    arguments: &[TypeId],
) -> Judgement
    requires classes { AreClassTypes classes.now }
    requires created { created < count classes.now.types.now }
    requires arguments { All (λ t. t < count classes.now.types.now) arguments.now }
    ensures within { IsVerdictWithin classes.now.types.now result }
    ensures says { (g : Setting) (bs : List Binding) → g.table ≡ table_in classes.now.trees.now → AreSingle g.table → verdict_shown classes.now.types.now result ≡ rules.creation_rule (scope_in g bs here) (type_at classes.now.types.now created) (map (type_at classes.now.types.now) arguments.now) }
{
    let fits = creation_fits(classes, created, arguments);
    Judgement::ask(
        fits,
        TypingRule::Creation,
        Judgement::value_if(is_code(here.part), TypingRule::ContractWrite, created),
    )
}

/// Whether arguments fit the constructor of a class's superclass: there are none where it has none.
fn fits_above(classes: &ClassTypes<'_>, class: ClassId, arguments: &[TypeId]) -> bool
    requires classes { AreClassTypes classes.now }
    requires arguments { All (λ t. t < count classes.now.types.now) arguments.now }
    ensures { (s : Scope) → s.table ≡ table_in classes.now.trees.now → AreSingle s.table → s.class ≡ class → result ≡ rules.arguments_fit s (map (type_at classes.now.types.now) arguments.now) (super_parameters s) }
{
    match classes.members.superclass(class) {
        None => arguments.is_empty(),
        Some(above) => constructor_fits(classes, above, arguments),
    }
}

/// T34: where `super(..)` is absent the superclass's constructor takes no arguments.
pub fn implied_rule(classes: &ClassTypes<'_>, class: ClassId) -> Judgement
    requires classes { AreClassTypes classes.now }
    ensures within { IsVerdictWithin classes.now.types.now result }
    ensures says { (s : Scope) → s.table ≡ table_in classes.now.trees.now → AreSingle s.table → s.class ≡ class → verdict_shown classes.now.types.now result ≡ rules.implied_rule s }
{
    let fits = fits_above(classes, class, &[]);
    Judgement::fine_if(fits, TypingRule::SuperConstructor)
}

/// T34: `super(..)` fits the superclass's constructor.
pub(crate) fn super_constructor_rule(
    classes: &ClassTypes<'_>,
    here: Within,
    class: ClassId,
    arguments: &[TypeId],
) -> Judgement
    requires classes { AreClassTypes classes.now }
    requires arguments { All (λ t. t < count classes.now.types.now) arguments.now }
    ensures within { IsVerdictWithin classes.now.types.now result }
    ensures says { (g : Setting) (bs : List Binding) → g.table ≡ table_in classes.now.trees.now → AreSingle g.table → class_there g here.class ≡ class → verdict_shown classes.now.types.now result ≡ rules.super_constructor_rule (scope_in g bs here) (map (type_at classes.now.types.now) arguments.now) }
{
    let fits = fits_above(classes, class, arguments);
    Judgement::fine_if(fits, TypingRule::SuperConstructor)
}
