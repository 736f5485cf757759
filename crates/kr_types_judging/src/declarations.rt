// Rules on results and declared types: T4, T29, T30, T35 to T38.
ghost use Rattle.std.specs.Prelude.{◌≡◌, ◌<◌, ◌||◌, ◌&&◌, not, List, IfSome, option_map};
ghost use Rattle.kr_types_meaning.specs.Rules as rules;
ghost use Rattle.kr_types_judging.specs.Vocabulary.{AreMembers, Arena, AreNodeTypes, Binding, count, file_at, is_known, is_void, IsTypeNumber, part_of, scope_in, Setting, table_in, type_at, type_there};
ghost use Rattle.kr_types_judging.specs.Shown.{IsVerdictWithin, constant_says, initial_goes_into, returned, verdict_shown};

use crate::known::Judgement;
use crate::members::value_of;
use crate::relations::{is_boolean, is_number, is_void, takes};
use crate::rules::TypingRule;
use crate::statements::is_ensuring;
use kr_ast::Tree;
use kr_classes_members::Members;
use kr_classes_names::{NodeTypes, Types};
use kr_classes_table::TypeId;
use kr_types_scopes::Within;

/// The type that a node of a scope means; that of what has no value where there is none.
pub fn type_of_node(
    trees: &[Tree],
    types: &Types,
    node_types: &NodeTypes,
    file: u32,
    node: Option<u32>,
) -> TypeId
    requires { AreNodeTypes trees.now types.now node_types.now }
    ensures { (g : Setting) → g.table ≡ table_in trees.now → g.tree ≡ file_at trees.now file → IsTypeNumber types.now result (type_there g node) }
{
    match node {
        None => types.void(),
        Some(node) => node_types.number(file, node),
    }
}

/// Whether an initial value, if there is one, fits the declared type.
fn initial_fits(types: &Types, members: &Members, declared: TypeId, initial: Option<TypeId>) -> bool
    requires declared { declared < count types.now }
    requires initial { IfSome initial (λ t. t < count types.now) }
    ensures { (files : List Arena) → AreMembers files members.now → result ≡ initial_goes_into (table_in files) (type_at types.now declared) (option_map (type_at types.now) initial) }
{
    match initial {
        None => true,
        Some(from) => takes(types, members, declared, from),
    }
}

/// T4: no other local or parameter in scope has the name; T29: the initial value is assignable.
pub fn local_rule(
    types: &Types,
    members: &Members,
    declared: TypeId,
    is_new: bool,
    initial: Option<TypeId>,
) -> Judgement
    requires declared { declared < count types.now }
    requires initial { IfSome initial (λ t. t < count types.now) }
    ensures within { IsVerdictWithin types.now result }
    ensures says { (files : List Arena) → AreMembers files members.now → verdict_shown types.now result ≡ rules.ask is_new 4 (rules.ask (initial_goes_into (table_in files) (type_at types.now declared) (option_map (type_at types.now) initial)) 29 rules.fine) }
{
    Judgement::ask(
        is_new,
        TypingRule::RepeatedLocal,
        Judgement::fine_if(
            initial_fits(types, members, declared, initial),
            TypingRule::LocalValue,
        ),
    )
}

/// T35: a field's initial value is assignable.
pub fn field_initial_rule(
    types: &Types,
    members: &Members,
    declared: TypeId,
    initial: Option<TypeId>,
) -> Judgement
    requires declared { declared < count types.now }
    requires initial { IfSome initial (λ t. t < count types.now) }
    ensures within { IsVerdictWithin types.now result }
    ensures says { (files : List Arena) → AreMembers files members.now → verdict_shown types.now result ≡ rules.ask (initial_goes_into (table_in files) (type_at types.now declared) (option_map (type_at types.now) initial)) 35 rules.fine }
{
    Judgement::fine_if(
        initial_fits(types, members, declared, initial),
        TypingRule::FieldValue,
    )
}

/// Whether it is a type of numbers or `boolean`.
fn is_simple(types: &Types, number: TypeId) -> bool
    requires { number < count types.now }
    ensures { result ≡ rules.is_simple (type_at types.now number) }
{
    is_number(types, number) || is_boolean(types, number)
}

/// T35: its initial value is assignable; T36: a constant has a value; T37: it is `static final int`, `long` or `boolean`. Nothing
/// where rule T1 is broken of its type.
pub fn constant_initial_rule(
    types: &Types,
    members: &Members,
    declared: TypeId,
    is_final: bool,
    has_value: bool,
    initial: Option<TypeId>,
) -> Judgement
    requires declared { declared < count types.now }
    requires initial { IfSome initial (λ t. t < count types.now) }
    ensures within { IsVerdictWithin types.now result }
    ensures says { (files : List Arena) → AreMembers files members.now → verdict_shown types.now result ≡ constant_says (table_in files) (type_at types.now declared) is_final has_value (option_map (type_at types.now) initial) }
{
    if !types.is_known(declared) {
        return Judgement::fine();
    }
    let kind = Judgement::fine_if(
        is_final && is_simple(types, declared),
        TypingRule::StaticField,
    );
    let valued = Judgement::ask(has_value, TypingRule::ConstantValue, kind);
    Judgement::ask(
        initial_fits(types, members, declared, initial),
        TypingRule::FieldValue,
        valued,
    )
}

/// Whether a method may return without a value: it has none, or a result type of which rule T1 is broken.
fn returns_nothing(types: &Types, result_type: TypeId) -> bool
    requires { result_type < count types.now }
    ensures { result ≡ (is_void (type_at types.now result_type) || not (is_known (type_at types.now result_type))) }
{
    is_void(types, result_type) || !types.is_known(result_type)
}

/// T30: a value exactly in a method with a result, and it is assignable.
pub fn return_rule(
    types: &Types,
    members: &Members,
    result_type: TypeId,
    value: Option<TypeId>,
) -> Judgement
    requires result_type { result_type < count types.now }
    requires value { IfSome value (λ t. t < count types.now) }
    ensures within { IsVerdictWithin types.now result }
    ensures says { (files : List Arena) → AreMembers files members.now → verdict_shown types.now result ≡ rules.ask (returned (table_in files) (type_at types.now result_type) (option_map (type_at types.now) value)) 30 rules.fine }
{
    match value {
        None => Judgement::fine_if(returns_nothing(types, result_type), TypingRule::Return),
        Some(from) => Judgement::fine_if(
            takes(types, members, result_type, from),
            TypingRule::Return,
        ),
    }
}

/// Whether a result may be spoken of: in `ensures` of a method with a result, and not in `\old`.
fn has_result(types: &Types, here: Within, result_type: TypeId) -> bool
    requires { result_type < count types.now }
    ensures { result ≡ (rules.is_ensuring (part_of here.part) && not (is_void (type_at types.now result_type)) && not here.is_in_old) }
{
    is_ensuring(here.part) && !is_void(types, result_type) && !here.is_in_old
}

/// T38: `\result` only in `ensures` of a method with a result, and not in `\old`.
pub fn result_value_rule(types: &Types, here: Within, result_type: TypeId) -> Judgement
    requires { result_type < count types.now }
    ensures within { IsVerdictWithin types.now result }
    ensures says { (g : Setting) (bs : List Binding) → type_at types.now result_type ≡ type_there g here.result → verdict_shown types.now result ≡ rules.result_value_rule (scope_in g bs here) }
{
    Judgement::ask(
        has_result(types, here, result_type),
        TypingRule::ContractValue,
        value_of(types, result_type),
    )
}
