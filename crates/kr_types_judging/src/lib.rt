//! The typing rules as code: the verdict of a rule on a node, from the facts known of its parts and its scope.
#![tactic(auto)]

mod arguments;
mod calls;
mod class_types;
mod collections;
mod declarations;
mod known;
mod members;
mod notes;
mod objects;
mod operators;
mod relations;
mod rules;
mod statements;
mod throws;
mod writes;

pub use arguments::arguments_fit;
pub use calls::{call_rule, static_rule};
pub use class_types::ClassTypes;
pub use declarations::{
    constant_initial_rule, field_initial_rule, local_rule, result_value_rule, return_rule,
    type_of_node,
};
pub use known::{Judgement, Known, Typed};
pub use members::{
    access_rule, constant_rule, element_rule, field_name_rule, field_type, value_of, variable_of,
};
pub use notes::{Fault, Note, conclude, earlier, plain};
pub use objects::{object_call_rule, super_rule};
pub use operators::{
    cast_rule, choice_rule, diamond_rule, instance_rule, long_number_rule, number_rule,
    operator_rule, type_rule, unary_rule,
};
pub use relations::{is_assignable, is_int};
pub use rules::TypingRule;
pub use statements::{condition_rule, contract_rule, jump_rule, old_rule};
pub use throws::{caught_rule, throw_rule};
pub use writes::{assignment_rule, compound_rule, is_code, step_rule};
