// How something is made of the values on top.
ghost use Rattle.std.specs.Prelude.{◌≡◌};
ghost use Rattle.kr_parse_reduction.specs.Plans.{sorts, way};

use crate::value::Sort;
use kr_parse_grammar::Make;

/// The steps of a reduction.
#[derive(Clone, Copy)]
pub enum Way {
    /// a node above the values
    Node,
    /// the node of a word, or two nodes of a pair or a type
    Name,
    /// a node below a value that stays on top
    Under,
    /// the two values on top, swapped
    Swap,
    /// values again
    Values,
    Method,
    /// a method with contracts
    ContractedMethod,
    /// names that had `<` between them
    Compare,
}

pub fn way_of(make: Make) -> Way
    ensures { result ≡ way make }
{
    match make {
        Make::Variable | Make::CallOfName | Make::Generic | Make::Diamond => Way::Name,
        Make::ConsBelow | Make::EndMembers => Way::Under,
        Make::Swap => Way::Swap,
        Make::Pair
        | Make::Enclosed
        | Make::MemberAhead
        | Make::SetStatic
        | Make::SetFinal
        | Make::SetOverrides
        | Make::Owner
        | Make::NestedOwner
        | Make::Nested => Way::Values,
        Make::Method => Way::Method,
        Make::ContractedMethod => Way::ContractedMethod,
        Make::CompareBelow | Make::CompareAll => Way::Compare,
        _ => Way::Node,
    }
}

/// The values that something is made of, the top one first.
pub fn sorts_of(make: Make) -> &'static [Sort]
    ensures { result.now ≡ sorts make }
{
    match make {
        Make::TypeOfMark | Make::Empty | Make::Jump => &[Sort::Mark],
        Make::TypeOfName | Make::Diamond | Make::Variable => &[Sort::Name],
        Make::Array | Make::ExpressionStatement => &[Sort::Part],
        Make::Cons
        | Make::ArrayAccess
        | Make::Less
        | Make::Greater
        | Make::InstanceOf
        | Make::Local => &[Sort::Part, Sort::Part],
        Make::StepBefore
        | Make::Unary
        | Make::Old
        | Make::Requires
        | Make::Ensures
        | Make::Block
        | Make::Return
        | Make::Throw
        | Make::ConstructorCall
        | Make::Enclosed => &[Sort::Part, Sort::Mark],
        Make::Declarator | Make::Owner | Make::NestedOwner => &[Sort::Part, Sort::Word],
        Make::StepBehind => &[Sort::Mark, Sort::Part],
        Make::FieldAccess | Make::Parameter => &[Sort::Word, Sort::Part],
        Make::SuperCall => &[Sort::Part, Sort::Word, Sort::Mark],
        Make::ObjectCreation
        | Make::ArrayCreation
        | Make::Cast
        | Make::IfThen
        | Make::While
        | Make::Do
        | Make::Try
        | Make::Catch
        | Make::Signals => &[Sort::Part, Sort::Part, Sort::Mark],
        Make::MethodCall => &[Sort::Part, Sort::Word, Sort::Part],
        Make::Binary | Make::Assign => &[Sort::Part, Sort::Mark, Sort::Part],
        Make::Conditional => &[Sort::Part, Sort::Part, Sort::Part],
        Make::Field => &[Sort::Part, Sort::Part, Sort::Member],
        Make::ConsBelow | Make::Class => &[Sort::Owner, Sort::Part, Sort::Part],
        Make::IfElse => &[Sort::Part, Sort::Part, Sort::Part, Sort::Mark],
        Make::For => &[Sort::Part, Sort::Part, Sort::Part, Sort::Part, Sort::Mark],
        Make::Method => &[Sort::Part, Sort::Part, Sort::Word, Sort::Part, Sort::Member],
        Make::ContractedMethod => &[
            Sort::Part,
            Sort::Part,
            Sort::Word,
            Sort::Part,
            Sort::Member,
            Sort::Part,
        ],
        Make::Constructor => &[Sort::Part, Sort::Part, Sort::Part, Sort::Word, Sort::Member],
        Make::CompareAll | Make::Nil => &[],
        Make::CompareBelow => &[Sort::Any],
        Make::SetStatic | Make::SetFinal | Make::SetOverrides => &[Sort::Member],
        Make::MemberAhead => &[Sort::Owner],
        Make::Swap => &[Sort::Any, Sort::Any],
        Make::Pair => &[Sort::Word, Sort::Word],
        Make::EndMembers => &[Sort::Member, Sort::Owner],
        Make::Generic | Make::CallOfName => &[Sort::Part, Sort::Name],
        Make::Nested => &[Sort::Part, Sort::Member],
    }
}
