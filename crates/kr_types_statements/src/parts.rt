// The facts known of a part that may be absent.
ghost use Rattle.std.specs.Prelude.{◌≡◌, ◌<◌, ℕ, Option, IfSome};
ghost use Rattle.kr_types_meaning.specs.Rules as rules;
ghost use Rattle.kr_types_statements.specs.Vocabulary.{count, IsKnownWithin, IsLinked, JavaType, known_shown, on_maybe, TypeList};
ghost use Rattle.kr_types_statements.specs.Maybe.{types_in, with_maybe};

use kr_classes_table::TypeId;
use kr_types_judging::{Known, Typed};

/// The type of a part, or that it is absent; nothing where it is there and has no type. A list counts as absent.
pub(crate) fn maybe_type(known: Known) -> Option<Option<TypeId>>
    ensures within { (l : TypeList) → IsKnownWithin l known → IfSome result (λ o. IfSome o (λ t. t < count l)) }
    ensures shown { (l : TypeList) (look : ℕ → rules.Typed) (f : Option JavaType → rules.Judgement) → IsLinked look known → with_maybe f (types_in l result) ≡ on_maybe f (known_shown l look known) }
{
    match known {
        Known::One(Typed::Untyped) => None,
        Known::One(Typed::Value(number)) => Some(Some(number)),
        Known::One(Typed::Variable(number)) => Some(Some(number)),
        Known::Absent => Some(None),
        Known::More { .. } => Some(None),
    }
}
