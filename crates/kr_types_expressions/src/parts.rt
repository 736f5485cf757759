// The facts known of parts.
ghost use Rattle.std.specs.Prelude.{◌≡◌, ◌<◌, ℕ, IfSome, option_map};
ghost use Rattle.kr_types_meaning.specs.Rules as rules;
ghost use Rattle.kr_types_expressions.specs.Vocabulary.{count, IsKnownWithin, known_shown, type_at, type_in, TypeList};

use kr_classes_table::TypeId;
use kr_types_judging::{Known, Typed};

/// The type of a part, if it has one.
pub fn part_type(known: Known) -> Option<TypeId>
    ensures within { (l : TypeList) → IsKnownWithin l known → IfSome result (λ t. t < count l) }
    ensures shown { (l : TypeList) (look : ℕ → rules.Typed) → option_map (type_at l) result ≡ type_in (known_shown l look known) }
{
    match known {
        Known::One(Typed::Untyped) => None,
        Known::One(Typed::Value(number)) => Some(number),
        Known::One(Typed::Variable(number)) => Some(number),
        Known::Absent => None,
        Known::More { .. } => None,
    }
}
