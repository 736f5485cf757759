// The first place at which a rule is broken.
ghost use Rattle.std.specs.Prelude.{◌≡◌, ℕ};
ghost use Rattle.kr_classes_table.specs.Rules.{break_if, least, sooner};
ghost use Rattle.kr_classes.specs.Faults.{fault_at, sooner_place};

use kr_base::Place;
use kr_classes_table::is_earlier;

/// The earlier of two places, if any.
pub fn earlier(first: Option<Place>, place: Option<Place>) -> Option<Place>
    ensures place { result ≡ sooner_place first place }
    ensures fault { (rule : ℕ) → fault_at rule result ≡ sooner (fault_at rule first) (fault_at rule place) }
{
    match (first, place) {
        (None, _) => place,
        (_, None) => first,
        (Some(f), Some(p)) => { if is_earlier(p, f) { Some(p) } else { Some(f) } }
    }
}

pub(crate) fn if_broken(broken: bool, place: Place) -> Option<Place>
    ensures { (rule : ℕ) → fault_at rule result ≡ least (break_if broken rule place) }
{
    if broken { Some(place) } else { None }
}
