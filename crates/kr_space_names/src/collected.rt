// Lists of types that grow by what isn't among them yet.
ghost use Rattle.std.specs.Prelude.{◌≡◌, ◌<◌, OnOk};
ghost use Rattle.kr_classes_names.specs.Types.{count, type_at};
ghost use Rattle.kr_space_names.specs.Collected.{AreNumbers, collect, collected, types_shown};

use crate::list::Arrays;
use kr_base::NoMemory;
use kr_classes_names::Types;

/// Adds a type, where it isn't there yet.
#[tactic(auto, using(crate::proofs::Collecting::collect_number, crate::proofs::Collecting::numbers_with))]
fn add(types: &Types, arrays: &mut Arrays, number: u32) -> Result<(), NoMemory>
    requires numbers { AreNumbers types.now arrays.old }
    requires number { number < count types.now }
    ensures numbers { OnOk result (AreNumbers types.now arrays.new) }
    ensures shown { OnOk result (types_shown types.now arrays.new ≡ collect (types_shown types.now arrays.old) (type_at types.now number)) }
{
    types.distinct_law();
    arrays.add(number)?;
    Ok(())
}

/// Adds types, those that aren't there yet.
#[tactic(auto, using(crate::proofs::Collecting::collected_next))]
pub(crate) fn add_all(types: &Types, arrays: &mut Arrays, more: &[u32]) -> Result<(), NoMemory>
    requires numbers { AreNumbers types.now arrays.old }
    requires more { AreNumbers types.now more.now }
    ensures numbers { OnOk result (AreNumbers types.now arrays.new) }
    ensures shown { OnOk result (types_shown types.now arrays.new ≡ collected (types_shown types.now arrays.old) (types_shown types.now more.now)) }
{
    for number in more {
        add(types, arrays, *number)?;
    }
    Ok(())
}
