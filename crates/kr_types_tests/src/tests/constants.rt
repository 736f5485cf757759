// Constants of two files: a quotient, and one with a zero divisor.
ghost use Rattle.kr_sources.specs.Sources.{AreSources};

use kr_base::{NoMemory, Place};
use kr_classes_constants::Values;
use kr_classes_members::Members;
use kr_sources::Sources;
use kr_value::Value;
use std::alloc::Global;

fn place(file: u32, col: u32) -> Place {
    Place { file, line: 1, col }
}

fn values_fit(values: &Values, members: &Members) -> bool {
    let half = members.field_meant(0, b"VALUE");
    values.value_at(place(0, 31)) == Some(Value::Int(3))
        && values.value_at(place(1, 31)).is_none()
        && values.value_of(half) == Some(Value::Int(3))
}

/// The half of 7, and 7 by 0.
pub fn fit(alloc: Global, sources: &Sources<'_>) -> Result<bool, NoMemory>
    requires { AreSources sources.now }
{
    let values = Values::read(alloc, sources.trees, sources.heads, sources.members)?;
    Ok(values_fit(&values, sources.members))
}
