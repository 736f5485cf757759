// `class A { int m() { } }`: a call of its method may run that one, and its creation the code of `A`.
ghost use Rattle.kr_sources.specs.Sources.{AreSources};

use kr_base::NoMemory;
use kr_classes_members::{Members, Roster};
use kr_classes_names::{TypeForm, Types};
use kr_pure_effects::{created_classes, overriders};
use kr_sources::Sources;
use std::alloc::Global;

/// A call of the method may run one.
pub fn methods_fit(alloc: Global, sources: &Sources<'_>) -> Result<bool, NoMemory>
    requires { AreSources sources.now }
{
    let members = sources.members;
    match members.method_named(0, b"m") {
        None => Ok(false),
        Some(method) => {
            let roster = Roster::read(alloc, members)?;
            Ok(overriders(alloc, sources.trees, members, &roster, method)?.len() == 1)
        }
    }
}

fn created_fit(alloc: Global, types: &mut Types, members: &Members) -> Result<bool, NoMemory> {
    let own = types.number(TypeForm::Class(0))?;
    let classes = created_classes(alloc, types, members, own)?;
    Ok(classes.len() == 1)
}

/// A creation runs code of one class.
pub fn classes_fit(alloc: Global, members: &Members) -> Result<bool, NoMemory> {
    let mut types = Types::new(alloc)?;
    created_fit(alloc, &mut types, members)
}
