// The classes of two small files.
ghost use Rattle.kr_sources.specs.Sources.{AreSources};

use kr_base::NoMemory;
use kr_classes_names::superclasses;
use kr_sources::Sources;
use std::alloc::Global;

/// `Above`, which extends none of the classes, and `Below`, which extends it.
pub fn fit(alloc: Global, sources: &Sources<'_>) -> Result<bool, NoMemory>
    requires { AreSources sources.now }
{
    let heads = sources.heads;
    let supers = superclasses(alloc, sources.trees, heads)?;
    Ok(
        heads.len() == 2
            && heads.number_of(b"Below") == Some(1)
            && heads.number_of(b"Object").is_none()
            && supers.as_slice() == [None, Some(0)].as_slice(),
    )
}
