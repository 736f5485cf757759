// How many objects each object domain has, and which numbers they have in the heap.
ghost use Rattle.std.specs.Prelude.{◌≡◌, ◌+◌, ◌^◌, ◌<◌, ◌++◌, All, IfOk, OnOk, map};
ghost use Rattle.kr_space.specs.Vocabulary.{blocks_from, bound_shown, declared_shown, IsBound, IsDeclared, IsNumbered};
ghost use Rattle.kr_space.specs.Sizes.{bare_class, object_counts};

use kr_base::NoMemory;
use kr_classes_names::Types;
use kr_fin::FinDoc;
use kr_space_layout::{Block, further};
use kr_space_rules::{Bound, Declared};
use std::alloc::Global;

/// Adds how many objects each object domain has.
fn add_objects(
    counts: &mut Vec<u32>,
    document: &FinDoc,
    objects: &[Declared],
) -> Result<(), NoMemory>
    requires { All (IsDeclared document.now.objects) objects.now }
    ensures { OnOk result (counts.new.items ≡ counts.old.items ++ object_counts (map (declared_shown document.now.objects) objects.now)) }
{
    let all = document.objects.as_slice();
    for object in objects {
        counts.push(all[object.at as usize].count)?;
    }
    Ok(())
}

/// Adds how many arrays each array type that is bounded has.
fn add_arrays(
    counts: &mut Vec<u32>,
    types: &Types,
    document: &FinDoc,
    bounds: &[Bound],
) -> Result<(), NoMemory>
    requires { All (IsBound types.now document.now.arrays) bounds.now }
    ensures { OnOk result (counts.new.items ≡ counts.old.items ++ map (λ a. a.1.count) (map (bound_shown types.now document.now.arrays) bounds.now)) }
{
    let _ = types;
    let all = document.arrays.as_slice();
    for bound in bounds {
        counts.push(all[bound.at as usize].count)?;
    }
    Ok(())
}

/// How many objects each object domain and each array type has.
pub(crate) fn counts_of(
    alloc: Global,
    types: &Types,
    document: &FinDoc,
    objects: &[Declared],
    bounds: &[Bound],
) -> Result<Vec<u32>, NoMemory>
    requires objects { All (IsDeclared document.now.objects) objects.now }
    requires bounds { All (IsBound types.now document.now.arrays) bounds.now }
    ensures { IfOk result (λ counts. counts.items ≡ object_counts (map (declared_shown document.now.objects) objects.now) ++ map (λ a. a.1.count) (map (bound_shown types.now document.now.arrays) bounds.now)) }
{
    let mut counts = Vec::new(alloc);
    add_objects(&mut counts, document, objects)?;
    add_arrays(&mut counts, types, document, bounds)?;
    Ok(counts)
}

/// Asks that a sum has 32 bits.
pub(crate) fn have_numbers(first: usize, second: usize) -> Result<(), NoMemory>
    ensures { IfOk result (λ none. first + second < 2 ^ 32) }
{
    let sum = first.saturating_add(second);
    if sum < 0x1_0000_0000 {
        Ok(())
    } else {
        Err(NoMemory::at_sum(first as u64, second as u64))
    }
}

/// The objects of domains of so many objects, numbered one after another.
pub(crate) fn blocks_of(alloc: Global, counts: &[u32]) -> Result<Vec<Block>, NoMemory>
    ensures are { IfOk result (λ blocks. blocks.items ≡ blocks_from 0 0 (map bare_class counts.now)) }
    ensures numbered { IfOk result (λ blocks. All IsNumbered blocks.items) }
{
    let mut blocks = Vec::new(alloc);
    let mut first = 0;
    let mut domain = 0;
    for count in counts {
        let next = further(first, *count)?;
        blocks.push(Block {
            domain,
            first,
            count: *count,
        })?;
        first = next;
        domain = further(domain, 1)?;
    }
    Ok(blocks)
}
