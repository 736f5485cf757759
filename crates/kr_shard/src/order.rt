// Shards in order of where they begin.
ghost use Rattle.std.specs.Prelude.{◌≡◌, ◌≤◌, length, IfOk};
ghost use Rattle.std.specs.List.{insert};
ghost use Rattle.kr_shard.specs.Merging.{in_order, numbered, placed};
ghost use Rattle.kr_shard.specs.Placing.{IsPlace};

use crate::Shard;
use kr_base::{Cut, NoMemory};
use std::alloc::Global;

/// A shard with its number among those that were given.
#[derive(Drop)]
pub struct Given {
    pub index: u64,
    pub shard: Shard,
}

/// Where a shard goes that begins at this cut: in front of the first that doesn't begin before it.
fn place_for(ordered: &[Given], from: &Cut) -> usize
    ensures { IsPlace ordered.now from.now result }
{
    for at in 0..ordered.len() {
        if !ordered[at].shard.span.after.is_below(from) {
            return at;
        }
    }
    ordered.len()
}

/// Writes a shard in its place.
fn add_given(ordered: &mut Vec<Given>, given: Given) -> Result<(), NoMemory>
    ensures { IfOk result (λ none. ordered.new.items ≡ placed given ordered.old.items) }
{
    let at = place_for(ordered.as_slice(), &given.shard.span.after);
    ordered.insert(at, given)?;
    Ok(())
}

/// The shards in order, with their numbers.
pub(crate) fn in_order(alloc: Global, mut shards: Vec<Shard>) -> Result<Vec<Given>, NoMemory>
    ensures { IfOk result (λ ordered. ordered.items ≡ in_order (numbered 0 shards.items)) }
{
    let mut ordered = Vec::new(alloc);
    while let Some(shard) = shards.pop() {
        let given = Given {
            index: shards.len() as u64,
            shard,
        };
        add_given(&mut ordered, given)?;
    }
    Ok(ordered)
}
