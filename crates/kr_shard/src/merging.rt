// Shards put together.
ghost use Rattle.std.specs.Prelude.{◌≡◌, ◌<◌, ◌==◌, length, slice_get, take, Some, IfOk};
ghost use Rattle.std.specs.List.{sum_by};
ghost use Rattle.kr_base.specs.Causes.{capped};
ghost use Rattle.kr_shard.specs.Merging.{IsMerged, Merges, fault_between, first_fault, gap_between, spent_in, through_spent, tried_in};
ghost use Rattle.kr_shard.specs.declared.merging.MergeRefusal.TheVariants.{NoMemory as Lacking};

use crate::order::{Given, in_order};
use crate::{Rows, Shard};
use kr_base::{Bound, Cut, NoMemory};
use std::alloc::Global;
use std::marker::Model;

/// The rows of shards, in order. They stay where they were read. Contracts see them shard by shard.
#[derive(Drop)]
pub struct MergedRows {
    shards: Vec<Given>,
}

impl Model for MergedRows {
    ghost use Rattle.std.specs.Prelude.{List, map};
    ghost use Rattle.kr_shard.specs.ReadRows.{RowLines};
    ghost use Rattle.kr_shard.specs.Rows.{rows_of};

    ghost Value = { List RowLines };

    ghost view = { λ r. map rows_of r.shards.items };
}

impl MergedRows {
    /// Of how many shards they are.
    pub fn len(&self) -> usize
        ensures { result ≡ length self.now }
    {
        self.shards.len()
    }

    pub fn is_empty(&self) -> bool
        ensures { result ≡ (length self.now == 0) }
    {
        self.shards.is_empty()
    }

    /// The rows of a shard.
    pub fn get(&self, at: usize) -> &Rows
        requires { at < length self.now }
        ensures { slice_get self.now at ≡ Some result.now }
    {
        &self.shards[at].shard.rows
    }
}

/// Shards together: the rows of each, in order; how many entries were tried in all, at most the greatest number of 64
/// bits; and the first spent key.
#[derive(Drop)]
pub struct Merged {
    pub rows: MergedRows,
    pub tried: u64,
    pub spent: Option<Cut>,
}

/// Shards don't adjoin, or memory was refused.
#[derive(Drop)]
pub enum MergeRefusal {
    /// The shard of this number, of those that were given from 0 on, begins before the one before it ends.
    Overlap(u64),
    /// A shard ends here, and the next begins there.
    Gap(Cut, Cut),
    NoMemory(NoMemory),
}

impl From<NoMemory> for MergeRefusal {
    ghost from_gives = { λ why refusal. refusal ≡ Lacking why };

    fn from(why: NoMemory) -> MergeRefusal {
        MergeRefusal::NoMemory(why)
    }
}

fn gap_between(to: &Bound, from: &Cut) -> Result<Option<MergeRefusal>, NoMemory>
    ensures { IfOk result (λ fault. fault ≡ gap_between to.now from.now) }
{
    match to {
        Bound::End => Ok(None),
        Bound::At(cut) => {
            if cut.is_below(from) {
                let to = cut.try_clone()?;
                Ok(Some(MergeRefusal::Gap(to, from.try_clone()?)))
            } else {
                Ok(None)
            }
        }
    }
}

fn fault_between(given: &Given, next: &Given) -> Result<Option<MergeRefusal>, NoMemory>
    ensures { IfOk result (λ fault. fault ≡ fault_between given.now next.now) }
{
    let upto = &given.shard.span.upto;
    let from = &next.shard.span.after;
    if upto.is_above_cut(from) {
        return Ok(Some(MergeRefusal::Overlap(next.index)));
    }
    gap_between(upto, from)
}

/// The fault of the first pair that doesn't adjoin.
fn first_fault(ordered: &[Given]) -> Result<Option<MergeRefusal>, NoMemory>
    ensures { IfOk result (λ fault. fault ≡ first_fault ordered.now) }
{
    let Some((first, later)) = ordered.split_first() else {
        return Ok(None);
    };
    let mut last = first;
    for next in later {
        let fault = fault_between(last, next)?;
        if fault.is_some() {
            return Ok(fault);
        }
        last = next;
    }
    Ok(None)
}

/// How many shards there are up to and with the first that ends with a spent entry.
fn count_through_spent(ordered: &[Given]) -> usize
    ensures { take result ordered.now ≡ through_spent ordered.now }
{
    for at in 0..ordered.len() {
        if ordered[at].shard.spent.is_some() {
            return at + 1;
        }
    }
    ordered.len()
}

/// What a shard tried: a spent one counts nothing.
fn tried_in(given: &Given) -> u64
    ensures { result ≡ tried_in given.now }
{
    match &given.shard.spent {
        Some(_) => 0,
        None => given.shard.tried,
    }
}

/// What shards tried together.
fn tried_by(ordered: &[Given]) -> u64
    ensures { result ≡ capped (sum_by tried_in ordered.now) }
{
    let mut tried: u64 = 0;
    for given in ordered {
        tried = tried.saturating_add(tried_in(given));
    }
    tried
}

/// The first spent key.
fn spent_in(ordered: &[Given]) -> Result<Option<Cut>, NoMemory>
    ensures { IfOk result (λ key. key ≡ spent_in ordered.now) }
{
    for given in ordered {
        match &given.shard.spent {
            Some(key) => {
                return Ok(Some(key.try_clone()?));
            }
            None => {}
        }
    }
    Ok(None)
}

/// All shards together that adjoin in this order.
fn join(mut ordered: Vec<Given>) -> Result<Merged, NoMemory>
    ensures { IfOk result (IsMerged ordered.items) }
{
    let spent = spent_in(ordered.as_slice())?;
    ordered.truncate(count_through_spent(ordered.as_slice()));
    let tried = tried_by(ordered.as_slice());
    Ok(Merged {
        rows: MergedRows { shards: ordered },
        tried,
        spent,
    })
}

/// Shards together, given in any order: the number or the bounds of the first pair, in order of where they begin, that
/// doesn't adjoin; else their rows up to the first spent entry.
pub fn merge(alloc: Global, shards: Vec<Shard>) -> Result<Merged, MergeRefusal>
    ensures { Merges shards.items result }
{
    let ordered = in_order(alloc, shards)?;
    match first_fault(ordered.as_slice())? {
        Some(fault) => Err(fault),
        None => Ok(join(ordered)?),
    }
}
