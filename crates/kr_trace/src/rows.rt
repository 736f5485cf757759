// The keys of a listing's rows, in one buffer.
ghost use Rattle.std.specs.Prelude.{◌≡◌, ◌<◌, ◌≤◌, [], IfOk, length, slice_index, slice_index_or, slice_range};
ghost use Rattle.kr_base.specs.Bounds.{is_same, less};
ghost use Rattle.kr_trace.specs.Checked.{is_last_key, are_below, rows_between};
ghost use Rattle.kr_trace.specs.Tables.{Ascend, SplitsAt, Tiles, adds, begin};

use kr_base::{Bound, Cut, NoMemory};
use std::alloc::Global;
use std::cmp::Ordering;
use std::marker::Model;

/// The keys of rows, and how many of the rows fail. The numbers of all keys are in one list, and each key ends at an
/// index of it. Contracts see the keys.
#[derive(Drop)]
pub(crate) struct Rows {
    numbers: Vec<u32>,
    ends: Vec<usize>,
    failing: u64,
}

impl Model for Rows {
    ghost use Rattle.kr_trace.specs.Checked.{Rows as Keyed};
    ghost use Rattle.kr_trace.specs.Tables.{IsTable, pieces};

    ghost Value = { Keyed };

    ghost view = { λ r. record { keys = pieces r.numbers.items 0 r.ends.items; failing = r.failing } };

    ghost invariant = { λ r. IsTable r.numbers.items r.ends.items r.failing };
}

#[tactic(auto, unfolding(kr_base::specs::Bounds::less))]
fn is_below(key: &[u32], other: &Cut) -> bool
    ensures { result ≡ less (Bound.At key.now) (Bound.At other.now) }
{
    key.cmp(other.numbers()) == Ordering::Less
}

#[tactic(auto, unfolding(kr_base::specs::Bounds::less))]
fn is_above(key: &[u32], other: &Cut) -> bool
    ensures { result ≡ less (Bound.At other.now) (Bound.At key.now) }
{
    other.numbers().cmp(key) == Ordering::Less
}

fn is_key(key: &[u32], other: &Cut) -> bool
    ensures { result ≡ is_same (Bound.At other.now) (Bound.At key.now) }
{
    !is_above(key, other) && !is_below(key, other)
}

/// Where a key begins: where the one before it ends.
fn begin(ends: &[usize], at: usize) -> usize
    requires { at < length ends.now }
    ensures { result ≡ begin 0 ends.now at }
{
    if at == 0 { 0 } else { ends[at - 1] }
}

fn slice_of<'a>(numbers: &'a [u32], from: usize, end: usize) -> &'a [u32]
    requires order { from ≤ end }
    requires within { end ≤ length numbers.now }
    ensures { result.now ≡ slice_range numbers.now from end }
{
    &numbers[from..end]
}

/// The key at an index.
fn piece<'a>(numbers: &'a [u32], ends: &[usize], at: usize) -> &'a [u32]
    requires at { at < length ends.now }
    requires tiles { Tiles 0 ends.now (length numbers.now) }
    ensures { result.now ≡ slice_range numbers.now (begin 0 ends.now at) (slice_index ends.now at) }
{
    slice_of(numbers, begin(ends, at), ends[at])
}

impl Rows {
    pub(crate) fn new(alloc: Global) -> Self
        ensures { result ≡ record { keys = []; failing = 0 } }
    {
        Rows {
            numbers: Vec::new(alloc),
            ends: Vec::new(alloc),
            failing: 0,
        }
    }

    /// The same with one more row.
    pub(crate) fn with_row(self, key: &[u32], passes: bool) -> Result<Rows, NoMemory>
        ensures { IfOk result (λ rows. rows ≡ adds self key.now passes) }
    {
        let Rows {
            mut numbers,
            mut ends,
            failing,
        } = self;
        let end = numbers.len() + key.len();
        numbers.extend_from_slice(key)?;
        ends.push(end)?;
        let failing = if passes { failing } else { failing + 1 };
        Ok(Rows {
            numbers,
            ends,
            failing,
        })
    }

    pub(crate) fn len(&self) -> usize
        ensures { result ≡ length self.now.keys }
    {
        self.ends.len()
    }

    /// How many rows fail.
    pub(crate) fn failing(&self) -> u64
        ensures { result ≡ self.now.failing }
    {
        self.failing
    }

    /// The key of a row.
    fn key(&self, at: usize) -> &[u32]
        requires { at < length self.now.keys }
        ensures { result.now ≡ slice_index_or self.now.keys at [] }
    {
        piece(&self.numbers, &self.ends, at)
    }

    /// How many keys are not above a bound. They are the first ones.
    fn count_up_to(&self, bound: &Bound) -> usize
        requires { Ascend self.now.keys }
        ensures { SplitsAt bound.now self.now.keys result }
    {
        let mut low = 0;
        let mut high = self.len();
        while low < high {
            let middle = low + (high - low) / 2;
            if bound.is_below_key(self.key(middle)) {
                high = middle;
            } else {
                low = middle + 1;
            }
        }
        low
    }

    /// How many keys are above `mark` and not above `reach`.
    pub(crate) fn count_between(&self, mark: &Bound, reach: &Bound) -> u64
        requires { Ascend self.now.keys }
        ensures { result ≡ rows_between self.now.keys mark.now reach.now }
    {
        let before = self.count_up_to(mark);
        let upto = self.count_up_to(reach);
        upto.saturating_sub(before) as u64
    }

    /// Whether the last row has this key.
    pub(crate) fn is_last(&self, key: &Cut) -> bool
        ensures { result ≡ is_last_key key.now self.now.keys }
    {
        let count = self.len();
        if count == 0 {
            return false;
        }
        is_key(self.key(count - 1), key)
    }

    /// Whether all keys are below this one.
    pub(crate) fn are_below(&self, key: &Cut) -> bool
        ensures { result ≡ are_below key.now self.now.keys }
    {
        for at in 0..self.len() {
            if !is_below(self.key(at), key) {
                return false;
            }
        }
        true
    }
}
