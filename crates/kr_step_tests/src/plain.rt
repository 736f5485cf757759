// The plain listing of two subclasses, worked by hand.
ghost use Rattle.std.specs.Prelude.{◌≡◌, ◌<◌};

use crate::bases::start;
use kr_base::{Bound, Cut, Entry, Span, Steps};
use kr_plain::{is_least, list_keys};
use kr_step::Candidate;
use std::alloc::Global;
use std::marker::Brand;
use std::sync::ledger::{Blank, Ledger};
use std::test::Fail;

/// Whether the keys of entries are these.
fn are_keys(entries: &[Entry<()>], keys: &[[u32; 3]]) -> bool {
    for at in 0..entries.len() {
        match (entries.get(at), keys.get(at)) {
            (Some(entry), Some(key)) => {
                if entry.key.numbers() != key.as_slice() {
                    return false;
                }
            }
            _ => return false,
        }
    }
    entries.len() == keys.len()
}

/// Whether the entries of a span, by trying every candidate, have these keys.
fn has_keys<L: Ledger>(
    alloc: Global,
    blank: Blank,
    span: &Span,
    keys: &[[u32; 3]],
) -> Result<bool, Fail>
    requires ledger { blank.name ≡ L.name }
    requires parts { blank.parts ≡ L.parts }
    requires some { 0 < L.parts }
{
    let mut runs = Steps::<L>::start(blank);
    let mut candidates = start(alloc)?;
    let entries = list_keys(alloc, &mut candidates, span, &mut runs)?;
    Ok(are_keys(entries.as_slice(), keys))
}

/// Whether the first candidate is the least of its class, and whether it is with the second object of a class in a field.
fn judged<L: Ledger>(alloc: Global, blank: Blank) -> Result<(bool, bool), Fail>
    requires ledger { blank.name ≡ L.name }
    requires parts { blank.parts ≡ L.parts }
    requires some { 0 < L.parts }
{
    let mut runs = Steps::<L>::start(blank);
    let mut candidates = start(alloc)?;
    let first = is_least(alloc, &mut candidates, &mut runs)?;
    candidates.set(1, 1);
    let second = is_least(alloc, &mut candidates, &mut runs)?;
    Ok((first, second))
}

fn cut_of(alloc: Global, numbers: &[u32]) -> Result<Cut, Fail> {
    Ok(Cut::new(Vec::from_slice(alloc, numbers)?))
}

/// Whether the span between two cuts has these keys.
fn has_keys_between(
    alloc: Global,
    after: &[u32],
    upto: &[u32],
    keys: &[[u32; 3]],
) -> Result<bool, Fail> {
    let after = cut_of(alloc, after)?;
    let upto = Bound::At(cut_of(alloc, upto)?);
    has_keys::<Brand>(alloc, Blank::new(1), &Span { after, upto }, keys)
}

/// Whether all keys are these.
fn has_all_keys(alloc: Global, keys: &[[u32; 3]]) -> Result<bool, Fail> {
    let span = Span {
        after: Cut::empty(alloc),
        upto: Bound::End,
    };
    has_keys::<Brand>(alloc, Blank::new(1), &span, keys)
}

fn are_judged(alloc: Global) -> Result<bool, Fail> {
    let least = judged::<Brand>(alloc, Blank::new(1))?;
    Ok(least == (true, false))
}

#[test]
fn two_subclasses(rt: HostRuntime) -> Result<(), Fail> {
    let all = [
        [0, 0, 0],
        [0, 0, 1],
        [0, 0, 2],
        [0, 2, 0],
        [0, 2, 2],
        [0, 2, 3],
    ];
    assert!(rt; has_all_keys(rt.alloc(), &all)?);
    assert!(rt; has_keys_between(rt.alloc(), &[0, 0, 1], &[0, 2, 2], &all[2..5])?);
    assert!(rt; are_judged(rt.alloc())?);
    Ok(())
}
