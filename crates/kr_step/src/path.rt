// The path of a search: the slots of an order, each with its index.
ghost use Rattle.std.specs.Prelude.{◌≡◌, ◌++◌, length, drop, OnOk, OnErr};
ghost use Rattle.kr_mean.specs.Readings.{AllBelow};
ghost use Rattle.kr_step.specs.Steps.{path_of, indices_of};
ghost use Rattle.kr_step.specs.Keeps.{Keeps};
ghost use Rattle.kr_step.specs.Upto.{Rises};

use crate::Candidate;
use kr_base::{Bound, NoMemory};

/// Adds the slots that follow a path in the last order, with their indices. On out-of-memory the path is unchanged.
#[inline(always)]
pub(crate) fn extend<C: Candidate>(
    candidates: &C,
    path: &mut Vec<(u32, u32)>,
) -> Result<(), NoMemory>
    requires { AllBelow (length (C.vector candidates.now)) (C.last candidates.now) }
    ensures ok { OnOk result (path.new.items ≡ path.old.items ++ path_of (C.vector candidates.now) (drop (length path.old.items) (C.last candidates.now))) }
    ensures err { OnErr result (path.new.items ≡ path.old.items) }
{
    let start = path.as_slice().len();
    let order = candidates.last_order();
    for at in start..order.len() {
        let slot = order[at];
        match path.push((slot, candidates.index(slot))) {
            Ok(()) => {}
            Err(why) => {
                path.truncate(start);
                return Err(why.into());
            }
        }
    }
    Ok(())
}

/// Writes the indices of a path from one step on into a key of the same length, which has those before it already. Mostly it
/// lacks the last one alone.
#[inline(always)]
fn copy_indices(key: &mut [u32], path: &[(u32, u32)], kept: usize)
    requires long { length key.old ≡ length path.now }
    requires kept { Keeps key.old path.now kept }
    ensures { key.new ≡ indices_of path.now }
{
    let left = path.len() - kept;
    if left == 1 {
        key[kept] = path[kept].1;
        return;
    }
    for at in kept..path.len() {
        key[at] = path[at].1;
    }
}

/// Makes a key as long as a path, of which it has the first so many indices. Without memory it stays as it was.
#[inline(always)]
fn fit(key: &mut Vec<u32>, path: &[(u32, u32)], kept: usize) -> Result<(), NoMemory>
    requires { Keeps key.old.items path.now kept }
    ensures long { OnOk result (length key.new.items ≡ length path.now) }
    ensures kept { OnOk result (Keeps key.new.items path.now kept) }
    ensures err { OnErr result (key.new.items ≡ key.old.items) }
{
    let length = path.len();
    if key.len() == length {
        return Ok(());
    }
    key.resize(length, 0)?;
    Ok(())
}

/// Makes the indices of a path a key, of which the first so many are the same already. Without memory the key stays as it was.
#[inline(always)]
pub(crate) fn write_key(
    key: &mut Vec<u32>,
    path: &[(u32, u32)],
    kept: usize,
) -> Result<(), NoMemory>
    requires { Keeps key.old.items path.now kept }
    ensures ok { OnOk result (key.new.items ≡ indices_of path.now) }
    ensures err { OnErr result (key.new.items ≡ key.old.items) }
{
    fit(key, path, kept)?;
    copy_indices(key.as_mut_slice(), path, kept);
    Ok(())
}

/// Makes a key as long as these numbers. Without memory it stays as it was.
fn fit_to(key: &mut Vec<u32>, numbers: &[u32]) -> Result<(), NoMemory>
    ensures ok { OnOk result (length key.new.items ≡ length numbers.now) }
    ensures err { OnErr result (key.new.items ≡ key.old.items) }
{
    key.resize(numbers.len(), 0)?;
    Ok(())
}

/// Makes a bound the key, if it is a cut. Whether it did: without memory the key stays as it was.
pub(crate) fn rise(key: &mut Vec<u32>, upto: &Bound) -> bool
    ensures { Rises upto.now result key.old.items key.new.items }
{
    match upto {
        Bound::End => false,
        Bound::At(cut) => match fit_to(key, cut.numbers()) {
            Err(_) => false,
            Ok(()) => {
                key.as_mut_slice().copy_from_slice(cut.numbers());
                true
            }
        },
    }
}
