// Lists in the room that is there.
ghost use Rattle.std.specs.Prelude.{◌≡◌, ◌∷◌, ◌++◌, ◌≤◌, [], drop, length, reverse, take, IfOk, OnOk};

use crate::Waiting;
use kr_base::NoMemory;

/// A frame after all others.
#[inline(never)]
fn append(frames: &mut Vec<Waiting>, frame: &Waiting) -> Result<(), NoMemory>
    ensures appended { OnOk result (frames.new.items ≡ frames.old.items ++ frame.now ∷ []) }
    ensures long { length frames.old.items ≤ length frames.new.items }
{
    frames.push(*frame)?;
    Ok(())
}

/// A frame on top of so many, in place of what was there: how many there are then.
#[inline(always)]
pub(crate) fn lay(
    frames: &mut Vec<Waiting>,
    count: usize,
    frame: Waiting,
) -> Result<usize, NoMemory>
    requires { count ≤ length frames.old.items }
    ensures long { length frames.old.items ≤ length frames.new.items }
    ensures room { IfOk result (λ top. top ≤ length frames.new.items) }
    ensures top { IfOk result (λ top. reverse (take top frames.new.items) ≡ frame ∷ reverse (take count frames.old.items)) }
{
    if count < frames.len() {
        frames[count] = frame;
        return Ok(count + 1);
    }
    append(frames, &frame)?;
    Ok(count + 1)
}

/// Others in place of the first ones of those that are there.
#[tactic(auto, using(std::proofs::lemmas::List::take_at))]
fn copy_front(frames: &mut [Waiting], others: &[Waiting])
    requires { length others.now ≤ length frames.old }
    ensures { take (length others.now) frames.new ≡ others.now }
{
    frames[..others.len()].copy_from_slice(others);
}

/// Others in place of the first ones.
#[tactic(auto, using(std::proofs::lemmas::List::take_all))]
pub(crate) fn replace_front(frames: &mut Vec<Waiting>, others: &[Waiting]) -> Result<(), NoMemory>
    ensures room { OnOk result (length others.now ≤ length frames.new.items) }
    ensures front { OnOk result (take (length others.now) frames.new.items ≡ others.now) }
{
    if others.len() <= frames.len() {
        copy_front(frames.as_mut_slice(), others);
        return Ok(());
    }
    frames.clear();
    frames.extend_from_slice(others)?;
    Ok(())
}

/// Others after those that are there.
#[inline(always)]
pub(crate) fn extend<T: Copy>(items: &mut Vec<T>, others: &[T]) -> Result<(), NoMemory>
    ensures { OnOk result (items.new.items ≡ items.old.items ++ others.now) }
{
    if others.is_empty() {
        return Ok(());
    }
    items.extend_from_slice(others)?;
    Ok(())
}

/// Others in place of all.
#[inline(always)]
pub(crate) fn replace<T: Copy + Drop>(items: &mut Vec<T>, others: &[T]) -> Result<(), NoMemory>
    ensures { OnOk result (items.new.items ≡ others.now) }
{
    items.clear();
    extend(items, others)
}

/// Those from a place on.
pub(crate) fn behind<T>(items: &[T], start: usize) -> &[T]
    ensures { result.now ≡ drop start items.now }
{
    if start < items.len() {
        return &items[start..];
    }
    &items[items.len()..]
}
