// Lists of `Copy` items: copying from another list, and pushing.
ghost use Rattle.std.specs.Prelude.{◌≡◌, ◌≤◌, [], ◌∷◌, ◌++◌, length, OnErr, OnOk};

use kr_base::NoMemory;

/// Replaces the items by copies of others, in existing room.
#[inline(always)]
pub fn refill<T: Copy + Drop>(items: &mut Vec<T>, others: &[T]) -> Result<(), NoMemory>
    ensures few { length items.new.items ≤ length others.now }
    ensures same { OnOk result (items.new.items ≡ others.now) }
{
    if items.len() > others.len() {
        items.truncate(others.len());
    }
    let common = items.len();
    items.as_mut_slice().copy_from_slice(&others[..common]);
    if common < others.len() {
        items.extend_from_slice(&others[common..])?;
    }
    Ok(())
}

/// Pushes an item; without a call if there is room.
#[inline(always)]
pub fn append<T: Copy + Drop>(items: &mut Vec<T>, item: T) -> Result<(), NoMemory>
    ensures added { OnOk result (items.new.items ≡ items.old.items ++ item ∷ []) }
    ensures unchanged { OnErr result (items.new.items ≡ items.old.items) }
{
    if items.len() < items.capacity() {
        items.push_reserved(item);
        return Ok(());
    }
    items.push(item)?;
    Ok(())
}
