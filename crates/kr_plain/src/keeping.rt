// Entries kept by key.
ghost use Rattle.std.specs.Prelude.{◌≡◌, ◌<◌, OnErr, OnOk};
ghost use Rattle.kr_base.specs.Entries.{through_spent};
ghost use Rattle.kr_mean.specs.Entries.{insert};
ghost use Rattle.kr_plain.specs.Keys.{before_count, through_count};

use kr_base::{Cut, Entry, Mark, NoMemory};

/// How many entries are before a key.
fn count_before<R>(entries: &[Entry<R>], key: &Cut) -> usize
    ensures { result ≡ before_count key.now entries.now }
{
    for at in 0..entries.len() {
        if !entries[at].key.is_below(key) {
            return at;
        }
    }
    entries.len()
}

/// Inserts an entry where its key belongs, unless there is one of that key. On out-of-memory nothing changes.
pub(crate) fn insert_entry<R: Drop>(
    entries: &mut Vec<Entry<R>>,
    entry: Entry<R>,
) -> Result<(), NoMemory>
    ensures inserted { OnOk result (entries.new.items ≡ insert entry entries.old.items) }
    ensures unchanged { OnErr result (entries.new.items ≡ entries.old.items) }
{
    let kept = entries.as_slice();
    let at = count_before(kept, &entry.key);
    if at < kept.len() && !entry.key.is_below(&kept[at].key) {
        return Ok(());
    }
    entries.insert(at, entry)?;
    Ok(())
}

fn is_spent<R>(mark: &Mark<R>) -> bool
    ensures { result ≡ Rattle.kr_base.specs.Entries.is_spent mark.now }
{
    matches!(mark, Mark::Spent)
}

/// How many entries there are up to and with the first spent one.
fn count_through<R>(entries: &[Entry<R>]) -> usize
    ensures { result ≡ through_count entries.now }
{
    for at in 0..entries.len() {
        if is_spent(&entries[at].mark) {
            return at + 1;
        }
    }
    entries.len()
}

/// Drops the entries after the first spent one.
pub(crate) fn end_at_spent<R: Drop>(entries: &mut Vec<Entry<R>>)
    ensures { entries.new.items ≡ through_spent entries.old.items }
{
    let count = count_through(entries.as_slice());
    entries.truncate(count);
}
