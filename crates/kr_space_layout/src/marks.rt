// Marks at numbers: a mark that isn't there is off.
ghost use Rattle.std.specs.Prelude.{◌≡◌, ◌≤◌, ℕ, false, OnOk, OnErr, length};
ghost use Rattle.std.proofs.Common.{get_or};
ghost use Rattle.kr_space_layout.specs.Marks.{IsMarked};

use kr_base::NoMemory;

/// Whether a number is marked.
pub fn is_marked(marks: &[bool], number: u32) -> bool
    ensures { result ≡ get_or marks.now number false }
{
    let at = number as usize;
    if at < marks.len() { marks[at] } else { false }
}

/// Makes room for so many marks; the new ones are off.
fn grow(marks: &mut Vec<bool>, count: usize) -> Result<(), NoMemory>
    ensures kept { (m : ℕ) → get_or marks.new.items m false ≡ get_or marks.old.items m false }
    ensures long { OnOk result (count ≤ length marks.new.items) }
{
    while marks.len() < count {
        marks.push(false)?;
    }
    Ok(())
}

/// Marks a number. Once there is room for it, it takes no memory.
pub fn mark(marks: &mut Vec<bool>, number: u32) -> Result<(), NoMemory>
    ensures marked { OnOk result (IsMarked marks.old.items number marks.new.items) }
    ensures kept { OnErr result ((m : ℕ) → get_or marks.new.items m false ≡ get_or marks.old.items m false) }
{
    let at = number as usize;
    grow(marks, at + 1)?;
    marks[at] = true;
    Ok(())
}
