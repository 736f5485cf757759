// Changes of the rows kept: a list for each segment.
ghost use Rattle.std.specs.Prelude.{◌≡◌, ◌+◌, ◌<◌, ◌≤◌, ◌++◌, ◌∷◌, [], length, take, drop, insert, slice_set, slice_index_or, replicate, vec_len, vec_capacity, OnOk, IfOk};
ghost use Rattle.kr_survey.specs.Joins.{lists};
ghost use Rattle.kr_board.specs.Edits.{added, edited, edit_of, Moves};
ghost use Rattle.kr_board.specs.Rooms.{HasRoom, HasRoomAt, IsWithin};

use kr_base::NoMemory;
use kr_core::{Core, Event};
use std::alloc::Global;
use std::mem;

/// An edit of the lists kept: an empty one directly after a place; rows at the end of the one at a place, and whether that is the last
/// one then; the first one alone.
#[derive(Clone, Copy)]
pub enum Edit {
    Nothing,
    Insert(usize),
    Append(usize, bool),
    First,
}

/// The edit of an event, other than a drain.
pub fn edit_of(core: &Core, event: &Event) -> Edit
    ensures { result ≡ edit_of core.now.segments event.now }
{
    match event {
        Event::Steal { victim, .. } => match core.place(*victim) {
            Some(i) => Edit::Insert(i),
            None => Edit::Nothing,
        },
        Event::Report { segment, spent, .. } => match core.place(*segment) {
            Some(i) => Edit::Append(i, *spent),
            None => Edit::Nothing,
        },
        Event::StopAt { .. } => Edit::First,
        _ => Edit::Nothing,
    }
}

// Makes room for rows at a place.
fn make_room_at<R>(kept: &mut Vec<Vec<R>>, i: usize, extra: usize) -> Result<(), NoMemory>
    requires { i < length kept.old.items }
    ensures same { lists kept.new.items ≡ lists kept.old.items }
    ensures room { OnOk result (HasRoomAt kept.new.items i extra) }
{
    kept[i].reserve(extra)?;
    Ok(())
}

/// Makes room for an edit.
pub fn make_room<R>(kept: &mut Vec<Vec<R>>, edit: Edit, extra: usize) -> Result<(), NoMemory>
    requires { IsWithin edit (length kept.old.items) }
    ensures same { lists kept.new.items ≡ lists kept.old.items }
    ensures room { OnOk result (HasRoom edit extra kept.new) }
{
    match edit {
        Edit::Nothing => Ok(()),
        Edit::Insert(_) => {
            kept.reserve(1)?;
            Ok(())
        }
        Edit::Append(i, _) => {
            make_room_at(kept, i, extra)?;
            Ok(())
        }
        Edit::First => Ok(()),
    }
}

// Adds rows at a place that has room for them.
fn append_at<R: Drop>(kept: &mut Vec<Vec<R>>, i: usize, mut rows: Vec<R>)
    requires within { i < length kept.old.items }
    requires room { HasRoomAt kept.old.items i (vec_len rows) }
    ensures { lists kept.new.items ≡ added i rows.items (lists kept.old.items) }
{
    let _ = kept[i].append(&mut rows);
}

// Inserts an empty list directly after a place. There is room for it.
fn insert_behind<R: Drop>(alloc: Global, kept: &mut Vec<Vec<R>>, i: usize)
    requires within { i < length kept.old.items }
    requires room { vec_len kept.old < vec_capacity kept.old }
    ensures { lists kept.new.items ≡ insert (lists kept.old.items) (i + 1) [] }
{
    let _ = kept.insert(i + 1, Vec::new(alloc));
}

// The lists up to a place alone.
fn end_at<R: Drop>(kept: &mut Vec<Vec<R>>, i: usize)
    requires { i < length kept.old.items }
    ensures { kept.new.items ≡ take (i + 1) kept.old.items }
{
    kept.truncate(i + 1);
}

// The first one alone.
fn keep_first<R: Drop>(kept: &mut Vec<Vec<R>>)
    ensures { kept.new.items ≡ take 1 kept.old.items }
{
    kept.truncate(1);
}

/// Makes an edit. It takes no memory.
pub fn write<R: Drop>(alloc: Global, kept: &mut Vec<Vec<R>>, edit: Edit, rows: Vec<R>)
    requires within { IsWithin edit (length kept.old.items) }
    requires room { HasRoom edit (vec_len rows) kept.old }
    ensures { lists kept.new.items ≡ edited edit rows.items (lists kept.old.items) }
{
    match edit {
        Edit::Nothing => {}
        Edit::Insert(i) => insert_behind(alloc, kept, i),
        Edit::Append(i, ends) => {
            append_at(kept, i, rows);
            if ends {
                end_at(kept, i);
            }
        }
        Edit::First => keep_first(kept),
    }
}

// The first list goes to the end of others, which have room for it.
fn move_first<R: Drop>(kept: &mut Vec<Vec<R>>, front: &mut Vec<Vec<R>>)
    requires some { 0 < length kept.old.items }
    requires room { vec_len front.old < vec_capacity front.old }
    ensures moved { Moves (lists kept.old.items) (lists front.old.items) (lists kept.new.items) (lists front.new.items) }
    ensures len { vec_len front.new ≡ vec_len front.old + 1 }
    ensures capacity { vec_capacity front.old ≤ vec_capacity front.new }
{
    let first = kept.remove(0);
    let _ = front.push(first);
}

// Another first list, and the one that was there.
fn replace_first<R>(kept: &mut Vec<Vec<R>>, list: Vec<R>) -> Vec<R>
    requires { 0 < length kept.old.items }
    ensures was { result ≡ slice_index_or kept.old.items 0 result }
    ensures now { kept.new.items ≡ slice_set kept.old.items 0 list }
{
    mem::replace(&mut kept[0], list)
}

/// Takes out the first `gone` lists and the rows of the next one. It takes no memory.
pub fn take_front<R: Drop>(
    alloc: Global,
    kept: &mut Vec<Vec<R>>,
    gone: usize,
    mut front: Vec<Vec<R>>,
) -> Vec<Vec<R>>
    requires within { gone < length kept.old.items }
    requires none { front.items ≡ [] }
    requires room { gone + 1 ≤ vec_capacity front }
    ensures taken { lists result.items ≡ take (gone + 1) (lists kept.old.items) }
    ensures left { lists kept.new.items ≡ [] ∷ drop (gone + 1) (lists kept.old.items) }
{
    for i in 0..gone {
        let _ = i;
        move_first(kept, &mut front);
    }
    let last = replace_first(kept, Vec::new(alloc));
    let _ = front.push(last);
    front
}

/// So many empty lists.
pub fn empty_lists<R: Drop>(alloc: Global, count: usize) -> Result<Vec<Vec<R>>, NoMemory>
    ensures { IfOk result (λ kept. lists kept.items ≡ replicate count []) }
{
    let mut kept = Vec::new(alloc);
    for made in 0..count {
        let _ = made;
        kept.push(Vec::new(alloc))?;
    }
    Ok(kept)
}
