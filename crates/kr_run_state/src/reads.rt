// The places that a run has read.
ghost use Rattle.std.specs.Prelude.{◌≡◌, ◌<◌, ◌^◌, ℕ, List, [], ◌∷◌, ◌++◌, Some, false, length, map, slice_get, take, OnOk, OnErr};
ghost use Rattle.kr_mean.specs.Runs.{is_same_place, is_same_spot};
ghost use Rattle.kr_mean.specs.Places.{At, SlotPlace as Place};
ghost use Rattle.kr_run_state.specs.Noting.{is_read, with_read};
ghost use Rattle.kr_run_state.specs.Rows.{AreIndexed, HasNumber, IsWritten, IsWrittenAfter, KeepNumbers, column_of, number_at};
ghost use Rattle.kr_mean.specs.Places.{place_of};

use kr_base::NoMemory;
use kr_heap::append;
use kr_value::{Obj, SlotPlace, Spot};
use std::alloc::Global;
use std::marker::Model;

/// The places that were read, each once, in the order of their first reads. Contracts see the list.
#[derive(Drop)]
pub struct Reads {
    alloc: Global,
    places: Vec<SlotPlace>,
    // for each object a row with a number for each of its spots: its index among the places, if it is one of them. Any other
    // number is void, so that places are removed without a change of the rows
    rows: Vec<Vec<usize>>,
}

impl Model for Reads {
    ghost use Rattle.std.specs.Prelude.{List, map};
    ghost use Rattle.kr_mean.specs.Places.{SlotPlace as Place};
    ghost use Rattle.kr_run_state.specs.Rows.{AreIndexed};
    ghost use Rattle.kr_mean.specs.Places.{place_of};

    ghost Value = { List Place };

    ghost view = { λ r. map place_of r.places.items };

    ghost invariant = { λ r. AreIndexed r.rows.items (map place_of r.places.items) };
}

/// The column of a spot.
#[inline(always)]
fn column(spot: Spot) -> usize
    ensures { result ≡ column_of spot }
{
    match spot {
        Spot::Field(at) => at as usize * 2,
        Spot::Length => 1,
        Spot::Element(at) => at as usize * 2 + 3,
    }
}

/// The number in a column of an object's row.
#[inline(always)]
fn number_at(rows: &Vec<Vec<usize>>, object: Obj, column: usize) -> Option<usize>
    ensures { result ≡ number_at rows.now.items object column }
{
    match rows.get(object as usize) {
        None => None,
        Some(row) => row.get(column).copied(),
    }
}

/// Whether two spots are one.
#[inline(always)]
fn is_same_spot(a: Spot, b: Spot) -> bool
    ensures { result ≡ is_same_spot a b }
{
    match (a, b) {
        (Spot::Field(f), Spot::Field(g)) => f == g,
        (Spot::Length, Spot::Length) => true,
        (Spot::Element(i), Spot::Element(j)) => i == j,
        _ => false,
    }
}

/// Whether two places are one.
#[inline(always)]
fn is_same(a: SlotPlace, b: SlotPlace) -> bool
    ensures { result ≡ is_same_place (place_of a) (place_of b) }
{
    match (a, b) {
        (SlotPlace::This, SlotPlace::This) => true,
        (SlotPlace::Parameter(i), SlotPlace::Parameter(j)) => i == j,
        (SlotPlace::At(o, s), SlotPlace::At(p, t)) => o == p && is_same_spot(s, t),
        _ => false,
    }
}

/// Whether a place is a spot of an object.
#[inline(always)]
fn is_at(place: &SlotPlace, object: Obj, spot: Spot) -> bool
    ensures { result ≡ is_same_place (place_of place.now) (At object spot) }
{
    match place {
        SlotPlace::At(o, s) => *o == object && is_same_spot(*s, spot),
        _ => false,
    }
}

/// Whether a spot of an object is among places.
#[inline(always)]
fn contains_at(rows: &Vec<Vec<usize>>, places: &[SlotPlace], object: Obj, spot: Spot) -> bool
    requires { AreIndexed rows.now.items (map place_of places.now) }
    ensures { result ≡ is_read (At object spot) (map place_of places.now) }
{
    match number_at(rows, object, column(spot)) {
        None => false,
        Some(at) => {
            if at < places.len() {
                is_at(&places[at], object, spot)
            } else {
                false
            }
        }
    }
}

/// Likewise of any place.
#[inline(never)]
fn contains_any(places: &[SlotPlace], place: SlotPlace) -> bool
    ensures { result ≡ is_read (place_of place) (map place_of places.now) }
{
    let mut left = places.len();
    'reads: while left > 0 {
        left -= 1;
        if is_same(places[left], place) {
            return true;
        }
    }
    false
}

/// Whether a place is among places.
#[inline(always)]
fn contains(rows: &Vec<Vec<usize>>, places: &[SlotPlace], place: SlotPlace) -> bool
    requires { AreIndexed rows.now.items (map place_of places.now) }
    ensures { result ≡ is_read (place_of place) (map place_of places.now) }
{
    match place {
        SlotPlace::At(object, spot) => contains_at(rows, places, object, spot),
        _ => contains_any(places, place),
    }
}

/// Adds empty rows until an object has one.
fn add_rows(alloc: Global, rows: &mut Vec<Vec<usize>>, object: Obj) -> Result<(), NoMemory>
    ensures kept { KeepNumbers rows.old.items rows.new.items }
    ensures long { OnOk result (object < length rows.new.items) }
{
    'adding: while rows.len() <= object as usize {
        rows.push(Vec::new(alloc))?;
    }
    Ok(())
}

/// Lengthens a row until it has a column.
fn widen(row: &mut Vec<usize>, column: usize) -> Result<(), NoMemory>
    requires { column < 2 ^ 34 }
    ensures kept { (c k : ℕ) → slice_get row.old.items c ≡ Some k → slice_get row.new.items c ≡ Some k }
    ensures long { OnOk result (column < length row.new.items) }
{
    if column < row.len() {
        return Ok(());
    }
    row.resize(column + 1, 0)?;
    Ok(())
}

/// Likewise of an object's row.
#[inline(never)]
fn make_room(
    alloc: Global,
    rows: &mut Vec<Vec<usize>>,
    object: Obj,
    column: usize,
) -> Result<(), NoMemory>
    requires { column < 2 ^ 34 }
    ensures kept { KeepNumbers rows.old.items rows.new.items }
    ensures there { OnOk result (HasNumber rows.new.items object column) }
{
    add_rows(alloc, rows, object)?;
    widen(&mut rows[object as usize], column)
}

/// A number in place of another.
#[inline(always)]
fn write(rows: &mut Vec<Vec<usize>>, object: Obj, column: usize, number: usize)
    requires { HasNumber rows.old.items object column }
    ensures { IsWritten rows.old.items rows.new.items object column number }
{
    let row = &mut rows[object as usize];
    row[column] = number;
}

/// Writes the index of a spot, which may have no number yet.
#[inline(always)]
fn index_spot(
    alloc: Global,
    rows: &mut Vec<Vec<usize>>,
    object: Obj,
    spot: Spot,
    number: usize,
) -> Result<(), NoMemory>
    ensures kept { OnErr result (KeepNumbers rows.old.items rows.new.items) }
    ensures written { OnOk result (IsWrittenAfter rows.old.items rows.new.items object (column_of spot) number) }
{
    let column = column(spot);
    match number_at(&*rows, object, column) {
        Some(_) => {
            write(rows, object, column, number);
            Ok(())
        }
        None => {
            make_room(alloc, rows, object, column)?;
            write(rows, object, column, number);
            Ok(())
        }
    }
}

/// Writes the index of a place that comes after so many others.
#[inline(always)]
fn index_place(
    alloc: Global,
    rows: &mut Vec<Vec<usize>>,
    place: SlotPlace,
    number: usize,
) -> Result<(), NoMemory>
    ensures indexed { OnOk result ((ps : List Place) → AreIndexed rows.old.items ps → number ≡ length ps → is_read (place_of place) ps ≡ false → AreIndexed rows.new.items (ps ++ place_of place ∷ [])) }
    ensures kept { OnErr result ((ps : List Place) → AreIndexed rows.old.items ps → AreIndexed rows.new.items ps) }
{
    match place {
        SlotPlace::At(object, spot) => index_spot(alloc, rows, object, spot, number),
        SlotPlace::This => Ok(()),
        SlotPlace::Parameter(_) => Ok(()),
    }
}

impl Reads {
    /// Nothing was read. It takes no memory.
    pub fn new(alloc: Global) -> Self
        ensures { result ≡ [] }
    {
        Reads {
            alloc,
            places: Vec::new(alloc),
            rows: Vec::new(alloc),
        }
    }

    /// A place that is read now.
    #[inline(always)]
    pub fn note(&mut self, place: SlotPlace) -> Result<(), NoMemory>
        ensures noted { OnOk result (self.new ≡ with_read self.old (place_of place)) }
        ensures unchanged { OnErr result (self.new ≡ self.old) }
    {
        if contains(&self.rows, self.places.as_slice(), place) {
            return Ok(());
        }
        let count = self.places.len();
        index_place(self.alloc, &mut self.rows, place, count)?;
        append(&mut self.places, place)
    }

    /// Whether a place was read.
    #[inline(always)]
    pub fn contains(&self, place: SlotPlace) -> bool
        ensures { result ≡ is_read (place_of place) self.now }
    {
        contains(&self.rows, self.places.as_slice(), place)
    }

    /// The first places alone.
    #[inline(always)]
    pub fn truncate(&mut self, count: usize)
        ensures { self.new ≡ take count self.old }
    {
        self.places.truncate(count);
    }

    /// Nothing was read, and the room stays.
    pub fn clear(&mut self)
        ensures { self.new ≡ [] }
    {
        self.places.clear();
    }

    /// The places, in the order of their first reads.
    #[inline(always)]
    pub fn as_slice(&self) -> &[SlotPlace]
        ensures { map place_of result.now ≡ self.now }
    {
        self.places.as_slice()
    }
}
