// The objects of a running program, by their numbers.
ghost use Rattle.std.specs.Prelude.{◌≡◌, [], ◌∷◌, ◌++◌, length, map, ◌+◌, ◌<◌, ◌≤◌, take, OnOk, OnErr, IfOk};
ghost use Rattle.kr_heap.specs.Shown.{shown};
ghost use Rattle.std.specs.Borrow.{sem};
ghost use Rattle.kr_value.specs.Heaps.{object_in};
ghost use Rattle.kr_heap.specs.Objects.{found, with_value, with_values};
ghost use Rattle.kr_heap.specs.Lending.{LendsMembers};

use crate::Members;
use crate::object::Object;
use kr_base::NoMemory;
use kr_value::{Class, Obj, Spot, Value};
use std::alloc::Global;
use std::marker::Model;

/// A heap. Contracts see the list of its objects, each with its class and values.
#[derive(Drop)]
pub struct Heap {
    objects: Vec<Object>,
}

impl Model for Heap {
    ghost use Rattle.std.specs.Prelude.{List, map};
    ghost use Rattle.kr_value.specs.Heaps.{HeapObject};
    ghost use Rattle.kr_heap.specs.Shown.{shown};

    ghost Value = { List HeapObject };

    ghost view = { λ h. map shown h.objects.items };
}

/// The first objects replace those at their numbers in another list.
fn copy_into(objects: &mut Vec<Object>, others: &[Object]) -> Result<(), NoMemory>
    requires { length objects.old.items ≤ length others.now }
    ensures long { length objects.new.items ≡ length objects.old.items }
    ensures copied { OnOk result (map shown objects.new.items ≡ take (length objects.old.items) (map shown others.now)) }
{
    'objects: for number in 0..objects.len() {
        objects[number].copy_from(&others[number])?;
    }
    Ok(())
}

/// Appends copies of objects.
fn append_copies(
    alloc: Global,
    objects: &mut Vec<Object>,
    others: &[Object],
) -> Result<(), NoMemory>
    ensures { OnOk result (map shown objects.new.items ≡ map shown objects.old.items ++ map shown others.now) }
{
    for other in others {
        objects.push(other.copy(alloc)?)?;
    }
    Ok(())
}

/// Replaces the objects by copies of others, in existing room.
fn copy_objects(alloc: Global, objects: &mut Vec<Object>, others: &[Object]) -> Result<(), NoMemory>
    ensures { OnOk result (map shown objects.new.items ≡ map shown others.now) }
{
    objects.truncate(others.len());
    copy_into(objects, others)?;
    append_copies(alloc, objects, &others[objects.len()..])?;
    Ok(())
}

impl Heap {
    /// Allocates nothing.
    pub fn new(alloc: Global) -> Self
        ensures { result ≡ [] }
    {
        Heap {
            objects: Vec::new(alloc),
        }
    }

    /// Replaces the objects by copies of others, in existing room.
    pub fn copy_from(&mut self, alloc: Global, other: &Heap) -> Result<(), NoMemory>
        ensures { OnOk result (self.new ≡ other.now) }
    {
        copy_objects(alloc, &mut self.objects, other.objects.as_slice())
    }

    #[inline(always)]
    pub fn len(&self) -> usize
        ensures { result ≡ length self.now }
    {
        self.objects.len()
    }

    /// For more objects than have numbers.
    pub fn at_limit(&self) -> NoMemory
        requires { 4294967295 ≤ length self.now }
    {
        NoMemory::at_limit(self.objects.as_slice())
    }

    /// For more objects than have numbers, where those of another heap are numbered before them.
    pub fn at_limit_after(&self, others: &Heap) -> NoMemory
        requires { 4294967295 ≤ length others.now + length self.now }
    {
        NoMemory::at_common_limit(others.objects.as_slice(), self.objects.as_slice())
    }

    /// The class of an object.
    #[inline(always)]
    pub fn class_of(&self, object: Obj) -> Class
        ensures { result ≡ (object_in self.now object).class }
    {
        match self.objects.get(object as usize) {
            Some(found) => found.class,
            None => Class::Object(0),
        }
    }

    /// The number of an object's values.
    #[inline(always)]
    pub fn size_of(&self, object: Obj) -> usize
        ensures is { result ≡ length (object_in self.now object).values }
        ensures few { result ≤ 2147483647 }
    {
        match self.objects.get(object as usize) {
            Some(found) => found.values.as_slice().len(),
            None => 0,
        }
    }

    /// The value of an object at a spot, if it has that spot.
    #[inline(always)]
    pub fn read(&self, object: Obj, spot: Spot) -> Option<Value>
        ensures { result ≡ found (object_in self.now object) spot }
    {
        match self.objects.get(object as usize) {
            Some(found) => found.read(spot),
            None => None,
        }
    }

    /// Writes a value to a field or element of an object, if it has that.
    #[inline(always)]
    pub fn write(&mut self, object: Obj, at: usize, value: Value)
        ensures { self.new ≡ with_value self.old object at value }
    {
        if (object as usize) < self.objects.len() {
            self.objects[object as usize].write(at, value);
        }
    }

    /// An object's fields or elements, or the members of a collection.
    #[inline(always)]
    pub fn members(&self, object: Obj) -> &[Value]
        requires { object < length self.now }
        ensures { result.now ≡ (object_in self.now object).values }
    {
        self.objects[object as usize].values.as_slice()
    }

    /// The members of a collection, for changes.
    #[inline(always)]
    pub fn members_mut(&mut self, object: Obj) -> &mut Members
        requires { object < length self.old }
        ensures* lends { sem 𝓛 (LendsMembers self.entry object result) }
        ensures members { result.now ≡ (object_in self.old object).values }
    {
        let found = &mut self.objects[object as usize];
        &mut found.values
    }

    /// Adds an object with these values at the end.
    pub fn allocate(&mut self, class: Class, values: Vec<Value>) -> Result<Obj, NoMemory>
        requires { length values.items ≤ 2147483647 }
        ensures number { IfOk result (λ o. o ≡ length self.old) }
        ensures added { OnOk result (self.new ≡ self.old ++ record { class = class; values = values.items } ∷ []) }
        ensures unchanged { OnErr result (self.new ≡ self.old) }
    {
        let count = self.objects.len();
        let Ok(number) = u32::try_from(count) else {
            return Err(NoMemory::at_limit(self.objects.as_slice()));
        };
        let values = Members::from_vec(values);
        self.objects.push(Object { class, values })?;
        Ok(number)
    }

    /// Keeps the first objects only.
    pub fn truncate(&mut self, count: usize)
        ensures { self.new ≡ take count self.old }
    {
        self.objects.truncate(count);
    }

    /// Keeps an object's first values only, for an array that gets shorter.
    pub fn truncate_values(&mut self, object: Obj, count: usize)
        ensures { self.new ≡ with_values self.old object (take count (object_in self.old object).values) }
    {
        if (object as usize) < self.objects.len() {
            self.objects[object as usize].truncate(count);
        }
    }

    /// Pushes a value to an object, for an array that gets longer.
    pub fn push_value(&mut self, object: Obj, value: Value) -> Result<(), NoMemory>
        ensures added { OnOk result (self.new ≡ with_values self.old object ((object_in self.old object).values ++ value ∷ [])) }
        ensures unchanged { OnErr result (self.new ≡ self.old) }
    {
        if (object as usize) < self.objects.len() {
            self.objects[object as usize].push(value)?;
        }
        Ok(())
    }
}
