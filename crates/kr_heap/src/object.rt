// One object of a heap.
use crate::Members;
use kr_base::NoMemory;
use kr_value::{Class, Spot, Value};
use std::alloc::Global;

/// An object: its class, and its fields, elements or members.
#[derive(Drop)]
pub struct Object {
    pub class: Class,
    pub values: Members,
}

impl Object {
    ghost use Rattle.std.specs.Prelude.{◌≡◌, [], ◌∷◌, ◌++◌, slice_set, take, OnOk, OnErr, IfOk};
    ghost use Rattle.kr_heap.specs.Objects.{found};
    ghost use Rattle.kr_heap.specs.Shown.{shown};

    /// The value at a spot, if the object has that spot.
    #[inline(always)]
    pub fn read(&self, spot: Spot) -> Option<Value>
        ensures { result ≡ found (shown self.now) spot }
    {
        match spot {
            Spot::Field(at) => match &self.class {
                Class::Object(_) => self.values.get(at as usize),
                _ => None,
            },
            Spot::Element(at) => match &self.class {
                Class::Array(_) => self.values.get(at as usize),
                _ => None,
            },
            Spot::Length => match &self.class {
                Class::Array(_) => Some(Value::Int(self.values.as_slice().len() as i64)),
                _ => None,
            },
        }
    }

    pub fn copy(&self, alloc: Global) -> Result<Object, NoMemory>
        ensures { IfOk result (λ object. shown object ≡ shown self.now) }
    {
        Ok(Object {
            class: self.class,
            values: self.values.copy(alloc)?,
        })
    }

    /// Replaces class and values by those of another object, in existing room.
    #[inline(always)]
    pub fn copy_from(&mut self, other: &Object) -> Result<(), NoMemory>
        ensures { OnOk result (shown self.new ≡ shown other.now) }
    {
        self.class = other.class;
        self.values.copy_from(&other.values)
    }

    #[inline(always)]
    pub fn write(&mut self, at: usize, value: Value)
        ensures class { self.new.class ≡ self.old.class }
        ensures values { self.new.values ≡ slice_set self.old.values at value }
    {
        self.values.set(at, value);
    }

    pub fn truncate(&mut self, count: usize)
        ensures class { self.new.class ≡ self.old.class }
        ensures values { self.new.values ≡ take count self.old.values }
    {
        self.values.truncate(count);
    }

    pub fn push(&mut self, value: Value) -> Result<(), NoMemory>
        ensures class { self.new.class ≡ self.old.class }
        ensures added { OnOk result (self.new.values ≡ self.old.values ++ value ∷ []) }
        ensures unchanged { OnErr result (self.new.values ≡ self.old.values) }
    {
        self.values.push(value)?;
        Ok(())
    }
}
