// The positions of a domain's objects among its values.
ghost use Rattle.std.specs.Prelude.{◌≡◌, ◌<◌, ◌≤◌, ◌+◌, ◌-◌, ◌^◌, ◌++◌, [], List};
ghost use Rattle.kr_iso.specs.Objects.{shown};
ghost use Rattle.kr_value.specs.declared.value.Value.TheVariants.{Ref as Reference};
ghost use Rattle.kr_mean.specs.Problem.{Choice};
ghost use Rattle.kr_space_layout.specs.Shapes.{IsAlike, IsObjectShape, IsPlainShape, IsShape, object_from};
ghost use Rattle.kr_space_layout.specs.Stretches.{Fits, choices_of, count_of};

use crate::stretch::Stretch;
use kr_iso::Object;
use kr_value::Value;

/// How many values a domain has. If it's simple, those from an index on are the objects of one class domain, in order, of which
/// the first has this number in the heap, and those before it are no objects.
#[derive(Clone, Copy, PartialEq, Eq)]
pub(crate) struct Shape {
    pub(crate) size: u32,
    pub(crate) from: u32,
    pub(crate) domain: u32,
    pub(crate) first: u32,
    pub(crate) simple: bool,
}

impl Shape {
    /// That of no values.
    pub(crate) fn none() -> Shape
        ensures { IsShape [] result }
    {
        Shape {
            size: 0,
            from: 0,
            domain: 0,
            first: 0,
            simple: true,
        }
    }

    /// Whether it is known that no value is an object.
    fn has_none(self) -> bool
        ensures { IsPlainShape self result }
    {
        self.simple && self.from == self.size
    }

    /// With the values of a stretch after the others, which makes so many.
    pub(crate) fn with(self, stretch: Stretch, size: u32) -> Shape
        requires size { size ≡ self.size + count_of stretch }
        requires fits { Fits stretch }
        ensures { (choices : List Choice) → IsShape choices self → IsShape (choices ++ choices_of stretch) result }
    {
        let simple = self.has_none();
        match stretch {
            Stretch::Plain(_) => Shape {
                size,
                from: size,
                domain: 0,
                first: 0,
                simple,
            },
            Stretch::Integers(_, _) => Shape {
                size,
                from: size,
                domain: 0,
                first: 0,
                simple,
            },
            Stretch::Objects(block) => Shape {
                size,
                from: self.size,
                domain: block.domain,
                first: block.first,
                simple,
            },
        }
    }

    /// The object at an index, where it is simple.
    #[inline(always)]
    pub(crate) fn object(&self, index: u32) -> Option<Object>
        ensures { shown result ≡ object_from self.now.from self.now.domain index }
    {
        if index < self.from {
            None
        } else {
            Some(Object {
                domain: self.domain,
                number: index - self.from,
            })
        }
    }

    /// Whether it is known that the value at an index is an object.
    #[inline(always)]
    pub(crate) fn has_object(&self, index: u32) -> bool
        ensures { IsObjectShape self.now index result }
    {
        self.simple && index >= self.from
    }

    /// The value at an index, where it is an object.
    #[inline(always)]
    pub(crate) fn reference(&self, index: u32) -> Value
        requires from { self.now.from ≤ index }
        requires index { index < self.now.size }
        requires fits { self.now.first + (self.now.size - self.now.from) < 2 ^ 32 }
        ensures { result ≡ Reference (self.now.first + (index - self.now.from)) }
    {
        Value::Ref(self.first + (index - self.from))
    }

    /// How many values from an index on are known to be no objects, or objects one after another.
    #[inline(always)]
    pub(crate) fn row(&self, index: u32) -> u32
        requires { index < self.now.size }
        ensures { (choices : List Choice) → IsShape choices self.now → IsAlike choices index result }
    {
        if !self.simple {
            return 1;
        }
        if index < self.from {
            self.from - index
        } else {
            self.size - index
        }
    }
}
