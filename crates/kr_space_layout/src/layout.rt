// The slots and domains of a problem, by number.
ghost use Rattle.std.specs.Prelude.{◌≡◌, ◌<◌, ◌≤◌, All, IfOk, length, map, option_copied, unwrap_or, []};
ghost use Rattle.std.proofs.Common.{get_or};
ghost use Rattle.kr_iso.specs.Objects.{object_of, shown};
ghost use Rattle.kr_iso.specs.Rows.{IsRow};
ghost use Rattle.kr_mean.specs.Problem.{choices_at, domain_at, heap_number, slot_at, slots};
ghost use Rattle.kr_mean.specs.Space.{no_choice, space_of};
ghost use Rattle.kr_space_layout.specs.Items.{domain_of};
ghost use Rattle.kr_space_layout.specs.Stretches.{IsNumbered, all_choices, chosen};
ghost use Rattle.kr_space_layout.specs.Bounds.{bare, bounds_of};
ghost use Rattle.kr_space_layout.specs.Numbers.{IsFound};
ghost use Rattle.kr_space_layout.specs.Shapes.{AreShapes, IsShape, values_with};
ghost use Rattle.kr_mean.specs.Places.{place_of};
ghost use Rattle.kr_space_layout.specs.Layouts.{AnyProgramLaw, first_slot, stretches};

use crate::classes::ClassDomain;
use crate::entry::Entry;
use crate::item::DomainEntry;
use crate::shape::Shape;
use crate::stretch::{Block, Chosen};
use crate::tables::{Tables, blocks_of, counted, tables_of};
use crate::values::Values;
use kr_base::NoMemory;
use kr_fin::Listed;
use kr_iso::{Object, Slots};
use kr_mean::Mode;
use kr_value::{Class, Obj, SlotPlace, Value};
use std::alloc::Global;
use std::marker::Model;

/// The slots of a problem, and their domains. Contracts see what the problem has beside its program.
#[derive(Drop)]
pub struct Layout {
    root: u32,
    mode: Mode,
    fuel: u64,
    parameters: Listed<u32>,
    classes: Listed<ClassDomain>,
    blocks: Vec<Block>,
    starts: Vec<u32>,
    entries: Vec<Entry>,
    count: u32,
    this: Values,
    pool: Vec<Values>,
    shapes: Vec<Shape>,
}

impl Model for Layout {
    ghost use Rattle.std.specs.Prelude.{map};
    ghost use Rattle.kr_space_layout.specs.Stretches.{domain_of as meant_domain};
    ghost use Rattle.kr_space_layout.specs.Bounds.{Bounds, bounds_of};
    ghost use Rattle.kr_space_layout.specs.Layouts.{IsLaid};
    ghost use Rattle.kr_space_layout.specs.Shapes.{AreShapes};

    ghost Value = { Bounds };

    ghost view = { λ l. bounds_of l.root l.mode l.fuel l.parameters l.classes (map meant_domain l.pool.items) };

    ghost invariant = { λ l. IsLaid l.root l.parameters l.classes l.blocks.items l.starts.items l.entries.items l.count l.this l.pool.items
        × AreShapes l.this l.pool.items l.entries.items l.shapes.items };
}

/// The values of these domains, where these are the objects of the class domains.
fn pool_of(
    alloc: Global,
    domains: &[Listed<DomainEntry>],
    blocks: &[Block],
) -> Result<Vec<Values>, NoMemory>
    requires { All IsNumbered blocks.now }
    ensures { IfOk result (λ pool. pool.items ≡ map (stretches blocks.now) domains.now) }
{
    let mut pool = Vec::new(alloc);
    for items in domains {
        pool.push(Values::of(alloc, items.as_slice(), blocks)?)?;
    }
    Ok(pool)
}

/// The positions of the objects of the domain of this number; of none, those of `this`.
fn shape_with(this: &Values, pool: &[Values], domain: Option<u32>) -> Shape
    ensures { IsShape (values_with this.now pool.now domain) result }
{
    match domain {
        None => this.shape(),
        Some(domain) => match pool.get(domain as usize) {
            None => Shape::none(),
            Some(values) => values.shape(),
        },
    }
}

/// The positions of the objects of each slot's domain.
fn shapes_of(
    alloc: Global,
    this: &Values,
    pool: &[Values],
    entries: &[Entry],
) -> Result<Vec<Shape>, NoMemory>
    ensures { IfOk result (λ shapes. AreShapes this.now pool.now entries.now shapes.items) }
{
    let mut shapes = Vec::new(alloc);
    for entry in entries {
        shapes.push(shape_with(this, pool, entry.domain))?;
    }
    Ok(shapes)
}

impl Layout {
    /// The slots of these class domains and parameters, whose domains go by their numbers among these domains; one that
    /// isn't there is empty. There may be 2^32 - 1 slots, objects, and values of a domain.
    pub fn new(
        alloc: Global,
        root: u32,
        mode: Mode,
        fuel: u64,
        parameters: Listed<u32>,
        classes: Listed<ClassDomain>,
        domains: &[Listed<DomainEntry>],
    ) -> Result<Layout, NoMemory>
        ensures { IfOk result (λ layout. layout ≡ bounds_of root mode fuel parameters classes (map domain_of domains.now)) }
    {
        let blocks = blocks_of(alloc, classes.as_slice())?;
        let objects = blocks.as_slice();
        let this = Values::of(alloc, [DomainEntry::Objects(root)].as_slice(), objects)?;
        let pool = pool_of(alloc, domains, objects)?;
        let listed = classes.as_slice();
        let Tables { entries, starts } = tables_of(alloc, parameters.as_slice(), objects, listed)?;
        let count = counted(entries.as_slice())?;
        let shapes = shapes_of(alloc, &this, pool.as_slice(), entries.as_slice())?;
        Ok(Layout {
            root,
            mode,
            fuel,
            parameters,
            classes,
            blocks,
            starts,
            entries,
            count,
            this,
            pool,
            shapes,
        })
    }

    /// How many slots there are.
    pub fn slots(&self) -> u32
        ensures { result ≡ length (slots (bare self.now)) }
    {
        self.count
    }

    /// Whose slot it is, if it is an object's.
    pub fn owner(&self, slot: u32) -> Option<Object>
        requires { slot < length (slots (bare self.now)) }
        ensures { shown result ≡ (slot_at (bare self.now) slot).owner }
    {
        self.entries[slot as usize].owner
    }

    /// Its place.
    #[inline(always)]
    pub fn place(&self, slot: u32) -> SlotPlace
        requires { slot < length (slots (bare self.now)) }
        ensures { place_of result ≡ (slot_at (bare self.now) slot).place }
    {
        self.entries[slot as usize].place
    }

    /// The values of its domain, if it has a domain.
    #[inline(always)]
    fn values(&self, slot: u32) -> Option<&Values>
        requires { slot < length (slots (bare self.now)) }
        ensures { all_choices (unwrap_or (option_copied result) []) ≡ choices_at (bare self.now) slot }
    {
        match self.entries[slot as usize].domain {
            None => Some(&self.this),
            Some(domain) => self.pool.as_slice().get(domain as usize),
        }
    }

    /// How many values its domain has.
    #[inline(always)]
    pub fn size(&self, slot: u32) -> u32
        requires { slot < length (slots (bare self.now)) }
        ensures { result ≡ length (choices_at (bare self.now) slot) }
    {
        self.shapes[slot as usize].size
    }

    /// The value at an index of its domain, with the object that it is where it is one.
    #[inline(always)]
    pub fn choice(&self, slot: u32, index: u32) -> Chosen
        requires slot { slot < length (slots (bare self.now)) }
        requires index { index < length (choices_at (bare self.now) slot) }
        ensures { chosen result ≡ get_or (choices_at (bare self.now) slot) index no_choice }
    {
        match self.values(slot) {
            None => Chosen {
                value: Value::Null,
                object: None,
            },
            Some(values) => values.at(index),
        }
    }

    /// The object at an index of its domain, if it is one.
    #[inline(always)]
    pub fn object(&self, slot: u32, index: u32) -> Option<Object>
        requires slot { slot < length (slots (bare self.now)) }
        requires index { index < length (choices_at (bare self.now) slot) }
        ensures { shown result ≡ (get_or (choices_at (bare self.now) slot) index no_choice).object }
    {
        let shape = &self.shapes[slot as usize];
        if shape.simple {
            return shape.object(index);
        }
        self.choice(slot, index).object
    }

    /// The value at an index of its domain.
    #[inline(always)]
    pub fn value(&self, slot: u32, index: u32) -> Value
        requires slot { slot < length (slots (bare self.now)) }
        requires index { index < length (choices_at (bare self.now) slot) }
        ensures { result ≡ (get_or (choices_at (bare self.now) slot) index no_choice).value }
    {
        let shape = &self.shapes[slot as usize];
        if shape.has_object(index) {
            return shape.reference(index);
        }
        self.choice(slot, index).value
    }

    /// How many values from an index on are no objects, or objects of one class domain one after another, as far as is known.
    #[inline(always)]
    pub fn row(&self, slot: u32, index: u32) -> u32
        requires slot { slot < length (slots (bare self.now)) }
        requires index { index < length (choices_at (bare self.now) slot) }
        ensures { IsRow (space_of (bare self.now)) slot index result }
    {
        self.shapes[slot as usize].row(index)
    }
}

impl Layout {
    /// How many class domains there are.
    pub fn domains(&self) -> usize
        ensures { result ≡ length self.now.domains }
    {
        self.classes.as_slice().len()
    }

    /// For more class domains than have numbers.
    pub fn at_domain_limit(&self) -> NoMemory
        requires { 4294967295 ≤ length self.now.domains }
    {
        NoMemory::at_limit(self.classes.as_slice())
    }

    /// The bytes of the name of a class domain's class or array type.
    pub fn name(&self, domain: u32) -> &[u8]
        requires { domain < length self.now.domains }
        ensures { result.now ≡ (domain_at (bare self.now) domain).name }
    {
        let class = &self.classes.as_slice()[domain as usize];
        class.name.as_slice()
    }

    /// The class of a class domain's objects.
    pub fn class(&self, domain: u32) -> Class
        requires { domain < length self.now.domains }
        ensures { result ≡ (domain_at (bare self.now) domain).class }
    {
        let class = &self.classes.as_slice()[domain as usize];
        class.class
    }

    /// How many objects a class domain has.
    pub fn count(&self, domain: u32) -> u32
        requires { domain < length self.now.domains }
        ensures { result ≡ (domain_at (bare self.now) domain).count }
    {
        self.blocks[domain as usize].count
    }

    /// How many slots each object of a class domain has.
    pub fn width(&self, domain: u32) -> usize
        requires { domain < length self.now.domains }
        ensures { result ≡ length (domain_at (bare self.now) domain).spots }
    {
        let class = &self.classes.as_slice()[domain as usize];
        class.spots.as_slice().len()
    }

    /// An object's number in the heap.
    pub fn heap_number(&self, object: Object) -> Obj
        requires domain { object.domain < length self.now.domains }
        requires number { object.number < (domain_at (bare self.now) object.domain).count }
        ensures { result ≡ heap_number (bare self.now) (object_of object) }
    {
        self.blocks[object.domain as usize].first + object.number
    }

    /// The object of a number in the heap, if there is one. It takes no memory.
    pub fn numbered(&self, number: Obj) -> Option<Object>
        ensures { IsFound (bare self.now) number result }
    {
        for block in self.blocks.as_slice() {
            let within = number - block.first;
            if within < block.count {
                return Some(Object {
                    domain: block.domain,
                    number: within,
                });
            }
        }
        None
    }

    /// An object's first slot; its others follow.
    pub fn first_slot(&self, object: Object) -> u32
        requires domain { object.domain < length self.now.domains }
        requires number { object.number < (domain_at (bare self.now) object.domain).count }
        ensures { result ≡ first_slot (bare self.now) (object_of object) }
    {
        let start = self.starts[object.domain as usize];
        let width = self.width(object.domain) as u32;
        start + object.number * width
    }

    /// The class domain of the root.
    pub fn root(&self) -> u32
        ensures { result ≡ self.now.root }
    {
        self.root
    }

    /// To list, or which method to test.
    pub fn mode(&self) -> &Mode
        ensures { result.now ≡ self.now.mode }
    {
        &self.mode
    }

    /// How many parameters the method under test has; none in a listing.
    pub fn parameters(&self) -> usize
        ensures { result ≡ length self.now.parameters }
    {
        self.parameters.as_slice().len()
    }

    /// The fuel of each run.
    pub fn fuel(&self) -> u64
        ensures { result ≡ self.now.fuel }
    {
        self.fuel
    }
}

impl Slots for Layout {
    ghost space = { λ l. space_of (bare l) };

    #[tactic(auto, unfolding(kr_mean::specs::Space::space_of))]
    fn slots(&self) -> u32 {
        Layout::slots(self)
    }

    #[tactic(auto, unfolding(kr_mean::specs::Space::space_of))]
    fn size(&self, slot: u32) -> u32 {
        Layout::size(self, slot)
    }

    #[tactic(auto, unfolding(kr_mean::specs::Space::space_of))]
    fn object_at(&self, slot: u32, index: u32) -> Option<Object> {
        self.object(slot, index)
    }

    #[tactic(auto, unfolding(kr_mean::specs::Space::space_of))]
    fn row(&self, slot: u32, index: u32) -> u32 {
        Layout::row(self, slot, index)
    }
}

/// Slots, their values and the space of candidates don't depend on the program.
pub fn any_program_law()
    ensures { AnyProgramLaw }
{}
