// The tables of slots and of class domains, filled from the class domains one after another.
ghost use Rattle.std.specs.Prelude.{◌≡◌, ◌<◌, ◌+◌, ◌++◌, All, IfOk, OnOk, length};
ghost use Rattle.kr_space_layout.specs.Stretches.{IsNumbered};
ghost use Rattle.kr_space_layout.specs.Tables.{all_entries, blocks_from, class_entries, entries_with, object_entries, parameter_entries, starts_with};

use crate::classes::{ClassDomain, Spotted};
use crate::entry::Entry;
use crate::stretch::Block;
use kr_base::NoMemory;
use kr_iso::Object;
use kr_value::SlotPlace;
use std::alloc::Global;

/// The number so many further on, where there is one.
pub fn further(number: u32, count: u32) -> Result<u32, NoMemory>
    ensures { IfOk result (λ next. next ≡ number + count) }
{
    match number.checked_add(count) {
        Some(next) => Ok(next),
        None => Err(NoMemory::at_sum(u64::from(number), u64::from(count))),
    }
}

/// How many there are, where there are fewer than 2^32.
pub fn counted<T>(items: &[T]) -> Result<u32, NoMemory>
    ensures { IfOk result (λ number. number ≡ length items.now) }
{
    match u32::try_from(items.len()) {
        Ok(number) => Ok(number),
        Err(_) => Err(NoMemory::at_limit(items)),
    }
}

/// The objects of the class domains, numbered one after another.
pub(crate) fn blocks_of(alloc: Global, classes: &[ClassDomain]) -> Result<Vec<Block>, NoMemory>
    ensures are { IfOk result (λ blocks. blocks.items ≡ blocks_from 0 0 classes.now) }
    ensures numbered { IfOk result (λ blocks. All IsNumbered blocks.items) }
{
    let mut blocks = Vec::new(alloc);
    let mut first = 0;
    let mut domain = 0;
    for class in classes {
        let next = further(first, class.count)?;
        blocks.push(Block {
            domain,
            first,
            count: class.count,
        })?;
        first = next;
        domain = further(domain, 1)?;
    }
    Ok(blocks)
}

/// Adds the parameters, each with the number of its domain.
fn add_parameters(entries: &mut Vec<Entry>, parameters: &[u32]) -> Result<(), NoMemory>
    ensures { OnOk result (entries.new.items ≡ entries.old.items ++ parameter_entries 0 parameters.now) }
{
    let mut number = 0;
    for domain in parameters {
        entries.push(Entry {
            place: SlotPlace::Parameter(number),
            owner: None,
            domain: Some(*domain),
        })?;
        number = further(number, 1)?;
    }
    Ok(())
}

/// Adds the slots of an object.
fn add_object(
    entries: &mut Vec<Entry>,
    block: Block,
    number: u32,
    spots: &[Spotted],
) -> Result<(), NoMemory>
    requires numbered { IsNumbered block }
    requires number { number < block.count }
    ensures { OnOk result (entries.new.items ≡ entries.old.items ++ object_entries block spots.now number) }
{
    let object = block.first + number;
    for spotted in spots {
        entries.push(Entry {
            place: SlotPlace::At(object, spotted.spot),
            owner: Some(Object {
                domain: block.domain,
                number,
            }),
            domain: Some(spotted.domain),
        })?;
    }
    Ok(())
}

/// Adds the slots of the objects of a class domain.
fn add_class(entries: &mut Vec<Entry>, block: Block, spots: &[Spotted]) -> Result<(), NoMemory>
    requires { IsNumbered block }
    ensures { OnOk result (entries.new.items ≡ entries.old.items ++ class_entries block spots.now) }
{
    for number in 0..block.count {
        add_object(entries, block, number, spots)?;
    }
    Ok(())
}

/// Adds the slots of all objects, and notes where each class domain's begin.
fn add_classes(
    entries: &mut Vec<Entry>,
    starts: &mut Vec<u32>,
    blocks: &[Block],
    classes: &[ClassDomain],
) -> Result<(), NoMemory>
    requires long { length blocks.now ≡ length classes.now }
    requires numbered { All IsNumbered blocks.now }
    ensures entries { OnOk result (entries.new.items ≡ entries.old.items ++ entries_with blocks.now classes.now) }
    ensures starts { OnOk result (starts.new.items ≡ starts.old.items ++ starts_with (length entries.old.items) blocks.now classes.now) }
{
    for (domain, class) in classes.iter().enumerate() {
        starts.push(counted(entries.as_slice())?)?;
        add_class(entries, blocks[domain], class.spots.as_slice())?;
    }
    Ok(())
}

/// The slots, and the first slot of each class domain.
pub(crate) struct Tables {
    pub(crate) entries: Vec<Entry>,
    pub(crate) starts: Vec<u32>,
}

/// The tables of these parameters and class domains.
pub(crate) fn tables_of(
    alloc: Global,
    parameters: &[u32],
    blocks: &[Block],
    classes: &[ClassDomain],
) -> Result<Tables, NoMemory>
    requires long { length blocks.now ≡ length classes.now }
    requires numbered { All IsNumbered blocks.now }
    ensures entries { IfOk result (λ tables. tables.entries.items ≡ all_entries parameters.now blocks.now classes.now) }
    ensures starts { IfOk result (λ tables. tables.starts.items ≡ starts_with (length parameters.now + 1) blocks.now classes.now) }
{
    let mut entries = Vec::new(alloc);
    let mut starts = Vec::new(alloc);
    entries.push(Entry {
        place: SlotPlace::This,
        owner: None,
        domain: None,
    })?;
    add_parameters(&mut entries, parameters)?;
    add_classes(&mut entries, &mut starts, blocks, classes)?;
    Ok(Tables { entries, starts })
}
