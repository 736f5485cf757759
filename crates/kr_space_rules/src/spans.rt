// The values of stretches as numbers that follow each other.
ghost use Rattle.std.specs.Prelude.{◌≡◌, ◌<◌, ◌++◌, All, IfOk, OnOk, map};
ghost use Rattle.kr_space_layout.specs.Stretches.{Fits, IsNumbered, all_choices, choices_of, stretch_of};
ghost use Rattle.kr_space_rules.specs.Spans.{AreTold, covered, number_of as number_in, numbers_of, shifted as shifted_to, start_of as first_number};

use kr_base::NoMemory;
use kr_space_layout::{Block, DomainEntry, Stretch};
use kr_value::Value;
use std::alloc::Global;

/// Numbers that follow each other.
#[derive(Clone, Copy)]
pub(crate) struct Span {
    pub(crate) start: u128,
    pub(crate) count: u128,
}

/// The number of an integer.
fn shifted(number: i64) -> u128
    ensures { result ≡ shifted_to number }
{
    (i128::from(number) + 9_223_372_041_149_743_107) as u128
}

/// The number of a value.
fn number_of(value: Value) -> u128
    ensures { result ≡ number_in value }
{
    match value {
        Value::Null => 0,
        Value::Bool(false) => 1,
        Value::Bool(true) => 2,
        Value::Ref(object) => u128::from(object) + 3,
        Value::Int(number) => shifted(number),
    }
}

/// The number of a stretch's first value.
fn start_of(stretch: Stretch) -> u128
    requires { Fits stretch }
    ensures is { result ≡ first_number stretch }
    ensures told { AreTold stretch }
{
    match stretch {
        Stretch::Plain(value) => number_of(value),
        Stretch::Integers(from, _) => shifted(from),
        Stretch::Objects(block) => u128::from(block.first) + 3,
    }
}

/// Adds the numbers of a stretch's values, if it has any.
fn add_stretch(spans: &mut Vec<Span>, stretch: Stretch) -> Result<(), NoMemory>
    requires { Fits stretch }
    ensures covered { OnOk result (covered spans.new.items ≡ covered spans.old.items ++ numbers_of (choices_of stretch)) }
    ensures some { All (λ s. 0 < s.count) spans.old.items → All (λ s. 0 < s.count) spans.new.items }
    ensures told { AreTold stretch }
{
    let start = start_of(stretch);
    let count = stretch.count();
    if count > 0 {
        spans.push(Span { start, count })?;
    }
    Ok(())
}

/// The numbers of the values of some entries, where these are the objects of the class domains.
pub(crate) fn spans_of(
    alloc: Global,
    items: &[DomainEntry],
    blocks: &[Block],
) -> Result<Vec<Span>, NoMemory>
    requires { All IsNumbered blocks.now }
    ensures covered { IfOk result (λ spans. covered spans.items ≡ numbers_of (all_choices (map (stretch_of blocks.now) items.now))) }
    ensures some { IfOk result (λ spans. All (λ s. 0 < s.count) spans.items) }
    ensures told { IfOk result (λ spans. All (λ i. AreTold (stretch_of blocks.now i)) items.now) }
{
    let mut spans = Vec::new(alloc);
    for item in items {
        add_stretch(&mut spans, Stretch::of(*item, blocks))?;
    }
    Ok(spans)
}
