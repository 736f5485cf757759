// The greatest of the lengths that arrays may have.
ghost use Rattle.std.specs.Prelude.{◌≡◌, All, max, pos};
ghost use Rattle.kr_space.specs.Vocabulary.{AreLengths, Bits32, greatest, IsLength, item_values, lengths_in, lengths_of, Range, Setting};

use kr_fin::Item;

/// A length.
fn length_of(number: i64) -> u32
    requires { IsLength number }
    ensures { pos result ≡ number }
{
    number as u32
}

/// The greatest of the lengths from one to another; 0 where there are none.
#[tactic(auto, using(crate::proofs::LengthLists::range_greatest, crate::proofs::LengthLists::range_none))]
fn range_greatest(from: u32, to: u32) -> u32
    ensures { (setting : Setting) → result ≡ greatest (lengths_in (item_values setting Bits32 (Range (pos from) (pos to)))) }
{
    if from <= to { to } else { 0 }
}

/// The greatest of the lengths of an entry.
fn entry_greatest(item: &Item) -> u32
    requires { AreLengths item.now }
    ensures { (setting : Setting) → result ≡ greatest (lengths_in (item_values setting Bits32 item.now)) }
{
    match item {
        Item::Number(number) => length_of(*number),
        Item::Range(from, to) => range_greatest(length_of(*from), length_of(*to)),
        Item::Truth(_) => 0,
        Item::Name(_) => 0,
    }
}

/// The greater of two lengths.
fn greater(first: u32, second: u32) -> u32
    ensures { result ≡ max first second }
{
    if first < second { second } else { first }
}

/// The greatest of some lengths; 0 where there are none.
pub(crate) fn greatest_length(items: &[Item]) -> u32
    requires { All AreLengths items.now }
    ensures { (setting : Setting) → result ≡ greatest (lengths_of setting items.now) }
{
    let mut found = 0;
    for item in items {
        found = greater(found, entry_greatest(item));
    }
    found
}
