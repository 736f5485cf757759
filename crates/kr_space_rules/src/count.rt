// How many values a domain has, and which rules that breaks.
ghost use Rattle.std.specs.Prelude.{◌≡◌, ◌-◌, ◌^◌, All, OnOk, fold, length, map, min};
ghost use Rattle.kr_space_rules.specs.Vocabulary.{all_choices, break_if, IsNumbered, lesser, number_faults, stretch_of};

use crate::twice::has_twice;
use kr_base::NoMemory;
use kr_fin::Least;
use kr_space_layout::{Block, DomainEntry, Stretch};
use kr_space_meaning::SpaceRule;

/// How many values these entries have, as far as the number goes.
fn value_count(items: &[DomainEntry], blocks: &[Block]) -> u64
    ensures { result ≡ min (length (all_choices (map (stretch_of blocks.now) items.now))) (2 ^ 64 - 1) }
{
    let mut count: u64 = 0;
    for item in items {
        count = count.saturating_add(Stretch::of(*item, blocks).capped_count());
    }
    count
}

/// Notes a rule at an item where it is broken.
pub fn note_if(
    least: &mut Least<SpaceRule>,
    is_broken: bool,
    rule: SpaceRule,
    item: &str,
) -> Result<(), NoMemory>
    ensures { OnOk result (least.new ≡ fold lesser least.old (break_if is_broken rule item.now)) }
{
    if is_broken {
        least.note(rule, item)
    } else {
        Ok(())
    }
}

#[tactic(auto, using(crate::proofs::Numbers::number_parts, crate::proofs::Numbers::capped_zero, crate::proofs::Numbers::capped_many))]
/// S3, S5 and S6 of a domain: it has a value, none twice, and at most 65,536.
pub fn note_numbers(
    least: &mut Least<SpaceRule>,
    item: &str,
    items: &[DomainEntry],
    blocks: &[Block],
) -> Result<(), NoMemory>
    requires { All IsNumbered blocks.now }
    ensures { OnOk result (least.new ≡ fold lesser least.old (number_faults item.now (all_choices (map (stretch_of blocks.now) items.now)))) }
{
    let count = value_count(items, blocks);
    let is_repeated = has_twice(least.alloc(), items, blocks)?;
    note_if(least, count == 0, SpaceRule::EmptyDomain, item)?;
    note_if(least, is_repeated, SpaceRule::ValueTwice, item)?;
    note_if(least, count > 65_536, SpaceRule::TooMany, item)
}
