// Rules S3, S5 and S6 as a whole.
ghost use Rattle.std.specs.Prelude.{◌≡◌, ◌==◌, ◌+◌, ◌^◌, ◌<◌, OnOk, fold, length, nat_lt};
ghost use Rattle.std.proofs.Common.{get_or};
ghost use Rattle.kr_space.specs.Vocabulary.{AreBounds, AreClasses, AreDeclared, AreTyped, domain_at, domain_of_root, Extends, files_of, IsWithinLimits, lesser, problem_of, S3_S5_S6, setting_of, slots};
ghost use Rattle.kr_space.specs.Bounded.{IsBounded, problem_in, setting_in};

use crate::bounded::Bounded;
use crate::numbers::{note_all_lengths, note_domains};
use crate::root::root_domain;
use crate::sizes::{blocks_of, counts_of, have_numbers};
use crate::slots::slot_count;
use kr_base::NoMemory;
use kr_classes_names::Types;
use kr_fin::{FinDoc, Least};
use kr_mean::Mode;
use kr_space_meaning::SpaceRule;
use kr_space_rules::{Bound, Classes, Declared, Keyed, note_if};

/// The count of the domain of a number; 0 where there is none.
fn count_at(counts: &[u32], at: u32) -> u32
    ensures { result ≡ get_or counts.now at 0 }
{
    if (at as usize) < counts.len() {
        counts[at as usize]
    } else {
        0
    }
}

#[tactic(auto, using(crate::proofs::Parts::numbers_are, crate::proofs::BoundedKept::bounded_kept), unfolding(kr_space_meaning::specs::Bounds::setting_of))]
/// S3, S5 and S6 of each domain that is given, of the root's objects and of the slots.
fn note_numbers_of(
    least: &mut Least<SpaceRule>,
    types: &mut Types,
    bounded: &Bounded,
    is_rootless: bool,
    has_many: bool,
) -> Result<(), NoMemory>
    requires bounded { IsBounded types.old bounded.now }
    requires limits { IsWithinLimits bounded.now.document.now }
    requires rootless { is_rootless ≡ ((domain_at (problem_in bounded.now) (problem_in bounded.now).root).count == 0) }
    requires many { has_many ≡ nat_lt 4096 (length (slots (problem_in bounded.now))) }
    ensures noted { OnOk result (least.new ≡ fold lesser least.old (S3_S5_S6 (problem_in bounded.now) (setting_in bounded.now))) }
    ensures extends { Extends types.old types.new }
{
    let document = bounded.document;
    let fields = document.fields.as_slice();
    let params = document.params.as_slice();
    note_domains(least, types, bounded, Keyed::Field, "fields.", fields)?;
    note_domains(least, types, bounded, Keyed::Parameter, "params.", params)?;
    note_all_lengths(least, types, bounded, document.arrays.as_slice())?;
    note_if(least, is_rootless, SpaceRule::EmptyDomain, "this")?;
    note_if(least, has_many, SpaceRule::TooMany, "slots")
}

/// S3, S5 and S6 where the root has the domain of this number.
fn note_numbers_at(
    least: &mut Least<SpaceRule>,
    classes: &Classes,
    types: &mut Types,
    document: &FinDoc,
    mode: &Mode,
    objects: &[Declared],
    bounds: &[Bound],
    root: u32,
) -> Result<(), NoMemory>
    requires classes { AreClasses classes.now }
    requires typed { AreTyped classes.now types.old }
    requires few { length objects.now + length bounds.now < 2 ^ 32 }
    requires root { root ≡ domain_of_root (setting_of (files_of classes.now) document.now) }
    requires objects { AreDeclared document.now.objects objects.now (setting_of (files_of classes.now) document.now).objects }
    requires bounds { AreBounds types.old document.now.arrays bounds.now (setting_of (files_of classes.now) document.now).arrays }
    requires limits { IsWithinLimits document.now }
    ensures noted { OnOk result (least.new ≡ fold lesser least.old (S3_S5_S6 (problem_of (files_of classes.now) document.now mode.now) (setting_of (files_of classes.now) document.now))) }
    ensures extends { Extends types.old types.new }
{
    let alloc = least.alloc();
    let slots = slot_count(alloc, classes, &*types, document, mode, objects, bounds)?;
    let counts = counts_of(alloc, &*types, document, objects, bounds)?;
    let blocks = blocks_of(alloc, &counts)?;
    let objects_of_root = count_at(&counts, root);
    let bounded = Bounded {
        classes,
        document,
        mode,
        objects,
        bounds,
        blocks: &blocks,
    };
    note_numbers_of(least, types, &bounded, objects_of_root == 0, slots > 4_096)
}

/// S3, S5 and S6: each domain that is given has a value, none twice, and at most 65,536; the root has objects; and there
/// are at most 4,096 slots.
#[tactic(auto, using(kr_space_names::proofs::Growing::node_types_kept, kr_space_rules::proofs::Bounded::bounds_kept))]
pub(crate) fn note_numbers(
    least: &mut Least<SpaceRule>,
    classes: &Classes,
    types: &mut Types,
    document: &FinDoc,
    mode: &Mode,
    objects: &[Declared],
    bounds: &[Bound],
) -> Result<(), NoMemory>
    requires classes { AreClasses classes.now }
    requires typed { AreTyped classes.now types.old }
    requires objects { AreDeclared document.now.objects objects.now (setting_of (files_of classes.now) document.now).objects }
    requires bounds { AreBounds types.old document.now.arrays bounds.now (setting_of (files_of classes.now) document.now).arrays }
    requires limits { IsWithinLimits document.now }
    ensures noted { OnOk result (least.new ≡ fold lesser least.old (S3_S5_S6 (problem_of (files_of classes.now) document.now mode.now) (setting_of (files_of classes.now) document.now))) }
    ensures extends { Extends types.old types.new }
{
    have_numbers(objects.len(), bounds.len())?;
    let root = root_domain(least.alloc(), types, classes, document, objects, bounds)?;
    note_numbers_at(least, classes, types, document, mode, objects, bounds, root)
}
