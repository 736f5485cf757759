// The domain of the root's objects.
ghost use Rattle.std.specs.Prelude.{◌≡◌, ◌+◌, ◌^◌, ◌<◌, IfOk, length};
ghost use Rattle.kr_space.specs.Vocabulary.{AreBounds, AreClasses, AreDeclared, array_type_of, domain_of_root, Extends, files_of, headings_of, number_of_root, root_bounded, root_of, setting_of};

use crate::slots::root_number;
use kr_base::NoMemory;
use kr_classes_names::Types;
use kr_fin::FinDoc;
use kr_space_names::array_type;
use kr_space_rules::{Bound, Classes, Declared, array_domain_of, object_domain_of};
use std::alloc::Global;

/// The number of the domain of the array type that the root names, where it names one that has a domain.
#[tactic(auto, using(kr_space_rules::proofs::Bounded::bounds_kept))]
fn bounded_root(
    alloc: Global,
    types: &mut Types,
    classes: &Classes,
    document: &FinDoc,
    objects: u32,
    bounds: &[Bound],
) -> Result<Option<u32>, NoMemory>
    requires classes { AreClasses classes.now }
    requires few { objects + length bounds.now < 2 ^ 32 }
    requires objects { objects ≡ length (setting_of (files_of classes.now) document.now).objects }
    requires bounds { AreBounds types.old document.now.arrays bounds.now (setting_of (files_of classes.now) document.now).arrays }
    ensures number { IfOk result (λ n. n ≡ root_bounded (setting_of (files_of classes.now) document.now) (array_type_of (headings_of (files_of classes.now)) document.now.root)) }
    ensures extends { Extends types.old types.new }
{
    let root = document.root.as_str().as_bytes();
    let all = document.arrays.as_slice();
    match array_type(alloc, types, classes.heads, root)? {
        None => Ok(None),
        Some(number) => Ok(array_domain_of(&*types, objects, bounds, all, number)),
    }
}

/// The number of the domain of a class that the root has, or of the array type that it names.
fn root_found(
    alloc: Global,
    types: &mut Types,
    classes: &Classes,
    document: &FinDoc,
    objects: &[Declared],
    bounds: &[Bound],
) -> Result<Option<u32>, NoMemory>
    requires classes { AreClasses classes.now }
    requires few { length objects.now + length bounds.now < 2 ^ 32 }
    requires objects { AreDeclared document.now.objects objects.now (setting_of (files_of classes.now) document.now).objects }
    requires bounds { AreBounds types.old document.now.arrays bounds.now (setting_of (files_of classes.now) document.now).arrays }
    ensures number { IfOk result (λ n. n ≡ number_of_root (setting_of (files_of classes.now) document.now) (root_of (setting_of (files_of classes.now) document.now))) }
    ensures extends { Extends types.old types.new }
{
    match root_number(classes, document) {
        Some(class) => {
            let root = document.root.as_str().as_bytes();
            Ok(object_domain_of(objects, document.objects.as_slice(), root, class))
        }
        None => bounded_root(
            alloc,
            types,
            classes,
            document,
            objects.len() as u32,
            bounds,
        ),
    }
}

/// The number of the root's domain; the number of all domains where it has none.
#[tactic(auto, unfolding(kr_space_meaning::specs::Bounds::root_domain))]
pub(crate) fn root_domain(
    alloc: Global,
    types: &mut Types,
    classes: &Classes,
    document: &FinDoc,
    objects: &[Declared],
    bounds: &[Bound],
) -> Result<u32, NoMemory>
    requires classes { AreClasses classes.now }
    requires few { length objects.now + length bounds.now < 2 ^ 32 }
    requires objects { AreDeclared document.now.objects objects.now (setting_of (files_of classes.now) document.now).objects }
    requires bounds { AreBounds types.old document.now.arrays bounds.now (setting_of (files_of classes.now) document.now).arrays }
    ensures number { IfOk result (λ n. n ≡ domain_of_root (setting_of (files_of classes.now) document.now)) }
    ensures extends { Extends types.old types.new }
{
    match root_found(alloc, types, classes, document, objects, bounds)? {
        None => Ok((objects.len() + bounds.len()) as u32),
        Some(number) => Ok(number),
    }
}
