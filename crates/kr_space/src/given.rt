// Rule S2 as a whole.
ghost use Rattle.std.specs.Prelude.{◌≡◌, All, OnOk, fold};
ghost use Rattle.kr_space.specs.Vocabulary.{AreBounds, AreClasses, AreDeclared, AreLengths, files_of, lesser, S2, setting_of};
ghost use Rattle.kr_space.specs.Keys.{AreKeys};

use crate::elements::{note_all_elements, note_parameters};
use crate::keys::Keys;
use crate::slots::root_number;
use crate::undefined::note_undefined;
use kr_base::NoMemory;
use kr_classes_names::Types;
use kr_fin::{FinDoc, Least};
use kr_mean::Mode;
use kr_space_meaning::SpaceRule;
use kr_space_rules::{Bound, Classes, Declared};

/// S2: each field, element and parameter that has slots has a domain.
pub(crate) fn note_given(
    least: &mut Least<SpaceRule>,
    classes: &Classes,
    types: &Types,
    document: &FinDoc,
    mode: &Mode,
    keys: &Keys,
    objects: &[Declared],
    bounds: &[Bound],
) -> Result<(), NoMemory>
    requires classes { AreClasses classes.now }
    requires keys { AreKeys document.now keys.now }
    requires objects { AreDeclared document.now.objects objects.now (setting_of (files_of classes.now) document.now).objects }
    requires bounds { AreBounds types.now document.now.arrays bounds.now (setting_of (files_of classes.now) document.now).arrays }
    requires lengths { All (λ b. All AreLengths b.lengths) document.now.arrays }
    ensures { OnOk result (least.new ≡ fold lesser least.old (S2 (setting_of (files_of classes.now) document.now) mode.now)) }
{
    note_undefined(least, classes, objects, &keys.fields, document)?;
    note_all_elements(least, classes, types, &keys.fields, document, bounds)?;
    let root = root_number(classes, document);
    note_parameters(least, classes, &keys.params, document, mode, root)
}
