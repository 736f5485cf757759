// Rule S1 as a whole.
ghost use Rattle.std.specs.Prelude.{◌≡◌, OnOk, fold, map};
ghost use Rattle.kr_space_names.specs.Vocabulary.{AreHeads, Extends, lesser, root, S1, setting_of};

use crate::domains::{owner_names, value_names};
use crate::names::{array_names, object_names, root_name};
use kr_ast::Tree;
use kr_base::NoMemory;
use kr_classes_names::{Heads, Types};
use kr_fin::{FinDoc, Least};
use kr_space_meaning::SpaceRule;

#[tactic(auto, using(crate::proofs::NameRule::S1_is))]
/// Notes what breaks rule S1: each name that no class, no object domain and no array type has.
pub fn note_names(
    least: &mut Least<SpaceRule>,
    types: &mut Types,
    trees: &[Tree],
    heads: &Heads,
    document: &FinDoc,
) -> Result<(), NoMemory>
    requires { AreHeads trees.now heads.now }
    ensures noted { OnOk result (least.new ≡ fold lesser least.old (S1 (setting_of (map root trees.now) document.now))) }
    ensures extends { Extends types.old types.new }
{
    root_name(least, types, trees, heads, document)?;
    object_names(least, trees, heads, document.objects.as_slice())?;
    array_names(least, types, trees, heads, document.arrays.as_slice())?;
    let fields = document.fields.as_slice();
    owner_names(least, types, trees, heads, fields)?;
    value_names(least, types, trees, heads, document, "fields.", fields)?;
    let params = document.params.as_slice();
    value_names(least, types, trees, heads, document, "params.", params)
}
