// A program with a document beside it, posed as a problem.
ghost use Rattle.std.specs.Prelude.{◌≡◌, ◌+◌, ◌^◌, ◌<◌, ◌≤◌, None, IfErr, IfOk, length, map};
ghost use Rattle.kr_space.specs.Vocabulary.{AreBounds, AreClasses, AreDeclared, AreTyped, Extends, faults_of, files_of, IsPosed, IsProgram, IsWellFormed, IsWithinLimits, least_of, posed, problem_of, root, setting_of, slots};
ghost use Rattle.kr_space.specs.Basis.{AreArrays, AreBoundsOn, HasFewDomains, IsBasis, bounds_on, setting_on};
ghost use Rattle.kr_space.specs.Keys.{AreKeys};
ghost use Rattle.kr_space.specs.Refusals.{Refuses};

use crate::arrays::arrays_of;
use crate::basis::Basis;
use crate::judge_space;
use crate::keys::Keys;
use crate::layout::layout_of;
use crate::sizes::have_numbers;
use kr_base::NoMemory;
use kr_classes::ClassTable;
use kr_classes_names::Types;
use kr_fin::FinDoc;
use kr_mean::Mode;
use kr_space_layout::Layout;
use kr_space_meaning::SpaceRefusal;
use kr_space_problem::Problem;
use kr_space_rules::{Bound, Classes, Declared, bounds_of, declared_of};
use kr_types::Program;
use std::alloc::Global;

/// Asks that object domains and given domains have numbers of 32 bits.
fn ask_numbers(document: &FinDoc, objects: &[Declared], bounds: &[Bound]) -> Result<(), NoMemory>
    ensures objects { IfOk result (λ none. length objects.now + length bounds.now < 2 ^ 32) }
    ensures domains { IfOk result (λ none. HasFewDomains document.now) }
{
    let fields = document.fields.as_slice().len();
    let params = document.params.as_slice().len();
    let arrays = document.arrays.as_slice().len();
    have_numbers(objects.len(), bounds.len())?;
    have_numbers(params, arrays)?;
    have_numbers(fields, params + arrays)
}

/// The parts of a problem that a document gives to a program.
#[derive(Drop)]
struct Laid {
    arrays: Vec<u32>,
    layout: Layout,
}

/// The array types and the layout of the problem that is made of these.
#[tactic(auto, using(kr_space_names::proofs::Growing::node_types_kept, kr_space_rules::proofs::Bounded::bounds_kept))]
fn laid_on(alloc: Global, types: &mut Types, basis: &Basis, mode: Mode) -> Result<Laid, NoMemory>
    requires few { length basis.now.classes.now.trees.now < 65 }
    requires basis { IsBasis basis.now }
    requires typed { AreTyped basis.now.classes.now types.old }
    requires bounds { AreBoundsOn types.old basis.now }
    ensures arrays { IfOk result (λ laid. AreArrays types.new (setting_on basis.now) laid.arrays.items) }
    ensures layout { IfOk result (λ laid. laid.layout ≡ bounds_on (setting_on basis.now) mode) }
    ensures extends { Extends types.old types.new }
{
    let arrays = arrays_of(alloc, types, basis)?;
    let layout = layout_of(alloc, types, &arrays, basis, mode)?;
    Ok(Laid { arrays, layout })
}

/// Likewise of classes and a document, by the keys of its tables and the array types that it bounds.
fn laid_by(
    alloc: Global,
    classes: &Classes,
    types: &mut Types,
    document: &FinDoc,
    mode: Mode,
    keys: &Keys,
    objects: &[Declared],
    bounds: &[Bound],
) -> Result<Laid, NoMemory>
    requires few { length classes.now.trees.now < 65 }
    requires classes { AreClasses classes.now }
    requires typed { AreTyped classes.now types.old }
    requires limits { IsWithinLimits document.now }
    requires keys { AreKeys document.now keys.now }
    requires objects { AreDeclared document.now.objects objects.now (setting_of (files_of classes.now) document.now).objects }
    requires bounds { AreBounds types.old document.now.arrays bounds.now (setting_of (files_of classes.now) document.now).arrays }
    ensures arrays { IfOk result (λ laid. AreArrays types.new (setting_of (files_of classes.now) document.now) laid.arrays.items) }
    ensures layout { IfOk result (λ laid. laid.layout ≡ bounds_on (setting_of (files_of classes.now) document.now) mode) }
    ensures extends { Extends types.old types.new }
{
    ask_numbers(document, objects, bounds)?;
    let basis = Basis {
        classes,
        document,
        keys,
        objects,
        bounds,
    };
    laid_on(alloc, types, &basis, mode)
}

/// The array types and the layout of a document's problem.
#[tactic(auto, using(crate::proofs::Parts::arrays_are, crate::proofs::Parts::objects_are, kr_space_names::proofs::Growing::node_types_kept))]
fn lay(
    alloc: Global,
    classes: &Classes,
    types: &mut Types,
    document: &FinDoc,
    mode: Mode,
) -> Result<Laid, NoMemory>
    requires few { length classes.now.trees.now < 65 }
    requires classes { AreClasses classes.now }
    requires typed { AreTyped classes.now types.old }
    requires limits { IsWithinLimits document.now }
    ensures arrays { IfOk result (λ laid. AreArrays types.new (setting_of (files_of classes.now) document.now) laid.arrays.items) }
    ensures layout { IfOk result (λ laid. laid.layout ≡ bounds_on (setting_of (files_of classes.now) document.now) mode) }
    ensures extends { Extends types.old types.new }
{
    let keys = Keys::of(alloc, document)?;
    let named = document.arrays.as_slice();
    let bounds = bounds_of(alloc, types, classes.trees, classes.heads, named)?;
    let declared = document.objects.as_slice();
    let objects = declared_of(alloc, classes.trees, classes.heads, declared)?;
    laid_by(
        alloc, classes, types, document, mode, &keys, &objects, &bounds,
    )
}

/// The parts of a problem that a document gives to a program; or the least of the rules that it breaks, and there the least
/// item in the order of bytes.
#[tactic(auto, using(kr_space_names::proofs::Growing::node_types_kept))]
fn judge_and_lay(
    alloc: Global,
    classes: &Classes,
    types: &mut Types,
    document: &FinDoc,
    mode: Mode,
) -> Result<Laid, SpaceRefusal>
    requires few { length classes.now.trees.now < 65 }
    requires classes { AreClasses classes.now }
    requires typed { AreTyped classes.now types.old }
    requires limits { IsWithinLimits document.now }
    ensures unbroken { IfOk result (λ laid. least_of (faults_of (files_of classes.now) document.now mode) ≡ None) }
    ensures arrays { IfOk result (λ laid. AreArrays types.new (setting_of (files_of classes.now) document.now) laid.arrays.items) }
    ensures layout { IfOk result (λ laid. laid.layout ≡ bounds_on (setting_of (files_of classes.now) document.now) mode) }
    ensures extends { Extends types.old types.new }
    ensures refused { IfErr result (Refuses (least_of (faults_of (files_of classes.now) document.now mode))) }
{
    judge_space(alloc, classes, types, document, &mode)?;
    match lay(alloc, classes, types, document, mode) {
        Ok(laid) => Ok(laid),
        Err(why) => Err(SpaceRefusal::NoMemory(why)),
    }
}

/// The problem of a program, a document and a mode; or the least of the rules that the document breaks, and there the least
/// item in the order of bytes.
#[tactic(auto, using(crate::proofs::Problems::program_kept))]
pub fn problem(
    alloc: Global,
    program: Program,
    document: &FinDoc,
    mode: Mode,
) -> Result<Problem, SpaceRefusal>
    requires program { IsProgram program }
    requires limits { IsWithinLimits document.now }
    ensures unbroken { IfOk result (λ p. least_of (faults_of (map root program.trees.items) document.now mode) ≡ None) }
    ensures posed { IfOk result IsPosed }
    ensures problem { IfOk result (λ p. posed p ≡ problem_of (map root program.trees.items) document.now mode) }
    ensures well_formed { IfOk result (λ p. IsWellFormed (posed p)) }
    ensures few { IfOk result (λ p. length (slots (posed p)) ≤ 4096) }
    ensures files { IfOk result (λ p. p.program.trees.items ≡ program.trees.items) }
    ensures refused { IfErr result (Refuses (least_of (faults_of (map root program.trees.items) document.now mode))) }
{
    let Program {
        trees,
        table,
        roster,
        files,
    } = program;
    let ClassTable {
        heads,
        members,
        mut types,
        numbers,
        values,
    } = table;
    let classes = Classes {
        trees: &trees,
        heads: &heads,
        members: &members,
        numbers: &numbers,
    };
    let laid = judge_and_lay(alloc, &classes, &mut types, document, mode)?;
    let table = ClassTable {
        heads,
        members,
        types,
        numbers,
        values,
    };
    let program = Program {
        trees,
        table,
        roster,
        files,
    };
    Ok(Problem {
        program,
        arrays: laid.arrays,
        layout: laid.layout,
    })
}
