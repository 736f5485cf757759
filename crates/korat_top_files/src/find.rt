// The work on the files of a call: they are read, and then judged.
ghost use Rattle.std.specs.Prelude.{◌≡◌, ◌<◌, ◌≤◌, ◌∷◌, ◌++◌, [], All, IfOk, OnOk, length, map};
ghost use Rattle.kr_ast.specs.Arena.{Arena, root};
ghost use Rattle.kr_classes_table.specs.Predefined.{predefined};
ghost use Rattle.kr_args.specs.Definition.{MOST_SOURCES};
ghost use Rattle.kr_classes.specs.ClassTables.{IsClassTable};
ghost use Rattle.kr_types.specs.Programs.{IsProgram};
ghost use Rattle.kr_laws_types.specs.Derivation.{AreClasses};
ghost use Rattle.kr_space_meaning.specs.Limits.{IsWithinLimits};
ghost use Rattle.kr_mean.specs.declared.mode.Mode.TheVariants.{List as Listing, Method as Testing};
ghost use Rattle.kr_mean.specs.Problem.{slots};
ghost use Rattle.kr_mean.specs.WellFormed.{IsWellFormed};
ghost use Rattle.kr_space_problem.specs.Posed.{IsPosed, posed};
ghost use Rattle.korat_top_files.specs.Refusals.{refusal_of, too_long as too_long_of, source_start as start_of};
ghost use Rattle.korat_top_files.specs.Steps.{LIMIT};
ghost use Rattle.korat_top_files.specs.Chains.{growing, MOST_NODES, from_texts, from_grown, from_table, from_trees, from_document, from_problem, each};
ghost use Rattle.korat_top_files.specs.Refusals.{files_of};
ghost use Rattle.kr_demo.specs.Texts.{finitization_text, source_text};
ghost use Rattle.korat_top_files.specs.Found.{HasRead, HasReadAll, Meets, FindsIn, CountStays, AreShaped, AreGrown};
ghost use Rattle.kr_io.specs.Held.{IsLater};

use crate::refusal::{InputFile, Refusal, Stop};
use crate::rules::{CallRule, ItemRule, SourceRule};
use crate::sources::Texts;
use kr_args::forms::{Ask, Word};
use kr_ast::Tree;
use kr_base::{ItemName, NoMemory, Place, Words};
use kr_classes::{ClassTable, classes};
use kr_classes_table::predefined_tree;
use kr_demo::{demo_finitization, demo_source};
use kr_fin::{FinDoc, FinRule, MAX_FIN_BYTES, read_fin};
use kr_io::{Files, ReadRefusal};
use kr_judge_prepared::Accepted;
use kr_laws_types::shape_law;
use kr_lex::lex;
use kr_mean::{MethodName, Mode};
use kr_parse::parse;
use kr_pure::pure;
use kr_space::{limits_law, problem};
use kr_space_problem::Problem;
use kr_types::{Program, check};
use kr_types_meaning::well_typed_law;
use std::alloc::Global;

/// Where a source begins.
fn source_start(number: u32) -> Place
    ensures { result ≡ start_of number }
{
    Place {
        file: number,
        line: 1,
        col: 1,
    }
}

/// More bytes than are taken.
fn too_long(alloc: Global, file: InputFile) -> Result<Refusal, NoMemory>
    ensures { IfOk result (λ refusal. refusal_of refusal ≡ too_long_of file) }
{
    match file {
        InputFile::Finitization => Ok(FinRule::TooLong.of(ItemName::of(alloc, b"size")?)),
        InputFile::Source(number) => Ok(CallRule::LongSource.at(source_start(number))),
    }
}

/// Reads a file of a name, which is to be no longer than a finitization may be.
pub(crate) fn read<F: Files>(
    alloc: Global,
    file: InputFile,
    name: &str,
    files: &mut F,
) -> Result<Vec<u8>, Stop>
    ensures read { HasRead F.held F.faults F.last file name.now files.old files.new result }
    ensures later { IsLater F.held F.faults files.old files.new }
    ensures count { CountStays (F.faults files.old) (F.faults files.new) result }
{
    match files.read(name, MAX_FIN_BYTES + 1) {
        Ok(bytes) => {
            if bytes.len() <= MAX_FIN_BYTES {
                Ok(bytes)
            } else {
                Err(Stop::Refused(too_long(alloc, file)?))
            }
        }
        Err(ReadRefusal::Failed) => Err(Stop::Read(file)),
        Err(ReadRefusal::NoMemory(why)) => Err(Stop::Memory(why)),
    }
}

/// Reads the sources, in order.
fn read_sources<F: Files>(alloc: Global, sources: &Words, files: &mut F) -> Result<Texts, Stop>
    requires few { length sources.now ≤ MOST_SOURCES }
    ensures read { HasReadAll F.held F.faults F.last sources.now files.old files.new result }
    ensures later { IsLater F.held F.faults files.old files.new }
    ensures count { CountStays (F.faults files.old) (F.faults files.new) result }
{
    let mut texts = Texts::new(alloc);
    for number in 0..sources.len() {
        let file = InputFile::Source(number as u32);
        match read(alloc, file, sources.get(number), files) {
            Ok(bytes) => texts.push(bytes)?,
            Err(stop) => return Err(stop),
        }
    }
    Ok(texts)
}

/// The tree of a source.
fn tree_of(alloc: Global, number: u32, bytes: &[u8]) -> Result<Tree, Stop>
    requires few { number < 64 }
    requires short { length bytes.now ≤ LIMIT }
    ensures grown { Meets (growing number bytes.now) root result }
    ensures small { IfOk result (λ tree. length tree.entries ≤ MOST_NODES) }
    ensures shaped { IfOk result (λ tree. AreClasses (root tree)) }
{
    shape_law();
    let tokens = lex(alloc, number, bytes)?;
    let tree = parse(alloc, &tokens)?;
    Ok(tree)
}

fn add_tree(trees: &mut Vec<Tree>, tree: Tree) -> Result<(), NoMemory>
    ensures added { OnOk result (trees.new.items ≡ trees.old.items ++ tree ∷ []) }
{
    trees.push(tree)?;
    Ok(())
}

/// The trees of the sources.
fn trees_of(alloc: Global, texts: &Texts) -> Result<Vec<Tree>, Stop>
    requires few { length texts.now ≤ MOST_SOURCES }
    requires short { All (λ text. length text ≤ LIMIT) texts.now }
    ensures grown { Meets (each growing 0 texts.now) (λ trees. map root trees.items) result }
    ensures small { IfOk result (λ trees. All (λ tree. length tree.entries ≤ MOST_NODES) trees.items) }
    ensures shaped { IfOk result (λ trees. AreShaped trees.items) }
{
    let mut trees = Vec::new(alloc);
    for number in 0..texts.len() {
        match tree_of(alloc, number as u32, texts.get(number)) {
            Ok(tree) => add_tree(&mut trees, tree)?,
            Err(stop) => return Err(stop),
        }
    }
    Ok(trees)
}

// The steps after each other: each of these goes on from the step that its name says.

fn judge_from_purity(alloc: Global, problem: Problem) -> Result<Accepted, Stop>
    requires shaped { AreShaped problem.program.trees.items }
    requires posed { IsPosed problem }
    requires well_formed { IsWellFormed (posed problem) }
    requires small { length (slots (posed problem)) ≤ 4096 }
    ensures judged { Meets (from_problem (posed problem)) posed result }
{
    let subject = pure(alloc, &problem)?;
    Ok(Accepted::new(problem, subject))
}

fn judge_from_posing(
    alloc: Global,
    mode: Mode,
    program: Program,
    document: &FinDoc,
) -> Result<Accepted, Stop>
    requires program { IsProgram program }
    requires limits { IsWithinLimits document.now }
    requires shaped { AreShaped program.trees.items }
    ensures judged { Meets (from_document mode (map root program.trees.items) document.now) posed result }
{
    let problem = problem(alloc, program, document, mode)?;
    judge_from_purity(alloc, problem)
}

fn judge_from_finitization(
    alloc: Global,
    mode: Mode,
    fin: &[u8],
    program: Program,
) -> Result<Accepted, Stop>
    requires program { IsProgram program }
    requires shaped { AreShaped program.trees.items }
    ensures judged { Meets (from_trees mode fin.now (map root program.trees.items)) posed result }
{
    limits_law();
    let document = read_fin(alloc, fin)?;
    judge_from_posing(alloc, mode, program, &document)
}

fn judge_from_typing(
    alloc: Global,
    mode: Mode,
    fin: &[u8],
    trees: Vec<Tree>,
    table: ClassTable,
) -> Result<Accepted, Stop>
    requires grown { AreGrown trees.items }
    requires table { IsClassTable trees.items table }
    ensures judged { Meets (from_table mode fin.now (map root trees.items)) posed result }
{
    well_typed_law();
    let program = check(alloc, trees, table)?;
    judge_from_finitization(alloc, mode, fin, program)
}

fn judge_from_classes(
    alloc: Global,
    mode: Mode,
    fin: &[u8],
    trees: Vec<Tree>,
) -> Result<Accepted, Stop>
    requires { AreGrown trees.items }
    ensures judged { Meets (from_grown mode fin.now (map root trees.items)) posed result }
{
    let table = classes(alloc, trees.as_slice())?;
    judge_from_typing(alloc, mode, fin, trees, table)
}

/// The trees of a program: of the predefined classes, and of its files.
fn with_predefined(alloc: Global, files: Vec<Tree>) -> Result<Vec<Tree>, NoMemory>
    ensures { IfOk result (λ trees. (tree : Arena) × (root tree ≡ predefined) × (length tree.entries ≤ MOST_NODES) × (trees.items ≡ tree ∷ files.items)) }
{
    let predefined = predefined_tree(alloc)?;
    let mut trees = files;
    trees.insert(0, predefined)?;
    Ok(trees)
}

/// Judges what was read, as what a mode asks of it.
fn judge_from_parsing(
    alloc: Global,
    mode: Mode,
    fin: &[u8],
    texts: &Texts,
) -> Result<Accepted, Stop>
    requires few { length texts.now ≤ MOST_SOURCES }
    requires short { All (λ text. length text ≤ LIMIT) texts.now }
    ensures judged { Meets (from_texts mode fin.now texts.now) posed result }
{
    let files = trees_of(alloc, texts)?;
    let trees = with_predefined(alloc, files)?;
    judge_from_classes(alloc, mode, fin, trees)
}

/// Reads files, the finitization first, and judges them.
pub fn find_files<F: Files>(
    alloc: Global,
    mode: Mode,
    fin: &str,
    sources: &Words,
    files: &mut F,
) -> Result<Accepted, Stop>
    requires few { length sources.now ≤ MOST_SOURCES }
    ensures found { FindsIn F.held F.faults F.last mode (files_of fin.now sources.now) files.old files.new result }
    ensures count { CountStays (F.faults files.old) (F.faults files.new) result }
{
    let bytes = read(alloc, InputFile::Finitization, fin, files)?;
    match read_sources(alloc, sources, files) {
        Ok(texts) => judge_from_parsing(alloc, mode, &bytes, &texts),
        Err(stop) => Err(stop),
    }
}

/// The demo's source.
fn demo_texts(alloc: Global, nodes: u32) -> Result<Texts, NoMemory>
    ensures { IfOk result (λ texts. texts ≡ source_text nodes ∷ []) }
{
    let source = demo_source(alloc, nodes)?;
    let mut texts = Texts::new(alloc);
    texts.push(source)?;
    Ok(texts)
}

/// Judges the demo's texts, which no file holds.
pub fn find_demo(alloc: Global, nodes: u32) -> Result<Accepted, Stop>
    ensures judged { Meets (from_texts Listing (finitization_text nodes) (source_text nodes ∷ [])) posed result }
{
    let texts = demo_texts(alloc, nodes)?;
    let fin = demo_finitization(alloc, nodes)?;
    judge_from_parsing(alloc, Mode::List, &fin, &texts)
}

/// What a test of a method asks.
fn testing(alloc: Global, method: &Word) -> Result<Mode, NoMemory>
    ensures { IfOk result (λ mode. mode ≡ Testing method.now) }
{
    let name = String::from_str(alloc, method.as_str())?;
    Ok(Mode::Method(MethodName::new(name)))
}

/// Does the steps of a test over its files, up to the problem.
pub fn find_test<F: Files>(
    alloc: Global,
    method: &Word,
    ask: &Ask,
    files: &mut F,
) -> Result<Accepted, Stop>
    requires few { length ask.now.sources ≤ MOST_SOURCES }
    ensures found { FindsIn F.held F.faults F.last (Testing method.now) (files_of ask.now.fin ask.now.sources) files.old files.new result }
    ensures count { CountStays (F.faults files.old) (F.faults files.new) result }
{
    let mode = testing(alloc, method)?;
    find_files(alloc, mode, ask.fin.as_str(), &ask.sources, files)
}
