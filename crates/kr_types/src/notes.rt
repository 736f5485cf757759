// The notes of all nodes of a file in order: the parts of a node come before it.
ghost use Rattle.std.specs.Prelude.{◌≡◌, ◌<◌, ◌+◌, ℕ, [], IfOk, OnOk, length};
ghost use Rattle.kr_types.specs.Vocabulary.{AreNotesWithin, class_there, Extends, IsForest, IsMeant, judged, kept, meaning_at, note_at, Nothing, Setting, shown_notes, table_in, tree_in};
ghost use Rattle.kr_types.specs.Kinds.{IsOfBare, IsOfNamed};
ghost use Rattle.kr_types.specs.Sites.{AreKept, IsMeantBy, IsSite, IsSpot, IsSpotNote, scope_of, tree_there};

use crate::context::Context;
use crate::group::{Bare, Group, Named, group_of};
use crate::lists::link_note;
use crate::meaning_list::MeaningList;
use crate::meanings::{class_before, node_meaning};
use crate::nodes::{bare_note, named_note};
use crate::site::{Inside, Site, Spot};
use crate::statements::plain_note;
use kr_base::NoMemory;
use kr_classes_names::Types;
use kr_types_expressions::NoteList;
use kr_types_judging::Note;
use kr_types_resolving::Meaning;
use std::alloc::Global;

/// The notes and the meanings of the first nodes of a file.
#[derive(Drop)]
pub(crate) struct Noted {
    pub(crate) notes: NoteList,
    pub(crate) meanings: MeaningList,
    /// the class of the last of them
    pub(crate) inside: Inside,
}

impl Noted {
    /// None. Allocates nothing.
    fn new(alloc: Global) -> Noted
        ensures notes { result.notes ≡ [] }
        ensures meanings { result.meanings.items ≡ [] }
        ensures inside { (g : Setting) → class_there g result.inside.declared ≡ result.inside.class }
    {
        Noted {
            notes: NoteList::new(alloc),
            meanings: MeaningList::new(alloc),
            inside: Inside {
                declared: None,
                class: 0,
            },
        }
    }
}

/// Keeps the note of a node without meaning.
#[inline(always)]
fn add_note(
    _site: &Site<'_>,
    _types: &Types,
    noted: &mut Noted,
    _spot: Spot,
    note: Note,
) -> Result<(), NoMemory>
    requires kept { AreKept _site.now _types.now noted.old }
    requires forest { IsForest (tree_there _site.now).text (tree_there _site.now).entries }
    requires spot { IsSpot _site.now (length noted.old.notes) _spot }
    requires note { IsSpotNote _site.now _types.now noted.old.notes _spot note }
    requires nothing { IsMeantBy _site.now (shown_notes _types.now noted.old.notes) _spot.at _spot.node Nothing }
    ensures kept { OnOk result (AreKept _site.now _types.now noted.new) }
    ensures count { OnOk result (length noted.new.notes ≡ _spot.at + 1) }
{
    noted.notes.push(note)?;
    noted.meanings.push(Meaning::Nothing)?;
    Ok(())
}

/// Keeps the note of a node for which nothing is looked up.
#[inline(always)]
fn add_bare(
    alloc: Global,
    site: &Site<'_>,
    types: &mut Types,
    noted: &mut Noted,
    kind: Bare,
    spot: Spot,
) -> Result<(), NoMemory>
    requires site { IsSite site.now types.old }
    requires kept { AreKept site.now types.old noted.old }
    requires forest { IsForest (tree_there site.now).text (tree_there site.now).entries }
    requires kind { IsOfBare kind spot.node }
    requires spot { IsSpot site.now (length noted.old.notes) spot }
    ensures extends { Extends types.old types.new }
    ensures kept { OnOk result (AreKept site.now types.new noted.new) }
    ensures count { OnOk result (length noted.new.notes ≡ spot.at + 1) }
{
    let note = bare_note(alloc, site, types, &noted.notes, kind, spot)?;
    noted.notes.push(note)?;
    noted.meanings.push(Meaning::Nothing)?;
    Ok(())
}

/// Keeps the meaning of another node, and its note.
#[inline(never)]
fn add_named(
    alloc: Global,
    site: &Site<'_>,
    types: &mut Types,
    noted: &mut Noted,
    kind: Named,
    spot: Spot,
) -> Result<(), NoMemory>
    requires site { IsSite site.now types.old }
    requires kept { AreKept site.now types.old noted.old }
    requires forest { IsForest (tree_there site.now).text (tree_there site.now).entries }
    requires kind { IsOfNamed kind spot.node }
    requires spot { IsSpot site.now (length noted.old.notes) spot }
    ensures extends { Extends types.old types.new }
    ensures kept { OnOk result (AreKept site.now types.new noted.new) }
    ensures count { OnOk result (length noted.new.notes ≡ spot.at + 1) }
{
    let inside = site.inside(noted.inside, site.here(spot.at));
    let class = inside.class;
    let before = class_before(site, types, noted, spot);
    let meaning = node_meaning(site, types, noted, spot, class, before)?;
    let note = named_note(
        alloc,
        site,
        types,
        &noted.notes,
        kind,
        spot,
        class,
        before,
        meaning,
    )?;
    noted.notes.push(note)?;
    noted.meanings.push(meaning)?;
    noted.inside = inside;
    Ok(())
}

/// Keeps the meaning of a node, and its note. Lists, and nodes without rules of their own, take the shortest way.
fn add_node(
    alloc: Global,
    site: &Site<'_>,
    types: &mut Types,
    noted: &mut Noted,
    at: u32,
) -> Result<(), NoMemory>
    requires site { IsSite site.now types.old }
    requires kept { AreKept site.now types.old noted.old }
    requires at { at ≡ length noted.old.notes }
    requires within { at < length (tree_there site.now).entries }
    requires forest { IsForest (tree_there site.now).text (tree_there site.now).entries }
    ensures extends { Extends types.old types.new }
    ensures kept { OnOk result (AreKept site.now types.new noted.new) }
    ensures count { OnOk result (length noted.new.notes ≡ at + 1) }
{
    let spot = site.spot(at);
    match group_of(spot.node) {
        Group::Link => {
            let note = link_note(types, &noted.notes, spot.node);
            add_note(site, types, noted, spot, note)
        }
        Group::Plain => {
            let note = plain_note(&Context {
                site: *site,
                types: &*types,
                notes: &noted.notes,
                spot,
            });
            add_note(site, types, noted, spot, note)
        }
        Group::Bare(kind) => add_bare(alloc, site, types, noted, kind, spot),
        Group::Named(kind) => add_named(alloc, site, types, noted, kind, site.spot(at)),
    }
}

/// The notes and meanings of all nodes of a file.
pub(crate) fn notes_of(alloc: Global, site: &Site<'_>, types: &mut Types) -> Result<Noted, NoMemory>
    requires { IsSite site.now types.old }
    ensures extends { Extends types.old types.new }
    ensures long { IfOk result (λ k. length k.notes ≡ length (tree_there site.now).entries) }
    ensures within { IfOk result (λ k. AreNotesWithin types.new k.notes) }
    ensures judged { IfOk result (λ k. (i : ℕ) → i < length (tree_there site.now).entries → note_at (shown_notes types.new k.notes) i ≡ kept (judged (scope_of site.now i) (tree_in (tree_there site.now) i))) }
    ensures resolved { IfOk result (λ k. length k.meanings.items ≡ length (tree_there site.now).entries) }
    ensures meant { IfOk result (λ k. (i : ℕ) → i < length (tree_there site.now).entries → IsMeant (table_in site.now.trees.now) (scope_of site.now i) (tree_in (tree_there site.now) i) (meaning_at k.meanings.items i)) }
{
    let nodes = site.tree().nodes();
    let mut noted = Noted::new(alloc);
    for at in 0..nodes {
        add_node(alloc, site, types, &mut noted, at)?;
    }
    Ok(noted)
}
