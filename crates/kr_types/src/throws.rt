// Notes of `throw`, `catch` and `signals`.
ghost use Rattle.std.specs.Prelude.{◌≡◌, length, IfOk};
ghost use Rattle.kr_types.specs.Vocabulary.{AreNotesWithin, Extends, IsThrowable};
ghost use Rattle.kr_types.specs.Sites.{IsContext, IsNoted, IsSite, IsSpot, IsSpotNote};
ghost use Rattle.kr_types.specs.Kinds.{IsThrown};

use crate::context::Context;
use crate::site::{Site, Spot};
use kr_ast::Node;
use kr_base::NoMemory;
use kr_classes_names::{Types, type_of_name};
use kr_classes_table::TypeId;
use kr_types_expressions::NoteList;
use kr_types_judging::{ClassTypes, Note, plain};
use kr_types_statements::{catch_note, signals_note, throw_note};
use std::alloc::Global;

/// The note, by the number of the type that `Throwable` means.
fn note_by(context: &Context<'_, '_>, throwable: TypeId) -> Note
    requires context { IsContext context.now }
    requires throwable { IsThrowable context.now.site.trees.now context.now.types.now throwable }
    requires kind { IsThrown context.now.spot.node }
    ensures { IsNoted context.now result }
{
    let classes = ClassTypes {
        trees: context.site.trees,
        types: context.types,
        members: context.site.members,
        node_types: context.site.numbers,
    };
    match context.spot.node {
        Node::Throw { thrown } => {
            let x = context.part(thrown);
            throw_note(&classes, throwable, context.spot.place, x)
        }
        Node::Catch { declared, body } => {
            let x = context.part(declared);
            let y = context.part(body);
            catch_note(
                &classes,
                throwable,
                context.site.file,
                declared,
                context.spot.place,
                x,
                y,
            )
        }
        Node::Signals {
            declared,
            condition,
        } => {
            let x = context.part(declared);
            let y = context.part(condition);
            signals_note(
                &classes,
                throwable,
                context.site.file,
                declared,
                context.here(),
                context.spot.place,
                x,
                y,
            )
        }
        _ => plain(None),
    }
}

/// The note of `throw`, `catch` or `signals`.
pub(crate) fn thrown_note(
    alloc: Global,
    site: &Site<'_>,
    types: &mut Types,
    notes: &NoteList,
    spot: Spot,
) -> Result<Note, NoMemory>
    requires site { IsSite site.now types.old }
    requires notes { AreNotesWithin types.old notes.now }
    requires spot { IsSpot site.now (length notes.now) spot }
    requires kind { IsThrown spot.node }
    ensures extends { Extends types.old types.new }
    ensures note { IfOk result (λ note. IsSpotNote site.now types.new notes.now spot note) }
{
    let throwable = type_of_name(alloc, site.heads, types, b"Throwable".as_slice())?;
    let context = Context {
        site: *site,
        types: &*types,
        notes,
        spot,
    };
    Ok(note_by(&context, throwable))
}
