// Notes of nodes that have a meaning, or for which a class is looked up.
ghost use Rattle.std.specs.Prelude.{◌≡◌, IfOk};
ghost use Rattle.kr_types.specs.Sites.{IsContext, IsNoted, scope_of, IsBefore, IsMeantBy};
ghost use Rattle.kr_types.specs.Kinds.{IsNamed, IsAccess, IsCall, IsDeclaration};
ghost use Rattle.kr_types_expressions.specs.Notes.{shown_notes};

use crate::context::Context;
use kr_ast::Node;
use kr_base::NoMemory;
use kr_classes_table::ClassId;
use kr_types_expressions::{
    call_note, constructor_call_note, creation_note, field_note, method_call_note, super_call_note,
    variable_note,
};
use kr_types_judging::{ClassTypes, Note, plain};
use kr_types_resolving::Meaning;
use kr_types_statements::{class_note, constructor_note, declarator_note, parameter_note};
use std::alloc::Global;

/// The note of a variable, of a declarator or of a parameter: the node of a number, in its scope.
pub(crate) fn name_note(context: &Context<'_, '_>, class: ClassId) -> Note
    requires context { IsContext context.now }
    requires class { (scope_of context.now.site context.now.spot.at).class ≡ class }
    requires kind { IsNamed context.now.spot.node }
    ensures { IsNoted context.now result }
{
    let classes = ClassTypes {
        trees: context.site.trees,
        types: context.types,
        members: context.site.members,
        node_types: context.site.numbers,
    };
    match context.spot.node {
        Node::Variable { name } => variable_note(
            &classes,
            context.site.scopes,
            context.site.file,
            context.spot.at,
            context.spot.place,
            class,
            context.site.tree().name(name),
        ),
        Node::Declarator { name, initial } => declarator_note(
            &classes,
            context.site.values,
            context.site.scopes,
            context.site.file,
            context.spot.at,
            context.spot.place,
            context.site.tree().name(name),
            context.part(initial),
        ),
        Node::Parameter { declared, name } => parameter_note(
            context.site.trees,
            context.types,
            context.site.scopes,
            context.site.file,
            context.spot.at,
            context.spot.place,
            context.site.tree().name(name),
            context.part(declared),
        ),
        _ => plain(None),
    }
}

/// The note of a node after a dot, by its number, in its scope.
pub(crate) fn access_note(
    alloc: Global,
    context: &Context<'_, '_>,
    before: Option<ClassId>,
) -> Result<Note, NoMemory>
    requires context { IsContext context.now }
    requires kind { IsAccess context.now.spot.node }
    requires before { IsBefore context.now.site context.now.spot.at context.now.spot.node before }
    ensures { IfOk result (λ note. IsNoted context.now note) }
{
    let classes = ClassTypes {
        trees: context.site.trees,
        types: context.types,
        members: context.site.members,
        node_types: context.site.numbers,
    };
    match context.spot.node {
        Node::FieldAccess { object, name } => Ok(field_note(
            &classes,
            context.here(),
            context.spot.place,
            context.site.tree().name(name),
            before,
            context.part(object),
        )),
        Node::MethodCall {
            object,
            name,
            arguments,
        } => {
            let x = context.part(object);
            let y = context.part(arguments);
            method_call_note(
                alloc,
                &classes,
                context.notes,
                context.here(),
                context.spot.place,
                context.site.tree().name(name),
                before,
                x,
                y,
            )
        }
        _ => Ok(plain(None)),
    }
}

/// The note of a call of a method of the class or of an ancestor, or of a constructor.
pub(crate) fn call_group_note(
    alloc: Global,
    context: &Context<'_, '_>,
    class: ClassId,
    meaning: Meaning,
) -> Result<Note, NoMemory>
    requires context { IsContext context.now }
    requires class { (scope_of context.now.site context.now.spot.at).class ≡ class }
    requires kind { IsCall context.now.spot.node }
    requires meant { IsMeantBy context.now.site (shown_notes context.now.types.now context.now.notes.now) context.now.spot.at context.now.spot.node meaning }
    ensures { IfOk result (λ note. IsNoted context.now note) }
{
    let classes = ClassTypes {
        trees: context.site.trees,
        types: context.types,
        members: context.site.members,
        node_types: context.site.numbers,
    };
    match context.spot.node {
        Node::Call { arguments, .. } => call_note(
            alloc,
            &classes,
            context.notes,
            context.here(),
            context.spot.place,
            context.site.method_at(meaning.method()),
            context.part(arguments),
        ),
        Node::SuperCall { arguments, .. } => super_call_note(
            alloc,
            &classes,
            context.notes,
            context.here(),
            context.spot.place,
            context.site.method_at(meaning.super_method()),
            context.part(arguments),
        ),
        Node::ConstructorCall { arguments } => constructor_call_note(
            alloc,
            &classes,
            context.notes,
            context.here(),
            context.spot.place,
            class,
            context.part(arguments),
        ),
        Node::ObjectCreation { class, arguments } => {
            let x = context.part(class);
            let y = context.part(arguments);
            creation_note(
                alloc,
                &classes,
                context.notes,
                context.here(),
                context.spot.place,
                x,
                y,
            )
        }
        _ => Ok(plain(None)),
    }
}

/// The note of a class or of a constructor.
pub(crate) fn declaration_note(context: &Context<'_, '_>, class: ClassId) -> Note
    requires context { IsContext context.now }
    requires class { (scope_of context.now.site context.now.spot.at).class ≡ class }
    requires kind { IsDeclaration context.now.spot.node }
    ensures { IsNoted context.now result }
{
    let classes = ClassTypes {
        trees: context.site.trees,
        types: context.types,
        members: context.site.members,
        node_types: context.site.numbers,
    };
    match context.spot.node {
        Node::Class { name, members, .. } => class_note(
            &classes,
            context.site.heads,
            context.spot.place,
            context.site.tree().name(name),
            context.part(members),
        ),
        Node::Constructor {
            parameters,
            super_call,
            body,
        } => {
            let x = context.part(parameters);
            let y = context.part(super_call);
            let z = context.part(body);
            constructor_note(&classes, class, context.spot.place, x, y, z)
        }
        _ => plain(None),
    }
}
