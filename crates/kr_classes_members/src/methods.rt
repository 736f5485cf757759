// The methods and constructors that a class declares itself.
ghost use Rattle.std.specs.Prelude.{◌≡◌, ◌<◌, ◌∷◌, [], None, Some, IfOk, IfSome, length, map, flat_map, All, option_map, option_to_list};
ghost use Rattle.kr_ast.specs.Arena.{AreNamesIn, name_in, tree_in};
ghost use Rattle.kr_classes_table.specs.Table.{constructors_in, methods_in, method_with};
ghost use Rattle.kr_classes_names.specs.Listed.{IsIndexOf};
ghost use Rattle.kr_ast.specs.Files.{file_at};
ghost use Rattle.kr_classes_members.specs.Shown.{IsConstructor, IsMethod, constructor_shown, headings_in, method_name, method_shown};

use kr_ast::{Name, Node, Tree, tree_of};
use kr_base::{NoMemory, Place, add_found};
use kr_classes_names::Index;
use kr_classes_table::ClassId;
use std::alloc::Global;

/// A method: the class that declares it, the node of its result's type, and the lists of its parameters, contract lines
/// and statements.
#[derive(Clone, Copy)]
pub struct Method {
    pub file: u32,
    pub class: ClassId,
    pub name: Name,
    pub place: Place,
    pub is_static: bool,
    pub parameters: u32,
    pub result: u32,
    pub contracts: u32,
    pub body: u32,
}

/// A constructor: the lists of its parameters and statements, and the node of the call of the superclass's constructor,
/// which may be absent.
#[derive(Clone, Copy)]
pub struct Constructor {
    pub file: u32,
    pub class: ClassId,
    pub place: Place,
    pub parameters: u32,
    pub super_call: u32,
    pub body: u32,
}

/// A method before its signature is read.
#[derive(Clone, Copy)]
struct Declared {
    file: u32,
    class: ClassId,
    name: Name,
    place: Place,
    is_static: bool,
    body: u32,
}

/// A method with its signature.
fn with_signature(trees: &[Tree], method: Declared, signature: u32) -> Option<Method>
    requires file { method.file < length trees.now }
    requires name { AreNamesIn (file_at trees.now method.file).text (method.name ∷ []) }
    requires body { method.body < length (file_at trees.now method.file).entries }
    requires signature { signature < length (file_at trees.now method.file).entries }
    ensures stands { IfSome result (λ m. IsMethod trees.now m) }
    ensures shown { option_to_list (option_map (method_shown trees.now) result) ≡ method_with (headings_in trees.now) method.class method.place method.is_static (name_in (file_at trees.now method.file).text method.name) (tree_in (file_at trees.now method.file) method.body) (tree_in (file_at trees.now method.file) signature) }
{
    match tree_of(trees, method.file).entry(signature).node {
        Node::Signature {
            result,
            parameters,
            contracts,
        } => Some(Method {
            file: method.file,
            class: method.class,
            name: method.name,
            place: method.place,
            is_static: method.is_static,
            parameters,
            result,
            contracts,
            body: method.body,
        }),
        _ => None,
    }
}

/// The method that a member is.
fn method_in(trees: &[Tree], file: u32, class: ClassId, member: u32) -> Option<Method>
    requires file { file < length trees.now }
    requires member { member < length (file_at trees.now file).entries }
    ensures stands { IfSome result (λ m. IsMethod trees.now m) }
    ensures shown { option_to_list (option_map (method_shown trees.now) result) ≡ methods_in (headings_in trees.now) class (tree_in (file_at trees.now file) member) }
{
    let entry = tree_of(trees, file).entry(member);
    match entry.node {
        Node::Method {
            is_static,
            name,
            signature,
            body,
        } => {
            let method = Declared {
                file,
                class,
                name,
                place: entry.place,
                is_static,
                body,
            };
            with_signature(trees, method, signature)
        }
        _ => None,
    }
}

/// The methods among members.
pub(crate) fn own_methods(
    alloc: Global,
    trees: &[Tree],
    file: u32,
    class: ClassId,
    members: &[u32],
) -> Result<Vec<Method>, NoMemory>
    requires file { file < length trees.now }
    requires members { All (λ n. n < length (file_at trees.now file).entries) members.now }
    ensures stands { IfOk result (λ methods. All (IsMethod trees.now) methods.items) }
    ensures shown { IfOk result (λ methods. map (method_shown trees.now) methods.items ≡ flat_map (λ n. methods_in (headings_in trees.now) class (tree_in (file_at trees.now file) n)) members.now) }
{
    let mut methods = Vec::new(alloc);
    for member in members {
        add_found(&mut methods, method_in(trees, file, class, *member))?;
    }
    Ok(methods)
}

/// The methods by their names.
pub(crate) fn method_index(
    alloc: Global,
    trees: &[Tree],
    methods: &[Method],
) -> Result<Index, NoMemory>
    requires stands { All (IsMethod trees.now) methods.now }
    ensures { IfOk result (λ index. IsIndexOf (map (method_name trees.now) methods.now) index) }
{
    let count = methods.len();
    if count >= 0xffff_ffff {
        return Err(NoMemory::at_limit(methods));
    }
    let mut index = Index::new(alloc);
    for (number, method) in methods.iter().enumerate() {
        let name = tree_of(trees, method.file).name(method.name);
        index.add(alloc, name, number as u32)?;
    }
    Ok(index)
}

/// The constructor that a member is.
fn constructor_in(trees: &[Tree], file: u32, class: ClassId, member: u32) -> Option<Constructor>
    requires file { file < length trees.now }
    requires member { member < length (file_at trees.now file).entries }
    ensures stands { IfSome result (λ k. IsConstructor trees.now k) }
    ensures shown { option_to_list (option_map (constructor_shown trees.now) result) ≡ constructors_in (headings_in trees.now) (tree_in (file_at trees.now file) member) }
{
    let entry = tree_of(trees, file).entry(member);
    match entry.node {
        Node::Constructor {
            parameters,
            super_call,
            body,
        } => Some(Constructor {
            file,
            class,
            place: entry.place,
            parameters,
            super_call,
            body,
        }),
        _ => None,
    }
}

/// The constructors among members.
pub(crate) fn own_constructors(
    alloc: Global,
    trees: &[Tree],
    file: u32,
    class: ClassId,
    members: &[u32],
) -> Result<Vec<Constructor>, NoMemory>
    requires file { file < length trees.now }
    requires members { All (λ n. n < length (file_at trees.now file).entries) members.now }
    ensures stands { IfOk result (λ constructors. All (IsConstructor trees.now) constructors.items) }
    ensures shown { IfOk result (λ constructors. map (constructor_shown trees.now) constructors.items ≡ flat_map (λ n. constructors_in (headings_in trees.now) (tree_in (file_at trees.now file) n)) members.now) }
{
    let mut constructors = Vec::new(alloc);
    for member in members {
        add_found(
            &mut constructors,
            constructor_in(trees, file, class, *member),
        )?;
    }
    Ok(constructors)
}
