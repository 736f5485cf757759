// The predefined classes.
ghost use Rattle.std.specs.Prelude.{drop, ◌≡◌, ◌+◌, ◌≤◌, ◌∷◌, ◌++◌, [], List, ℕ, IfOk, length};
ghost use Rattle.kr_ast.specs.Arena.{root, tree_in, trees};
ghost use Rattle.kr_ast.specs.Forest.{AreRoots};
ghost use Rattle.kr_ast.specs.Tree.{Cons};
ghost use Rattle.kr_classes_table.specs.Predefined.{class_tree, extended_tree, is_predefined, listed_before, predefined, predefined_classes, start_of as start_place};

use kr_ast::{Forest, Node, Tree};
use kr_base::{NoMemory, Place};
use std::alloc::Global;

/// How many predefined classes there are.
pub const PREDEFINED_CLASSES: usize = 13;

/// Whether a predefined class has this name.
pub fn is_predefined(name: &[u8]) -> bool
    ensures { result ≡ is_predefined name.now }
{
    name == b"Throwable".as_slice()
        || name == b"Exception".as_slice()
        || name == b"RuntimeException".as_slice()
        || name == b"NullPointerException".as_slice()
        || name == b"ArithmeticException".as_slice()
        || name == b"IndexOutOfBoundsException".as_slice()
        || name == b"NegativeArraySizeException".as_slice()
        || name == b"ClassCastException".as_slice()
        || name == b"NoSuchElementException".as_slice()
        || name == b"IllegalStateException".as_slice()
        || name == b"IllegalArgumentException".as_slice()
        || name == b"UnsupportedOperationException".as_slice()
        || name == b"ArrayIndexOutOfBoundsException".as_slice()
}

/// The place of a predefined class, before the first line of the first file.
fn start_of(number: u32) -> Place
    ensures { result ≡ start_place number }
{
    Place {
        file: 0,
        line: 0,
        col: number,
    }
}

/// Adds the name of the extended class, if any.
fn put_extended(forest: &mut Forest, place: Place, name: &[u8]) -> Result<u32, NoMemory>
    ensures at { IfOk result (λ at. at ≡ length forest.old.entries) }
    ensures count { IfOk result (λ at. length forest.new.entries ≡ length forest.old.entries + 1) }
    ensures trees { IfOk result (λ at. trees forest.new.text forest.new.entries ≡ trees forest.old.text forest.old.entries ++ extended_tree place name.now ∷ []) }
    ensures roots { IfOk result (λ at. (rest : List ℕ) → AreRoots forest.old.entries rest → AreRoots forest.new.entries (at ∷ rest)) }
{
    if name.is_empty() {
        return forest.put(place, Node::Nil);
    }
    let shown = forest.add_name(name)?;
    forest.put(place, Node::NamedType { name: shown })
}

/// Adds a class in front of a list of classes.
fn put_class(
    forest: &mut Forest,
    number: u32,
    name: &[u8],
    extended: &[u8],
    rest: u32,
) -> Result<u32, NoMemory>
    requires { AreRoots forest.old.entries (rest ∷ []) }
    ensures count { IfOk result (λ at. (at + 1 ≡ length forest.new.entries) × (length forest.new.entries ≡ length forest.old.entries + 4)) }
    ensures tree { IfOk result (λ at. tree_in forest.new at ≡ Cons (class_tree number (record { name = name.now; extended = extended.now })) (tree_in forest.old rest)) }
    ensures roots { IfOk result (λ at. AreRoots forest.new.entries (at ∷ [])) }
{
    let place = start_of(number);
    let members = forest.put(place, Node::Nil)?;
    let above = put_extended(forest, place, extended)?;
    let shown = forest.add_name(name)?;
    let class = forest.put(
        place,
        Node::Class {
            name: shown,
            extended: above,
            members,
        },
    )?;
    forest.put(place, Node::Cons { first: class, rest })
}

/// Adds the classes that extend RuntimeException, and the one below one of these, last first.
fn put_unchecked(forest: &mut Forest, rest: u32) -> Result<u32, NoMemory>
    requires { AreRoots forest.old.entries (rest ∷ []) }
    ensures count { IfOk result (λ at. (at + 1 ≡ length forest.new.entries) × (length forest.new.entries ≡ length forest.old.entries + 40)) }
    ensures tree { IfOk result (λ at. tree_in forest.new at ≡ listed_before 3 (drop 3 predefined_classes) (tree_in forest.old rest)) }
    ensures roots { IfOk result (λ at. AreRoots forest.new.entries (at ∷ [])) }
{
    let above = b"RuntimeException".as_slice();
    let index = b"IndexOutOfBoundsException".as_slice();
    let at = put_class(forest, 12, b"ArrayIndexOutOfBoundsException", index, rest)?;
    let at = put_class(forest, 11, b"UnsupportedOperationException", above, at)?;
    let at = put_class(forest, 10, b"IllegalArgumentException", above, at)?;
    let at = put_class(forest, 9, b"IllegalStateException", above, at)?;
    let at = put_class(forest, 8, b"NoSuchElementException", above, at)?;
    let at = put_class(forest, 7, b"ClassCastException", above, at)?;
    let at = put_class(forest, 6, b"NegativeArraySizeException", above, at)?;
    let at = put_class(forest, 5, index, above, at)?;
    let at = put_class(forest, 4, b"ArithmeticException", above, at)?;
    put_class(forest, 3, b"NullPointerException", above, at)
}

/// Adds all predefined classes.
fn put_classes(forest: &mut Forest) -> Result<u32, NoMemory>
    requires { forest.old.entries ≡ [] }
    ensures count { IfOk result (λ at. (at + 1 ≡ length forest.new.entries) × (length forest.new.entries ≡ 53)) }
    ensures tree { IfOk result (λ at. tree_in forest.new at ≡ predefined) }
    ensures roots { IfOk result (λ at. AreRoots forest.new.entries (at ∷ [])) }
{
    let rest = forest.put(start_of(0), Node::Nil)?;
    let at = put_unchecked(forest, rest)?;
    let at = put_class(forest, 2, b"RuntimeException", b"Exception", at)?;
    let at = put_class(forest, 1, b"Exception", b"Throwable", at)?;
    put_class(forest, 0, b"Throwable", b"", at)
}

/// The tree of the predefined classes.
pub fn predefined_tree(alloc: Global) -> Result<Tree, NoMemory>
    ensures tree { IfOk result (λ tree. root tree ≡ predefined) }
    ensures small { IfOk result (λ tree. length tree.entries ≡ 53) }
{
    let mut forest = Forest::new(alloc);
    let _ = put_classes(&mut forest)?;
    Ok(forest.finish())
}
