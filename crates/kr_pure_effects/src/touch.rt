// The touch of a node, and whether it touches candidates.
ghost use Rattle.std.specs.Prelude.{◌≡◌, ◌<◌, List, All, length, map};
ghost use Rattle.std.proofs.Common.{get_or};
ghost use Rattle.kr_mean.specs.Program as mean;
ghost use Rattle.kr_pure_effects.specs.Vocabulary.{AreMembers, Arena, ArrayType, bare, count, domain_at, is_same, table_in, type_at, VoidType};
ghost use Rattle.kr_pure_effects.specs.Touches as spec;
ghost use Rattle.kr_pure_effects.specs.Touches.{IsTouchWithin};

use kr_classes_members::Members;
use kr_classes_names::{TypeForm, Types};
use kr_space_layout::Layout;
use kr_value::Class;

/// The touch of a node: nothing; a field of the objects of a class and of those below; the creation of objects of a class; an
/// element of arrays of a type of elements, by its number, or the creation of such arrays.
#[derive(Clone, Copy, PartialEq, Eq)]
pub enum Touch {
    Nothing,
    Fields(u32),
    Objects(u32),
    Elements(u32),
}

/// Whether an array type has elements of a type.
fn is_array_of(types: &Types, arrays: &[u32], array: u32, element: u32) -> bool
    requires arrays { All (λ t. t < count types.now) arrays.now }
    requires element { element < count types.now }
    ensures { result ≡ is_same (get_or (map (type_at types.now) arrays.now) array VoidType) (ArrayType (type_at types.now element)) }
{
    match arrays.get(array as usize) {
        None => false,
        Some(number) => match types.form(*number) {
            TypeForm::Array(own) => types.is_same(own, element),
            _ => false,
        },
    }
}

/// Whether it touches objects of a class or array type.
fn touches(types: &Types, members: &Members, arrays: &[u32], touch: Touch, class: Class) -> bool
    requires arrays { All (λ t. t < count types.now) arrays.now }
    requires touch { IsTouchWithin types.now touch }
    ensures { (files : List Arena) (program : mean.Program) → AreMembers files members.now → program.table ≡ table_in files → program.arrays ≡ map (type_at types.now) arrays.now → result ≡ spec.touches program types.now touch class }
{
    match touch {
        Touch::Nothing => false,
        Touch::Fields(declaring) => match class {
            Class::Object(own) => members.is_below(own, declaring),
            _ => false,
        },
        Touch::Objects(created) => match class {
            Class::Object(own) => created == own,
            _ => false,
        },
        Touch::Elements(element) => match class {
            Class::Array(own) => is_array_of(types, arrays, own, element),
            _ => false,
        },
    }
}

/// Whether the finitization counts objects of a class; it names array types without counting.
fn is_counted(class: Class, count: u32) -> bool
    ensures { result ≡ spec.is_counted class count }
{
    match class {
        Class::Object(_) => count > 0,
        _ => true,
    }
}

/// Whether candidates of a class domain are touched.
fn touches_domain(
    types: &Types,
    members: &Members,
    arrays: &[u32],
    layout: &Layout,
    domain: u32,
    touch: Touch,
) -> bool
    requires domain { domain < length layout.now.domains }
    requires arrays { All (λ t. t < count types.now) arrays.now }
    requires touch { IsTouchWithin types.now touch }
    ensures { (files : List Arena) (program : mean.Program) → AreMembers files members.now → program.table ≡ table_in files → program.arrays ≡ map (type_at types.now) arrays.now → result ≡ spec.touches_domain program types.now touch (domain_at (bare layout.now) domain) }
{
    let class = layout.class(domain);
    is_counted(class, layout.count(domain)) && touches(types, members, arrays, touch, class)
}

/// Whether some candidates of a problem with so many class domains are touched by something.
fn touches_one(
    types: &Types,
    members: &Members,
    arrays: &[u32],
    layout: &Layout,
    domains: u32,
    touch: Touch,
) -> bool
    requires domains { domains ≡ length layout.now.domains }
    requires arrays { All (λ t. t < count types.now) arrays.now }
    requires touch { IsTouchWithin types.now touch }
    ensures { (files : List Arena) (program : mean.Program) → AreMembers files members.now → program.table ≡ table_in files → program.arrays ≡ map (type_at types.now) arrays.now → result ≡ spec.touches_some program types.now touch layout.now.domains }
{
    for domain in 0..domains {
        if touches_domain(types, members, arrays, layout, domain, touch) {
            return true;
        }
    }
    false
}

/// Whether some candidates of a problem with so many class domains are touched, where the program has these array types.
pub fn touches_some(
    types: &Types,
    members: &Members,
    arrays: &[u32],
    layout: &Layout,
    domains: u32,
    touch: Touch,
) -> bool
    requires domains { domains ≡ length layout.now.domains }
    requires arrays { All (λ t. t < count types.now) arrays.now }
    requires touch { IsTouchWithin types.now touch }
    ensures { (files : List Arena) (program : mean.Program) → AreMembers files members.now → program.table ≡ table_in files → program.arrays ≡ map (type_at types.now) arrays.now → result ≡ spec.touches_some program types.now touch layout.now.domains }
{
    match touch {
        Touch::Nothing => false,
        _ => touches_one(types, members, arrays, layout, domains, touch),
    }
}
