// Classes whose construction the creation of an object runs.
ghost use Rattle.std.specs.Prelude.{◌≡◌, ◌<◌, ◌&&◌, List, length, nat_lt};
ghost use Rattle.kr_emit.specs.Vocabulary.{AreMembers, Arena, bare, domain_at, is_built, is_class_below, is_counted, table_in};

use kr_classes_members::Members;
use kr_classes_table::ClassId;
use kr_space_layout::Layout;
use kr_value::Class;

/// Whether objects are of a class, or of one below it.
fn is_class_below(members: &Members, class: ClassId, objects: Class) -> bool
    ensures { (files : List Arena) → AreMembers files members.now → result ≡ is_class_below (table_in files) class objects }
{
    match objects {
        Class::Object(number) => members.is_below(number, class),
        Class::Array(_) => false,
        Class::Set => false,
        Class::List => false,
    }
}

/// Whether a class domain has objects of a class, or of one below it.
fn is_counted(members: &Members, layout: &Layout, class: ClassId, domain: u32) -> bool
    requires { domain < length layout.now.domains }
    ensures { (files : List Arena) → AreMembers files members.now → result ≡ is_counted (table_in files) class (domain_at (bare layout.now) domain) }
{
    layout.count(domain) > 0 && is_class_below(members, class, layout.class(domain))
}

/// Whether a class has objects, or is an ancestor of one that has.
pub(crate) fn is_built(members: &Members, layout: &Layout, class: ClassId) -> bool
    requires { length layout.now.domains < 4294967296 }
    ensures { (files : List Arena) → AreMembers files members.now → result ≡ is_built (table_in files) class layout.now.domains }
{
    let domains = layout.domains() as u32;
    for domain in 0..domains {
        if is_counted(members, layout, class, domain) {
            return true;
        }
    }
    false
}
