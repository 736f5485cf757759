// The contents of a finitization.

use crate::list::Listed;
use crate::text::Text;

/// A value of a domain, or several: a number, the numbers of a range with both its ends, a truth value, or a name:
/// `null`, or an object domain or array type, which stands for all its objects.
#[derive(Drop)]
pub enum Item {
    Number(i64),
    Range(i64, i64),
    Truth(bool),
    Name(Text),
}

/// The values that a slot may have, in their order.
pub type Domain = Listed<Item>;

/// An object domain: its name, the class of its objects, and how many it has. In version 1 the name is the class's.
#[derive(Drop)]
pub struct Count {
    pub name: Text,
    pub class: Text,
    pub count: u32,
}

/// An array type, how many arrays it has, and which lengths they have.
#[derive(Drop)]
pub struct ArrayBound {
    pub name: Text,
    pub count: u32,
    pub lengths: Domain,
}

/// A field, the elements of an array type, or a parameter, and which values it has.
#[derive(Drop)]
pub struct NamedDomain {
    pub key: Text,
    pub domain: Domain,
}

/// A finitization. Each list is in the order in which the TOML table has its keys.
#[derive(Drop)]
pub struct FinDoc {
    /// 1, or 2: whether names are those of classes, or of object domains.
    pub version: u32,
    pub root: Text,
    pub fuel: u64,
    pub objects: Listed<Count>,
    pub arrays: Listed<ArrayBound>,
    pub fields: Listed<NamedDomain>,
    pub params: Listed<NamedDomain>,
}
