// The tables of a finitization, their keys and limits.
ghost use Rattle.std.specs.Prelude.{◌≡◌, position};
ghost use Rattle.kr_fin.specs.Shapes as spec;

use crate::identifier::is_identifier;

/// A table whose keys are fixed: the whole document, a range, an array type's bound, or an object domain.
#[derive(Clone, Copy, PartialEq, Eq)]
pub enum Shape {
    Document,
    Range,
    Array,
    ObjectDomain,
}

/// A table whose keys are names: `Objects` is that of version 1, which counts the objects of classes, `Domains` that of
/// version 2, which has object domains.
#[derive(Clone, Copy, PartialEq, Eq)]
pub enum Section {
    Objects,
    Domains,
    Arrays,
    Fields,
    Params,
}

/// The use of a list of values: the lengths of arrays, or a slot.
#[derive(Clone, Copy, PartialEq, Eq)]
pub enum Purpose {
    Lengths,
    Slot,
}

/// The least and the greatest of some numbers.
#[derive(Clone, Copy, PartialEq, Eq)]
pub struct Limits {
    pub low: i64,
    pub high: i64,
}

impl Shape {
    /// Whether the table may have the key.
    pub(crate) fn knows(self, key: &str) -> bool
        ensures { result ≡ spec.knows self key.now }
    {
        match self {
            Shape::Document => is_document_key(key),
            Shape::Range => key == "from" || key == "to",
            Shape::Array => key == "count" || key == "lengths",
            Shape::ObjectDomain => key == "class" || key == "count",
        }
    }
}

fn is_document_key(key: &str) -> bool
    ensures { result ≡ spec.knows Shape.Document key.now }
{
    key == "version"
        || key == "root"
        || key == "fuel"
        || key == "objects"
        || key == "arrays"
        || key == "fields"
        || key == "params"
}

impl Section {
    /// The table's key in the document.
    pub(crate) fn name(self) -> &'static str
        ensures { result.now ≡ spec.name_of self }
    {
        match self {
            Section::Objects => "objects",
            Section::Domains => "objects",
            Section::Arrays => "arrays",
            Section::Fields => "fields",
            Section::Params => "params",
        }
    }
}

impl Purpose {
    /// The limits of its numbers.
    pub(crate) fn limits(self) -> Limits
        ensures { result ≡ spec.limits_of self }
    {
        match self {
            Purpose::Lengths => COUNTS,
            Purpose::Slot => Limits {
                low: i64::MIN,
                high: i64::MAX,
            },
        }
    }
}

/// The limits of counts and lengths.
pub(crate) const COUNTS: Limits = Limits { low: 0, high: 64 };

/// The versions of the format.
pub(crate) const VERSIONS: Limits = Limits { low: 1, high: 2 };

/// The limits of the fuel.
pub(crate) const FUEL: Limits = Limits {
    low: 1,
    high: 1_000_000_000,
};

impl Limits {
    pub(crate) fn have(self, number: i64) -> bool
        ensures { result ≡ spec.have self number }
    {
        self.low <= number && number <= self.high
    }
}

fn has_no_dot(text: &[u8]) -> bool
    ensures { result ≡ spec.has_no_dot text.now }
{
    text.iter().all(|byte| *byte != b'.')
}

// Whether the text is something without a dot.
fn is_part(text: &[u8]) -> bool
    ensures { result ≡ spec.is_part text.now }
{
    !text.is_empty() && has_no_dot(text)
}

fn first_dot(text: &[u8]) -> Option<usize>
    ensures { result ≡ position spec.is_dot text.now }
{
    text.iter().position(|byte| *byte == b'.')
}

/// Whether the key is two parts with a dot between them.
pub(crate) fn is_pair(key: &[u8]) -> bool
    ensures { result ≡ spec.is_pair key.now }
{
    match first_dot(key) {
        Some(at) => is_part(&key[..at]) && is_part(&key[at + 1..]),
        None => false,
    }
}

/// Whether an object domain may have the name: an identifier other than `null`.
pub fn is_domain_name(key: &str) -> bool
    ensures { result ≡ spec.is_domain_name key.now }
{
    is_identifier(key) && key != "null"
}
