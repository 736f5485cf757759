// Entries of domains.

use kr_value::Value;

/// An entry of a domain: a plain value, the integers from one to another, both included, or all objects of a class domain.
#[derive(Clone, Copy, PartialEq, Eq)]
pub enum DomainEntry {
    Plain(Value),
    Integers(i64, i64),
    Objects(u32),
}
