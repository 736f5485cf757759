// Objects of class domains.

/// An object of a class domain, by the domain's number and its own in it.
#[derive(Clone, Copy, PartialEq, Eq)]
pub struct Object {
    pub domain: u32,
    pub number: u32,
}
