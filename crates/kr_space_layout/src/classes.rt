// Class domains.

use kr_fin::Listed;
use kr_value::{Class, Spot};

/// Where an object has a value, and the number of the domain that the value is of.
#[derive(Clone, Copy, PartialEq, Eq)]
pub struct Spotted {
    pub spot: Spot,
    pub domain: u32,
}

/// The objects of one class or array type: the bytes of its name, what they are of, how many there are, and where each has values.
#[derive(Drop)]
pub struct ClassDomain {
    pub name: Listed<u8>,
    pub class: Class,
    pub count: u32,
    pub spots: Listed<Spotted>,
}
