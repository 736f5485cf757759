// The parts of the problem of a document.

use crate::keys::Keys;
use kr_fin::FinDoc;
use kr_space_rules::{Bound, Classes, Declared};

/// The classes and a document beside them, with the keys of its tables, the object domains that it declares and the array
/// types that it bounds.
#[derive(Drop)]
pub(crate) struct Basis<'b> {
    pub(crate) classes: &'b Classes<'b>,
    pub(crate) document: &'b FinDoc,
    pub(crate) keys: &'b Keys,
    pub(crate) objects: &'b [Declared],
    pub(crate) bounds: &'b [Bound],
}
