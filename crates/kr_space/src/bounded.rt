// A document beside a program, as the rules on numbers need them.

use kr_fin::FinDoc;
use kr_mean::Mode;
use kr_space_layout::Block;
use kr_space_rules::{Bound, Classes, Declared};

/// The classes, the document and the mode, with the object domains that the document declares, the array types that it bounds
/// and the objects of both.
#[derive(Drop)]
pub(crate) struct Bounded<'b> {
    pub(crate) classes: &'b Classes<'b>,
    pub(crate) document: &'b FinDoc,
    pub(crate) mode: &'b Mode,
    pub(crate) objects: &'b [Declared],
    pub(crate) bounds: &'b [Bound],
    pub(crate) blocks: &'b [Block],
}
