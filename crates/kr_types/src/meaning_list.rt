// The meanings of a file's nodes, most of which have none.
ghost use Rattle.std.specs.Prelude.{◌≡◌, ◌<◌, ◌++◌, ◌∷◌, [], true, OnOk, Some, length, slice_get};
ghost use Rattle.kr_types_resolving.specs.declared.meaning.Meaning.TheVariants.{Nothing};

use kr_base::NoMemory;
use kr_sparse::Sparse;
use kr_types_resolving::Meaning;
use std::alloc::Global;
use std::marker::Model;

/// The meanings of nodes in order. Stretches of nodes without meaning take no room. Contracts see the list of the meanings.
#[derive(Drop)]
pub struct MeaningList {
    kept: Sparse<Meaning>,
}

impl Model for MeaningList {
    ghost use Rattle.std.specs.Prelude.{◌≡◌};
    ghost use Rattle.kr_types_resolving.specs.declared.meaning.Meaning.TheVariants.{Nothing};
    ghost use Rattle.kr_types.specs.MeaningLists.{Meanings};

    ghost Value = { Meanings };

    ghost view = { λ m. record { items = m.kept.items } };

    ghost invariant = { λ m. m.kept.usual ≡ Nothing };
}

/// Whether a node has no meaning.
fn is_nothing(meaning: Meaning) -> bool
    ensures { result ≡ true → meaning ≡ Nothing }
{
    matches!(meaning, Meaning::Nothing)
}

impl MeaningList {
    /// No meanings. Allocates nothing.
    pub(crate) fn new(alloc: Global) -> MeaningList
        ensures { result.items ≡ [] }
    {
        MeaningList {
            kept: Sparse::new(alloc, Meaning::Nothing),
        }
    }

    /// The meaning of a node.
    #[inline(always)]
    pub(crate) fn at(&self, node: u32) -> Meaning
        requires { node < length self.now.items }
        ensures { slice_get self.now.items node ≡ Some result }
    {
        self.kept.at(node as usize)
    }

    /// Adds the meaning of the next node.
    #[inline(always)]
    pub(crate) fn push(&mut self, meaning: Meaning) -> Result<(), NoMemory>
        ensures { OnOk result (self.new.items ≡ self.old.items ++ meaning ∷ []) }
    {
        self.kept.push(meaning, is_nothing(meaning))?;
        Ok(())
    }
}
