// The values of a domain.
ghost use Rattle.std.specs.Prelude.{◌≡◌, ◌<◌, ◌≤◌, ◌++◌, ◌∷◌, [], All, IfOk, OnOk, length, map};
ghost use Rattle.std.proofs.Common.{get_or};
ghost use Rattle.kr_mean.specs.Space.{no_choice};
ghost use Rattle.kr_space_layout.specs.Shapes.{IsShape};
ghost use Rattle.kr_space_layout.specs.Stretches.{IsLast, IsNumbered, Fits, all_choices, chosen, no_piece, stretch_of};

use crate::DomainEntry;
use crate::shape::Shape;
use crate::stretch::{Block, Chosen, Stretch};
use kr_base::NoMemory;
use std::alloc::Global;
use std::marker::Model;

/// A stretch, and how many values of the domain precede it.
#[derive(Clone, Copy)]
struct Piece {
    start: u32,
    stretch: Stretch,
}

/// The values of a domain, in order. Contracts see the stretches that they are made of.
#[derive(Drop)]
pub struct Values {
    pieces: Vec<Piece>,
    size: u32,
    shape: Shape,
}

impl Model for Values {
    ghost use Rattle.std.specs.Prelude.{List};
    ghost use Rattle.kr_space_layout.specs.declared.stretch.Stretch.{Stretch};
    ghost use Rattle.kr_space_layout.specs.Stretches.{ArePieces, all_choices, stretches_of};
    ghost use Rattle.kr_space_layout.specs.Shapes.{IsShape};

    ghost Value = { List Stretch };

    ghost view = { λ v. stretches_of v.pieces.items };

    ghost invariant = { λ v. ArePieces v.pieces.items v.size × IsShape (all_choices (stretches_of v.pieces.items)) v.shape };
}

/// The last piece that begins at an index or before it.
#[inline(always)]
fn piece_at(pieces: &[Piece], index: u32) -> usize
    requires some { 0 < length pieces.now }
    requires from { (get_or pieces.now 0 no_piece).start ≤ index }
    ensures { IsLast pieces.now index result }
{
    let mut low = 0;
    let mut high = pieces.len() - 1;
    if pieces[high].start <= index {
        return high;
    }
    while low + 1 < high {
        let middle = low + (high - low) / 2;
        if pieces[middle].start <= index {
            low = middle;
        } else {
            high = middle;
        }
    }
    low
}

impl Values {
    /// No values. It takes no memory.
    fn new(alloc: Global) -> Values
        ensures { result ≡ [] }
    {
        Values {
            pieces: Vec::new(alloc),
            size: 0,
            shape: Shape::none(),
        }
    }

    /// Adds the values of a stretch at the end. There may be 2^32 - 1 values in all.
    fn push(&mut self, stretch: Stretch) -> Result<(), NoMemory>
        requires { Fits stretch }
        ensures { OnOk result (self.new ≡ self.old ++ stretch ∷ []) }
    {
        let total = u128::from(self.size) + stretch.count();
        let Ok(size) = u32::try_from(total) else {
            return Err(NoMemory::at_sum(u64::from(self.size), stretch.capped_count()));
        };
        let start = self.size;
        let shape = self.shape.with(stretch, size);
        self.pieces.push(Piece { start, stretch })?;
        self.size = size;
        self.shape = shape;
        Ok(())
    }

    /// The values of these entries, where these are the objects of the class domains.
    pub fn of(alloc: Global, items: &[DomainEntry], blocks: &[Block]) -> Result<Values, NoMemory>
        requires { All IsNumbered blocks.now }
        ensures { IfOk result (λ values. values ≡ map (stretch_of blocks.now) items.now) }
    {
        let mut values = Values::new(alloc);
        for item in items {
            values.push(Stretch::of(*item, blocks))?;
        }
        Ok(values)
    }

    /// How many there are.
    pub fn size(&self) -> u32
        ensures { result ≡ length (all_choices self.now) }
    {
        self.size
    }

    /// The positions of the objects among them.
    pub(crate) fn shape(&self) -> Shape
        ensures { IsShape (all_choices self.now) result }
    {
        self.shape
    }

    /// The value at an index.
    #[inline(always)]
    pub fn at(&self, index: u32) -> Chosen
        requires { index < length (all_choices self.now) }
        ensures { chosen result ≡ get_or (all_choices self.now) index no_choice }
    {
        let pieces = self.pieces.as_slice();
        let piece = pieces[piece_at(pieces, index)];
        piece.stretch.at(index - piece.start)
    }
}
