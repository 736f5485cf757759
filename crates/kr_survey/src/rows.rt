// Rows, which are moved and never copied.
ghost use Rattle.std.specs.Prelude.{◌≡◌, ◌==◌, length};
ghost use Rattle.kr_survey.specs.Joins.{joined, lists};

use std::marker::Model;

/// Rows in one piece. Contracts see the list.
#[derive(Drop)]
pub struct RowList<R> {
    items: Vec<R>,
}

impl<R> Model for RowList<R> {
    ghost use Rattle.std.specs.Prelude.{List};

    ghost Value = { List R };

    ghost view = { λ r. r.items.items };
}

impl<R> RowList<R> {
    /// These rows. It takes no memory.
    pub fn new(items: Vec<R>) -> Self
        ensures { result ≡ items.items }
    {
        RowList { items }
    }

    pub fn len(&self) -> usize
        ensures { result ≡ length self.now }
    {
        self.items.len()
    }

    pub fn is_empty(&self) -> bool
        ensures { result ≡ (length self.now == 0) }
    {
        self.items.is_empty()
    }

    pub fn as_slice(&self) -> &[R]
        ensures { result.now ≡ self.now }
    {
        self.items.as_slice()
    }

    /// The rows, given back.
    pub fn into_vec(self) -> Vec<R>
        ensures { result.items ≡ self }
    {
        self.items
    }
}

/// Rows in pieces, one after another. Contracts see one list.
#[derive(Drop)]
pub struct Rows<R> {
    pieces: Vec<Vec<R>>,
}

impl<R> Model for Rows<R> {
    ghost use Rattle.std.specs.Prelude.{List};
    ghost use Rattle.kr_survey.specs.Joins.{joined, lists};

    ghost Value = { List R };

    ghost view = { λ r. joined (lists r.pieces.items) };
}

impl<R> Rows<R> {
    /// The rows of these pieces. It takes no memory.
    pub fn new(pieces: Vec<Vec<R>>) -> Self
        ensures { result ≡ joined (lists pieces.items) }
    {
        Rows { pieces }
    }

    pub fn pieces(&self) -> &[Vec<R>]
        ensures { joined (lists result.now) ≡ self.now }
    {
        self.pieces.as_slice()
    }

    /// The pieces, given back.
    pub fn into_pieces(self) -> Vec<Vec<R>>
        ensures { joined (lists result.items) ≡ self }
    {
        self.pieces
    }
}
