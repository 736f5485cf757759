// Pieces of a span up to 1, cut at 0.2: each row has the pieces' spans, and what comes of them.
ghost use Rattle.std.specs.Prelude.{◌≡◌, true, IfOk, OnOk};
ghost use Rattle.kr_survey.specs.Spans.{is_ahead};
ghost use Rattle.kr_deque_hands.specs.Pieces.{AllAhead, spans_of};

use crate::tests::spans::ahead_of;
use kr_base::{Cut, NoMemory, Span};
use kr_deque::{JoinRefusal, join_pieces};
use kr_survey::{Listing, Piece, RowList};
use std::alloc::Global;
use std::process::Abort;
use std::test::Fail;

// A piece with one row, its number, and one entry.
fn piece_of(alloc: Global, span: Span, row: u32) -> Result<Piece<u32>, NoMemory>
    ensures { IfOk result (λ piece. piece.span ≡ span) }
{
    let mut rows = Vec::new(alloc);
    rows.push(row)?;
    Ok(Piece {
        span,
        rows: RowList::new(rows),
        tried: 1,
        spent: None,
    })
}

#[tactic(auto, using(crate::proofs::Ahead::pieces_more))]
fn push_piece(
    rt: &impl Abort,
    alloc: Global,
    pieces: &mut Vec<Piece<u32>>,
    after: &[u32],
    upto: &[u32],
    row: u32,
) -> Result<(), NoMemory>
    requires { AllAhead (spans_of pieces.old.items) }
    ensures { OnOk result (AllAhead (spans_of pieces.new.items)) }
{
    let span = ahead_of(rt, alloc, after, upto)?;
    let piece = piece_of(alloc, span, row)?;
    pieces.push(piece)?;
    Ok(())
}

// `a` is the span up to 0.2, `b` the one from there to 1, `c` the one from 0.2 to 2, `d` the one from 0.1 to 1.
fn push_named(
    rt: &impl Abort,
    alloc: Global,
    pieces: &mut Vec<Piece<u32>>,
    name: u8,
    row: u32,
) -> Result<(), NoMemory>
    requires { AllAhead (spans_of pieces.old.items) }
    ensures { OnOk result (AllAhead (spans_of pieces.new.items)) }
{
    match name {
        b'a' => push_piece(rt, alloc, pieces, &[], &[0, 2], row),
        b'b' => push_piece(rt, alloc, pieces, &[0, 2], &[1], row),
        b'c' => push_piece(rt, alloc, pieces, &[0, 2], &[2], row),
        _ => push_piece(rt, alloc, pieces, &[0, 1], &[1], row),
    }
}

fn pieces_of(rt: &impl Abort, alloc: Global, names: &[u8]) -> Result<Vec<Piece<u32>>, NoMemory>
    ensures { IfOk result (λ pieces. AllAhead (spans_of pieces.items)) }
{
    let mut pieces = Vec::new(alloc);
    let mut row: u32 = 0;
    for name in names {
        match push_named(rt, alloc, &mut pieces, *name, row) {
            Ok(()) => row = row.saturating_add(1),
            Err(why) => return Err(why),
        }
    }
    Ok(pieces)
}

fn is_cut(cut: &Cut, numbers: &[u32]) -> bool {
    cut.numbers() == numbers
}

fn are_rows(pieces: &[Vec<u32>], numbers: &[u32]) -> bool {
    if pieces.len() != numbers.len() {
        return false;
    }
    for (i, piece) in pieces.iter().enumerate() {
        if piece.as_slice() != &numbers[i..i + 1] {
            return false;
        }
    }
    true
}

// What comes of the pieces: the rows in order, or a break and its cut.
fn is_told(joined: &Result<Listing<u32>, JoinRefusal>, kind: u8, numbers: &[u32]) -> bool {
    match joined {
        Ok(listing) => {
            kind == b'l' && listing.tried == 2 && are_rows(listing.rows.pieces(), numbers)
        }
        Err(JoinRefusal::Gap(cut)) => kind == b'g' && is_cut(cut, numbers),
        Err(JoinRefusal::Double(cut)) => kind == b'd' && is_cut(cut, numbers),
        Err(JoinRefusal::NoMemory(_)) => false,
    }
}

fn comes(
    rt: &impl Abort,
    alloc: Global,
    names: &str,
    kind: u8,
    numbers: &[u32],
) -> Result<bool, NoMemory> {
    let asked = ahead_of(rt, alloc, &[], &[1])?;
    match pieces_of(rt, alloc, names.as_bytes()) {
        Ok(pieces) => {
            let joined = join_pieces(alloc, &asked, pieces);
            Ok(is_told(&joined, kind, numbers))
        }
        Err(why) => Err(why),
    }
}

#[test]
fn joins(rt: HostRuntime) -> Result<(), Fail> {
    let rows: [(&str, u8, &[u32]); 8] = [
        ("ab", b'l', &[0, 1]),
        ("ba", b'l', &[1, 0]),
        ("b", b'g', &[]),
        ("aab", b'd', &[]),
        ("", b'g', &[]),
        ("a", b'g', &[0, 2]),
        ("ac", b'd', &[0, 2]),
        ("ad", b'd', &[0, 1]),
    ];
    for (names, kind, numbers) in rows {
        let is = comes(&rt, rt.alloc(), names, kind, numbers)?;
        assert!(rt; is, "{names}");
    }
    Ok(())
}
