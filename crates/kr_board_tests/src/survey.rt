// Scans of a list in memory, worked by hand.
ghost use Rattle.std.specs.Prelude.{◌≡◌, ◌<◌};

use crate::texts::{after_bound, after_cut, after_number, after_word, ends};
use kr_base::{Bound, Cut, NoMemory, Steps};
use kr_survey::{Entry, ListSurvey, Mark, Part, Rows, Survey};
use std::alloc::Global;
use std::marker::Brand;
use std::process::Abort;
use std::sync::ledger::{Blank, Ledger};
use std::test::Fail;

pub(crate) fn cut_of(alloc: Global, numbers: &[u32]) -> Result<Cut, NoMemory> {
    Ok(Cut::new(Vec::from_slice(alloc, numbers)?))
}

fn push_entry(
    alloc: Global,
    entries: &mut Vec<Entry<Cut>>,
    numbers: &[u32],
    mark: Mark<Cut>,
) -> Result<(), NoMemory> {
    let key = cut_of(alloc, numbers)?;
    entries.push(Entry { key, mark })?;
    Ok(())
}

/// Adds a key that is its row.
pub(crate) fn push_valid(
    alloc: Global,
    entries: &mut Vec<Entry<Cut>>,
    numbers: &[u32],
) -> Result<(), NoMemory> {
    let mark = Mark::Valid(cut_of(alloc, numbers)?);
    push_entry(alloc, entries, numbers, mark)
}

fn push_all(alloc: Global, entries: &mut Vec<Entry<Cut>>) -> Result<(), NoMemory> {
    push_valid(alloc, entries, &[0, 1])?;
    push_entry(alloc, entries, &[0, 2], Mark::Invalid)?;
    push_entry(alloc, entries, &[0, 2, 0], Mark::Spent)?;
    push_valid(alloc, entries, &[1])
}

/// The survey of entries whose keys ascend.
pub(crate) fn survey_of(rt: &impl Abort, alloc: Global, entries: Vec<Entry<Cut>>) -> ListSurvey {
    let ascends = ListSurvey::is_ascending(entries.as_slice());
    assert!(rt; ascends, "the keys ascend");
    ListSurvey::new(alloc, entries)
}

// Valid at 0.1, invalid at 0.2, spent at 0.2.0, valid at 1.
fn survey(rt: &impl Abort, alloc: Global) -> Result<ListSurvey, NoMemory> {
    let mut entries = Vec::new(alloc);
    push_all(alloc, &mut entries)?;
    Ok(survey_of(rt, alloc, entries))
}

fn scan_counted<L: Ledger>(
    survey: &ListSurvey,
    after: &Cut,
    upto: &Bound,
    most: u32,
    blank: Blank,
) -> Result<Part<Cut>, NoMemory>
    requires ledger { blank.name ≡ L.name }
    requires parts { blank.parts ≡ L.parts }
    requires some { 0 < L.parts }
    requires most { 0 < most }
{
    let mut runs = Steps::<L>::start(blank);
    survey.scan(after, upto, most, &mut runs)
}

/// One scan, whose steps are counted from 0.
pub(crate) fn scan(
    survey: &ListSurvey,
    after: &Cut,
    upto: &Bound,
    most: u32,
) -> Result<Part<Cut>, NoMemory>
    requires { 0 < most }
{
    scan_counted::<Brand>(survey, after, upto, most, Blank::new(1))
}

fn scan_from(
    alloc: Global,
    survey: &ListSurvey,
    after: &Cut,
    upto: &[u32],
    most: u32,
) -> Result<Part<Cut>, NoMemory>
    requires { 0 < most }
{
    let upto = Bound::At(cut_of(alloc, upto)?);
    scan(survey, after, &upto, most)
}

fn scan_between(
    alloc: Global,
    survey: &ListSurvey,
    after: &[u32],
    upto: &[u32],
    most: u32,
) -> Result<Part<Cut>, NoMemory>
    requires { 0 < most }
{
    let after = cut_of(alloc, after)?;
    scan_from(alloc, survey, &after, upto, most)
}

/// `TRIED SPENT REACH ROW ..`
fn after_part<'a>(text: &'a str, part: &Part<Cut>) -> Option<&'a str> {
    let text = after_number(text, part.tried)?;
    let text = after_word(text, if part.spent { "true" } else { "false" })?;
    let mut text = after_bound(text, &part.reach)?;
    for row in part.rows.as_slice() {
        text = after_cut(text, row)?;
    }
    Some(text)
}

/// Whether a part of a survey has this text, and its rows are as many as they say.
fn is_part(part: Part<Cut>, text: &str) -> bool {
    let is_told = ends(after_part(text, &part));
    let is_empty = part.rows.is_empty() == (part.rows.len() == 0);
    is_told && is_empty && part.rows.into_vec().len() < 2
}

#[test]
fn scans(rt: HostRuntime) -> Result<(), Fail> {
    let survey = survey(&rt, rt.alloc())?;
    let rows: [(&[u32], &[u32], u32, &str); 7] = [
        (&[], &[9], 1, "1 false 0.1 0.1"),
        (&[], &[9], 2, "2 false 0.2 0.1"),
        (&[], &[9], 9, "3 true 0.2.0 0.1"),
        (&[], &[0, 2], 9, "2 false 0.2 0.1"),
        (&[0, 1], &[0, 1, 5], 9, "0 false 0.1.5"),
        (&[0, 2, 0], &[9], 9, "1 false 9 1"),
        (&[1], &[9], 1, "0 false 9"),
    ];
    for (after, upto, most, text) in rows {
        assert!(rt; most > 0);
        let part = scan_between(rt.alloc(), &survey, after, upto, most)?;
        assert!(rt; is_part(part, text), "{text}");
    }
    Ok(())
}

fn push_pieces(alloc: Global, pieces: &mut Vec<Vec<u8>>) -> Result<(), NoMemory> {
    for piece in [[1, 2].as_slice(), [].as_slice(), [3].as_slice()] {
        let piece = Vec::from_slice(alloc, piece)?;
        pieces.push(piece)?;
    }
    Ok(())
}

/// How many rows pieces have.
fn count_of(pieces: &[Vec<u8>]) -> usize {
    let mut count: usize = 0;
    for piece in pieces {
        count = count.saturating_add(piece.len());
    }
    count
}

/// Whether three pieces with three rows are so counted, and given back.
fn are_kept(pieces: Vec<Vec<u8>>) -> bool {
    let rows = Rows::new(pieces);
    let count = count_of(rows.pieces());
    let pieces = rows.into_pieces();
    count == 3 && pieces.len() == 3 && count_of(pieces.as_slice()) == 3
}

#[test]
fn in_pieces(rt: HostRuntime) -> Result<(), Fail> {
    let mut pieces = Vec::new(rt.alloc());
    push_pieces(rt.alloc(), &mut pieces)?;
    assert!(rt; are_kept(pieces));
    Ok(())
}
