// Cuts, bounds and words, worked by hand.

use kr_base::{Bound, Cut, Words};
use std::alloc::Global;
use std::cmp::Ordering;
use std::test::Fail;

fn cut_of(alloc: Global, numbers: &[u32]) -> Result<Cut, Fail> {
    Ok(Cut::new(Vec::from_slice(alloc, numbers)?))
}

/// Whether two cuts have this order, by each call that compares them.
fn are_cuts_in_order(own: &Cut, other: &Cut, order: Ordering) -> bool {
    own.compare(other) == order
        && own.is_below(other) == (order == Ordering::Less)
        && own.is_same(other) == (order == Ordering::Equal)
}

/// Whether cuts, as bounds, are in this order, and below the end.
fn are_bounds_in_order(own: &Bound, other: &Bound, order: Ordering) -> bool {
    own.is_below(other) == (order == Ordering::Less)
        && own.is_below(&Bound::End)
        && !Bound::End.is_below(own)
}

fn are_in_order(own: Cut, other: Cut, order: Ordering) -> bool {
    let cuts = are_cuts_in_order(&own, &other, order);
    let bounds = are_bounds_in_order(&Bound::At(own), &Bound::At(other), order);
    cuts && bounds
}

#[test]
fn order(rt: HostRuntime) -> Result<(), Fail> {
    let rows: [(&[u32], &[u32], Ordering); 6] = [
        (&[], &[], Ordering::Equal),
        (&[], &[0], Ordering::Less),
        (&[0, 2], &[0, 2, 0], Ordering::Less),
        (&[0, 10], &[0, 9], Ordering::Greater),
        (&[1], &[0, 4_294_967_295], Ordering::Greater),
        (&[0, 2, 1], &[0, 2, 1], Ordering::Equal),
    ];
    for (numbers, others, order) in rows {
        let own = cut_of(rt.alloc(), numbers)?;
        let other = cut_of(rt.alloc(), others)?;
        assert!(rt; are_in_order(own, other, order), "{numbers:?} {others:?}");
    }
    Ok(())
}

/// Whether the copy of a cut is the same.
fn is_copied(cut: &Cut) -> Result<bool, Fail> {
    let copy = cut.try_clone()?;
    Ok(copy.is_same(cut))
}

/// Whether the copy of a bound is neither below it nor above.
fn is_bound_copied(bound: &Bound) -> Result<bool, Fail> {
    let copy = bound.try_clone()?;
    Ok(!copy.is_below(bound) && !bound.is_below(&copy))
}

/// Whether a cut is copied, as a bound too, and gives its numbers back.
fn is_kept(cut: Cut, numbers: &[u32]) -> Result<bool, Fail> {
    let copied = is_copied(&cut)? && cut.numbers() == numbers;
    let bound = Bound::At(cut);
    let bound_copied = is_bound_copied(&bound)?;
    Ok(copied && bound_copied)
}

/// Whether a cut gives its numbers back.
fn gives_back(cut: Cut, numbers: &[u32]) -> bool {
    cut.into_numbers().as_slice() == numbers
}

#[test]
fn copies(rt: HostRuntime) -> Result<(), Fail> {
    for numbers in [[0, 2, 1], [0, 0, 4_294_967_295]] {
        let cut = cut_of(rt.alloc(), &numbers)?;
        assert!(rt; is_kept(cut, &numbers)?);
        let cut = cut_of(rt.alloc(), &numbers)?;
        assert!(rt; gives_back(cut, &numbers));
    }
    assert!(rt; Cut::empty(rt.alloc()).numbers().is_empty());
    Ok(())
}

/// Adds three words.
fn push_words(words: &mut Words) -> Result<bool, Fail> {
    let was_empty = words.is_empty();
    for word in ["list", "", "Kühe.java"] {
        words.push(word)?;
    }
    Ok(was_empty)
}

/// Whether these are the three words.
fn are_words(words: &Words) -> bool {
    !words.is_empty()
        && words.len() == 3
        && words.get(0) == "list"
        && words.get(1) == ""
        && words.get(2) == "Kühe.java"
        && words.texts().len() == 3
}

fn holds_words(alloc: Global) -> Result<bool, Fail> {
    let mut words = Words::new(alloc);
    let was_empty = push_words(&mut words)?;
    Ok(was_empty && are_words(&words))
}

#[test]
fn words(rt: HostRuntime) -> Result<(), Fail> {
    assert!(rt; holds_words(rt.alloc())?);
    Ok(())
}

/// The result of parsing a text: the numbers in brackets, or the refusal.
fn parsed(alloc: Global, text: &str) -> Result<String, Fail> {
    Ok(match Cut::parse(alloc, text) {
        Ok(cut) => format!(in alloc; "{:?}", cut.numbers())?,
        Err(refusal) => format!(in alloc; "{refusal:?}")?,
    })
}

/// Whether the reading of a text answers so.
fn answers(alloc: Global, text: &str, answer: &str) -> Result<bool, Fail> {
    let read = parsed(alloc, text)?;
    Ok(read.as_str() == answer)
}

#[test]
fn parsing(rt: HostRuntime) -> Result<(), Fail> {
    let rows = [
        ("0", "[0]"),
        ("0.2.1", "[0, 2, 1]"),
        ("4294967295", "[4294967295]"),
        ("4294967295.10", "[4294967295, 10]"),
        ("0..1", "Malformed(2)"),
        ("0.", "Malformed(2)"),
        ("", "Malformed(0)"),
        ("01", "Malformed(1)"),
        ("10.00", "Malformed(4)"),
        ("4294967296", "Malformed(9)"),
        ("42949672950", "Malformed(10)"),
        (".1", "Malformed(0)"),
        ("+1", "Malformed(0)"),
        ("1-2", "Malformed(1)"),
        ("1 ", "Malformed(1)"),
        ("1.é", "Malformed(2)"),
    ];
    for (text, answer) in rows {
        assert!(rt; answers(rt.alloc(), text, answer)?, "{text}");
    }
    Ok(())
}

/// Appends zeros joined by dots, and `end`.
fn push_zeros(text: &mut String, count: u32, end: &str) -> Result<(), Fail> {
    text.push('0')?;
    for _ in 1..count {
        text.push_str(".0")?;
    }
    text.push_str(end)?;
    Ok(())
}

/// Zeros joined by dots, and `end`.
fn zeros(alloc: Global, count: u32, end: &str) -> Result<String, Fail> {
    let mut text = String::new(alloc);
    push_zeros(&mut text, count, end)?;
    Ok(text)
}

/// How many numbers a text has that is a cut, and else none.
fn count_of(alloc: Global, text: &str) -> usize {
    match Cut::parse(alloc, text) {
        Ok(cut) => cut.numbers().len(),
        Err(_) => 0,
    }
}

/// Whether parsing this many zeros gives this answer.
fn zeros_answer(alloc: Global, count: u32, end: &str, answer: &str) -> Result<bool, Fail> {
    let text = zeros(alloc, count, end)?;
    answers(alloc, text.as_str(), answer)
}

/// Whether this many zeros are a cut.
fn are_cut(alloc: Global, count: u32) -> Result<bool, Fail> {
    let text = zeros(alloc, count, "")?;
    Ok(count_of(alloc, text.as_str()) == count as usize)
}

#[test]
fn long_cuts(rt: HostRuntime) -> Result<(), Fail> {
    assert!(rt; are_cut(rt.alloc(), 4_096)?);
    for (count, end, answer) in [
        (4_097, "", "TooLong(4097)"),
        (5_000, ".", "Malformed(10000)"),
    ] {
        assert!(rt; zeros_answer(rt.alloc(), count, end, answer)?, "{count}");
    }
    Ok(())
}

/// The bound of a text: the end, where the text is no cut.
fn bound_of(alloc: Global, text: &str) -> Bound {
    match Cut::parse(alloc, text) {
        Ok(cut) => Bound::At(cut),
        Err(_) => Bound::End,
    }
}

fn shown(alloc: Global, cut: Option<Cut>) -> Result<String, Fail> {
    Ok(match cut {
        Some(cut) => format!(in alloc; "{:?}", cut.numbers())?,
        None => String::from_str(alloc, "None")?,
    })
}

fn inside(alloc: Global, mark: &Cut, bound: &Bound) -> Result<String, Fail> {
    let cut = mark.inside(bound)?;
    shown(alloc, cut)
}

/// Whether the cut inside a mark and a bound is this one.
fn is_inside(alloc: Global, mark: &str, bound: &str, answer: &str) -> Result<bool, Fail> {
    let cut = Cut::parse(alloc, mark)?;
    let end = bound_of(alloc, bound);
    let shown = inside(alloc, &cut, &end)?;
    Ok(shown.as_str() == answer)
}

/// Whether there is none inside the empty cut and the end.
fn has_no_inside(mark: &Cut) -> Result<bool, Fail> {
    let cut = mark.inside(&Bound::End)?;
    Ok(cut.is_none())
}

#[test]
fn insides(rt: HostRuntime) -> Result<(), Fail> {
    let rows = [
        ("0", "", "[1]"),
        ("0.2.1", "", "[1]"),
        ("0.2.1", "1", "[0, 3]"),
        ("0.2.1", "0.3", "[0, 2, 2]"),
        ("0.2.1", "0.2.2", "None"),
        ("0.2.1", "0.2.2.0", "[0, 2, 2]"),
        ("4294967295", "", "None"),
        ("4294967295.7", "", "[4294967295, 8]"),
        ("5", "3", "None"),
    ];
    for (mark, bound, answer) in rows {
        assert!(rt;
            is_inside(rt.alloc(), mark, bound, answer)?,
            "{mark} {bound}"
        );
    }
    let empty = Cut::empty(rt.alloc());
    assert!(rt; has_no_inside(&empty)?);
    Ok(())
}
