// A search of two subclasses, worked by hand.
ghost use Rattle.std.specs.Prelude.{◌≡◌, ◌<◌};

use crate::bases::{Bases, start};
use kr_base::Steps;
use kr_step::{Next, Search};
use std::alloc::Global;
use std::marker::Brand;
use std::sync::ledger::{Blank, Ledger};
use std::test::Fail;

/// Appends a key.
fn push_key(alloc: Global, text: &mut String, key: &[u32]) -> Result<(), Fail> {
    let key = format!(in alloc; "{:?}", key)?;
    text.push_str(key.as_str())?;
    Ok(())
}

/// Appends the keys that a search finds from now on, and a dot each time that it finds none.
fn push_keys<L: Ledger>(
    alloc: Global,
    text: &mut String,
    search: &mut Search<Bases>,
    runs: &mut Steps<L>,
) -> Result<(), Fail> {
    for _ in 0..10 {
        match search.next(runs)? {
            Next::Found(_) => push_key(alloc, text, search.cut())?,
            Next::End => text.push('.')?,
        }
    }
    Ok(())
}

/// The keys above a cut, one after another.
fn keys<L: Ledger>(alloc: Global, blank: Blank, after: &[u32]) -> Result<String, Fail>
    requires ledger { blank.name ≡ L.name }
    requires parts { blank.parts ≡ L.parts }
    requires some { 0 < L.parts }
{
    let mut runs = Steps::<L>::start(blank);
    let mut search = Search::seek(alloc, start(alloc)?, after, &mut runs)?;
    let mut text = String::new(alloc);
    push_keys(alloc, &mut text, &mut search, &mut runs)?;
    Ok(text)
}

/// Whether the keys above a cut are these.
fn finds(alloc: Global, after: &[u32], wanted: &str) -> Result<bool, Fail> {
    let text = keys::<Brand>(alloc, Blank::new(1), after)?;
    Ok(text.as_str() == wanted)
}

#[test]
fn two_subclasses(rt: HostRuntime) -> Result<(), Fail> {
    let rows: [(&[u32], &str); 4] = [
        (
            &[],
            "[0, 0, 0][0, 0, 1][0, 0, 2][0, 2, 0][0, 2, 2][0, 2, 3]....",
        ),
        (&[0, 0, 2], "[0, 2, 0][0, 2, 2][0, 2, 3]......."),
        (&[0, 1], "[0, 2, 0][0, 2, 2][0, 2, 3]......."),
        (&[0, 2, 3, 0], ".........."),
    ];
    for (after, wanted) in rows {
        assert!(rt; finds(rt.alloc(), after, wanted)?, "{wanted}");
    }
    Ok(())
}

/// How often the candidate is run where a search goes on to its end from a cut.
fn runs_above<L: Ledger>(alloc: Global, blank: Blank, after: &[u32]) -> Result<u32, Fail>
    requires ledger { blank.name ≡ L.name }
    requires parts { blank.parts ≡ L.parts }
    requires some { 0 < L.parts }
{
    let mut runs = Steps::<L>::start(blank);
    let mut search = Search::seek(alloc, start(alloc)?, after, &mut runs)?;
    for _ in 0..10 {
        if search.next(&mut runs)? == Next::End {
            break;
        }
    }
    Ok(search.candidates().count())
}

fn count_above(alloc: Global, after: &[u32]) -> Result<u32, Fail> {
    runs_above::<Brand>(alloc, Blank::new(1), after)
}

// Of a whole search each of the six entries is run once. Above a cut of two numbers three entries are, and two runs more are made
// on the way, one before each number is followed; the second leads past the cut at once.
#[test]
fn each_entry_is_run_once(rt: HostRuntime) -> Result<(), Fail> {
    assert!(rt; count_above(rt.alloc(), &[])? == 6);
    assert!(rt; count_above(rt.alloc(), &[0, 1])? == 5);
    Ok(())
}
