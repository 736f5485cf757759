// Reads and writes that fail, and outputs that are full. By one worker or many, the output is a front of the report.

use crate::samples::{CELL, FIN, LISTED, NODES, NODES_FIN, NODES_LISTED};
use crate::{Call, ends};
use kr_base::NoMemory;
use std::alloc::Global;
use std::sync::Wait;
use std::test::Fail;
use std::thread::Threads;

#[test]
fn failing_puts(rt: HostRuntime) -> Result<(), Fail> {
    // The second write of a listing, and the texts of each other status, cut short.
    let files = [("fin.toml", FIN), ("Cell.java", CELL)];
    for (words, room, step, failing, front) in [
        ("list fin.toml Cell.java", 1024, 4, 2, "0.1 "),
        ("list", 2, 1, 9, "us"),
        ("list Cell.java Cell.java", 2, 1, 9, "Ce"),
        ("list fin.toml Cell.java Cell.java", 2, 1, 9, "Ce"),
        ("list none.toml Cell.java", 2, 1, 9, "re"),
    ] {
        let call = Call {
            room,
            step,
            failing_puts: &[failing],
            ..Call::new(words, &files)
        };
        assert!(rt;
            ends(&rt, rt.alloc(), &call, 7, front.as_bytes())?,
            "{front}"
        );
    }
    Ok(())
}

#[test]
fn full_outputs(rt: HostRuntime) -> Result<(), Fail> {
    let files = [("fin.toml", FIN), ("Cell.java", CELL)];
    let whole = LISTED.as_bytes();
    for room in 0..=whole.len() {
        let call = Call {
            room,
            step: 5,
            ..Call::new("list fin.toml Cell.java", &files)
        };
        let status = if room < whole.len() { 7 } else { 0 };
        let ended = ends(&rt, rt.alloc(), &call, status, &whole[..room])?;
        assert!(rt; ended, "{room}");
    }
    Ok(())
}

#[test]
fn failing_reads(rt: HostRuntime) -> Result<(), Fail> {
    // Nothing but a file's length is judged before both are read.
    let two_fields = "class P { int v; int w; boolean repOk() { return v > 0; } }";
    for (failing, source, text) in [
        (1, CELL, "read fault fin.toml\n"),
        (2, CELL, "read fault Cell.java\n"),
        (2, two_fields, "read fault Cell.java\n"),
    ] {
        let files = [("fin.toml", FIN), ("Cell.java", source)];
        let call = Call {
            failing_reads: &[failing],
            ..Call::new("list fin.toml Cell.java", &files)
        };
        assert!(rt; ends(&rt, rt.alloc(), &call, 6, text.as_bytes())?, "{text}");
    }
    Ok(())
}

/// Whether a listing of the nodes whose write after so many fails, each of one byte, has written these, or all there is.
fn is_cut_off<W: Threads + Wait + Sync>(
    rt: &W,
    alloc: Global,
    words: &str,
    puts: usize,
) -> Result<bool, NoMemory> {
    let files = [("fin.toml", NODES_FIN), ("N.java", NODES)];
    let failing = u32::try_from(puts).unwrap_or(0).saturating_add(1);
    let call = Call {
        step: 1,
        failing_puts: &[failing],
        ..Call::new(words, &files)
    };
    let whole = NODES_LISTED.as_bytes();
    match whole.get(..puts) {
        Some(front) if puts < whole.len() => ends(rt, alloc, &call, 7, front),
        _ => ends(rt, alloc, &call, 0, whole),
    }
}

/// Each write in turn where one worker lists, some where many do.
#[test]
fn each_put_fails(rt: HostRuntime) -> Result<(), Fail> {
    for puts in 0..=NODES_LISTED.len() {
        let ended = is_cut_off(&rt, rt.alloc(), "list fin.toml N.java", puts)?;
        assert!(rt; ended, "{puts}");
    }
    for words in [
        "list --workers 3 fin.toml N.java",
        "list --workers 3 --window 1 fin.toml N.java",
        "list --workers 3 --pool deque fin.toml N.java",
    ] {
        for puts in [0, 1, 19, 40, 77, 150, 1000] {
            let ended = is_cut_off(&rt, rt.alloc(), words, puts)?;
            assert!(rt; ended, "{words}, {puts}");
        }
    }
    Ok(())
}

/// Each read in turn fails; the third is never made.
#[test]
fn each_read_fails(rt: HostRuntime) -> Result<(), Fail> {
    let files = [("fin.toml", NODES_FIN), ("N.java", NODES)];
    for words in [
        "list fin.toml N.java",
        "list --workers 3 fin.toml N.java",
        "list --workers 3 --pool deque fin.toml N.java",
    ] {
        for (failing, status, text) in [
            (1, 6, "read fault fin.toml\n"),
            (2, 6, "read fault N.java\n"),
            (3, 0, NODES_LISTED),
        ] {
            let call = Call {
                failing_reads: &[failing],
                ..Call::new(words, &files)
            };
            let ended = ends(&rt, rt.alloc(), &call, status, text.as_bytes())?;
            assert!(rt; ended, "{words}, {failing}");
        }
    }
    Ok(())
}
