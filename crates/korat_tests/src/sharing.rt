// Windows and pools: with any of them, the bytes are one worker's.

use crate::samples::{CELL, COUNTED, COUNTER, FIN, LISTED};
use crate::{Call, ends};
use kr_base::NoMemory;
use std::alloc::Global;
use std::process::Abort;
use std::sync::Wait;
use std::test::Fail;
use std::thread::Threads;

/// Each of these calls over a class ends with the status, and has written just the text.
fn end<W: Threads + Wait + Sync + Abort>(
    rt: &W,
    alloc: Global,
    source: &str,
    calls: &[&str],
    status: u8,
    text: &str,
) -> Result<(), NoMemory> {
    let files = [("fin.toml", FIN), ("Cell.java", source)];
    for words in calls {
        let call = Call::new(*words, &files);
        assert!(rt; ends(rt, alloc, &call, status, text.as_bytes())?, "{words}");
    }
    Ok(())
}

#[test]
fn listings(rt: HostRuntime) -> Result<(), Fail> {
    let calls = [
        "list --window 1 fin.toml Cell.java",
        "list --workers=2 --window=1 fin.toml Cell.java",
        "list --workers=8 --window=1 fin.toml Cell.java",
        "list --workers=2 fin.toml Cell.java",
        "list --workers=8 fin.toml Cell.java",
        "list --workers=2 --window=65536 fin.toml Cell.java",
        "list --pool=deque fin.toml Cell.java",
        "list --workers=2 --pool=deque fin.toml Cell.java",
        "list --workers=8 --pool=deque fin.toml Cell.java",
    ];
    Ok(end(&rt, rt.alloc(), CELL, &calls, 0, LISTED)?)
}

#[test]
fn tests_of_a_method(rt: HostRuntime) -> Result<(), Fail> {
    let calls = [
        "test --workers=2 --window=1 fin.toml inc Cell.java",
        "test --workers=8 fin.toml inc Cell.java",
        "test --pool=deque fin.toml inc Cell.java",
        "test --workers=8 --pool=deque fin.toml inc Cell.java",
    ];
    Ok(end(&rt, rt.alloc(), COUNTER, &calls, 1, COUNTED)?)
}

/// Where there are more rows than are wanted, they end with `more`, in each pool.
#[test]
fn limits(rt: HostRuntime) -> Result<(), Fail> {
    let calls = [
        "list --limit=1 --workers=2 --window=1 fin.toml Cell.java",
        "list --limit=1 --workers=8 fin.toml Cell.java",
        "list --limit=1 --workers=2 --pool=deque fin.toml Cell.java",
    ];
    let more = "0.1 Cell#0{v=1}\nmore 0.1\n";
    Ok(end(&rt, rt.alloc(), CELL, &calls, 0, more)?)
}

/// One worker that logs its steps: one part, and all its rows are taken out at once.
#[test]
fn steps(rt: HostRuntime) -> Result<(), Fail> {
    let calls = ["list --trace fin.toml Cell.java"];
    let traced =
        "0.1 Cell#0{v=1}\n0.2 Cell#0{v=2}\nvalid 2 tried 3\ntake 0 0\nreport 0 0 end 2 3\nlook 0\ndrain 2\n";
    Ok(end(&rt, rt.alloc(), CELL, &calls, 0, traced)?)
}
