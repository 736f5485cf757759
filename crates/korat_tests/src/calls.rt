// The answer and the output of a call over files and outputs in memory, in small steps; the words that it is started with.

use crate::samples::{CELL, COUNTED, COUNTER, FIN, LISTED};
use crate::{Call, Ended, Given, Written, ends, started};
use kr_base::NoMemory;
use std::alloc::AllocError;
use std::test::Fail;

#[test]
fn small_steps(rt: HostRuntime) -> Result<(), Fail> {
    let files = [("fin.toml", FIN), ("Cell.java", CELL)];
    for step in 1..6usize {
        for (words, status, text) in [
            ("list fin.toml Cell.java", 0, LISTED),
            ("check fin.toml Cell.java", 0, "ok classes 1 slots 2\n"),
            (
                "list --limit 1 fin.toml Cell.java",
                0,
                "0.1 Cell#0{v=1}\nmore 0.1\n",
            ),
            ("demo 2", 0, "nodes 2 valid 2\n"),
            ("list", 2, "usage fault\n"),
            (
                "list fin.toml Cell.java Cell.java",
                3,
                "Cell.java:1:7: C1\n",
            ),
            ("list Cell.java Cell.java", 4, "Cell.java: F1 toml\n"),
            ("list fin.toml N.java", 6, "read fault N.java\n"),
        ] {
            let call = Call {
                step,
                ..Call::new(words, &files)
            };
            let ended = ends(&rt, rt.alloc(), &call, status, text.as_bytes())?;
            assert!(rt; ended, "{step}, {text}");
        }
    }
    Ok(())
}

#[test]
fn tests_of_a_method(rt: HostRuntime) -> Result<(), Fail> {
    let files = [("fin.toml", FIN), ("Cell.java", COUNTER)];
    for (words, status, text) in [
        ("test fin.toml inc Cell.java", 1, COUNTED),
        (
            "test fin.toml --limit 2 inc Cell.java",
            0,
            "0.0 pass Cell#0{v=0}\n0.1 pass Cell#0{v=1}\nmore 0.1\n",
        ),
        (
            "test fin.toml inc Cell.java --from 0.2",
            0,
            "valid 0 failing 0 tried 0\n",
        ),
        ("test fin.toml none Cell.java", 4, "fin.toml: S8 method\n"),
    ] {
        let call = Call::new(words, &files);
        assert!(rt;
            ends(&rt, rt.alloc(), &call, status, text.as_bytes())?,
            "{text}"
        );
    }
    Ok(())
}

#[test]
fn given_words(rt: HostRuntime) -> Result<(), Fail> {
    let files = [("fin.toml", FIN), ("Cell.java", CELL)];
    let lacking = NoMemory::from(AllocError);
    for (given, words, status, text) in [
        (Given::Words, "list fin.toml Cell.java", 0, LISTED),
        // The first word is empty.
        (Given::Words, " list", 2, "usage fault\n"),
        (Given::NotText, "", 2, "usage fault\n"),
        (Given::NoMemory(lacking), "", 8, ""),
    ] {
        let call = Call::new(words, &files);
        let ended = started(&rt, rt.alloc(), given, &call, text.as_bytes())?;
        let wanted = Ended {
            status,
            written: Written::Whole,
        };
        assert!(rt; ended == wanted, "{status}, {text}");
    }
    Ok(())
}
