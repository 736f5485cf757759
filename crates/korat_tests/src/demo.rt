// The demo's answers, over files of which every read fails: it reads none. And its texts.

use crate::{Call, ends};
use kr_demo::{demo_finitization, demo_source};
use std::test::Fail;

#[test]
fn few_nodes(rt: HostRuntime) -> Result<(), Fail> {
    for (words, room, status, text) in [
        ("demo 1", 1024, 0, "nodes 1 valid 1\n"),
        ("demo 2", 1024, 0, "nodes 2 valid 2\n"),
        ("demo 3", 1024, 0, "nodes 3 valid 5\n"),
        ("demo 1", 15, 7, "nodes 1 valid 1"),
    ] {
        let call = Call {
            room,
            step: 4,
            failing_reads: &[1],
            ..Call::new(words, &[])
        };
        assert!(rt;
            ends(&rt, rt.alloc(), &call, status, text.as_bytes())?,
            "{text}"
        );
    }
    Ok(())
}

/// Whether the class for twelve nodes begins and ends as it reads.
fn is_source(text: &[u8]) -> bool {
    text.starts_with(b"import java.util.*;\nclass Node {\n  Node left;\n")
        && text.ends_with(b"    return seen.size() == 12;\n  }\n}\n")
}

/// Whether the finitization for twelve nodes begins and ends as it reads.
fn is_finitization(text: &[u8]) -> bool {
    text.starts_with(b"root = \"Tree\"\nfuel = 2000\n[objects]\nTree = 1\nNode = 12\n[fields]\n")
        && text.ends_with(b"\"Node.right\" = [\"null\", \"Node\"]\n")
}

#[test]
fn twelve_nodes(rt: HostRuntime) -> Result<(), Fail> {
    let source = demo_source(rt.alloc(), 12)?;
    assert!(rt; is_source(source.as_slice()));
    let finitization = demo_finitization(rt.alloc(), 12)?;
    assert!(rt; is_finitization(finitization.as_slice()));
    Ok(())
}
