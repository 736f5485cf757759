// Files and sinks in memory row by row, and the real ones once each.
ghost use Rattle.std.specs.Prelude.{◌<◌};

use kr_base::{Cut, put_all};
use kr_io::{
    DiskFiles, Failed, Files, Gate, MemFile, MemFiles, MemSink, OpenGate, ReadRefusal, SafeSink,
    Sink, StdSink,
};
use std::alloc::Global;
use std::test::Fail;
use std::{fs, io};

fn file_of(alloc: Global, name: &str, text: &str) -> Result<MemFile, Fail> {
    let name = String::from_str(alloc, name)?;
    let bytes = Vec::from_slice(alloc, text.as_bytes())?;
    Ok(MemFile { name, bytes })
}

/// Adds files, two of them of one name.
fn push_files(alloc: Global, held: &mut Vec<MemFile>) -> Result<(), Fail> {
    for (name, text) in [("a", "first"), ("b", ""), ("a", "second")] {
        let file = file_of(alloc, name, text)?;
        held.push(file)?;
    }
    Ok(())
}

/// These files, the second read of which fails.
fn files_of(alloc: Global) -> Result<MemFiles, Fail> {
    let failing = Vec::from_slice(alloc, &[2])?;
    let mut held = Vec::new(alloc);
    push_files(alloc, &mut held)?;
    Ok(MemFiles::new(alloc, held, failing))
}

/// Whether a read answers this text, or fails where there is none.
fn reads<F: Files>(files: &mut F, name: &str, most: usize, want: Option<&[u8]>) -> bool {
    match files.read(name, most) {
        Ok(bytes) => match want {
            Some(text) => bytes.as_slice() == text,
            None => false,
        },
        Err(refusal) => want.is_none() && refusal == ReadRefusal::Failed,
    }
}

#[test]
fn files_in_memory(rt: HostRuntime) -> Result<(), Fail> {
    let mut files = files_of(rt.alloc())?;
    let rows: [(&str, usize, Option<&[u8]>); 6] = [
        ("a", 9, Some(b"first")),
        ("a", 9, None),
        ("a", 3, Some(b"fir")),
        ("a", 5, Some(b"first")),
        ("b", 9, Some(b"")),
        ("c", 9, None),
    ];
    for (name, most, want) in rows {
        assert!(rt; reads(&mut files, name, most, want), "{name} {most}");
    }
    Ok(())
}

/// Whether an output takes a text whole, and this much of it.
fn takes(out: &mut MemSink, text: &[u8], is_whole: bool) -> bool {
    let put = put_all(out, b"0.10.2");
    put.is_ok() == is_whole && out.bytes() == text
}

/// An output with this room that fails at the puts of these numbers.
fn sink_of(alloc: Global, capacity: usize, step: usize, failing: &[u32]) -> Result<MemSink, Fail>
    requires { 0 < step }
{
    let failing = Vec::from_slice(alloc, failing)?;
    Ok(MemSink::new(alloc, capacity, step, failing)?)
}

#[test]
fn sinks_in_memory(rt: HostRuntime) -> Result<(), Fail> {
    let alloc = rt.alloc();
    let rows: [(usize, usize, &[u32], &str, bool); 6] = [
        (9, 4, &[], "0.10.2", true),
        (6, 9, &[], "0.10.2", true),
        (5, 9, &[], "0.10.", false),
        (9, 4, &[2], "0.10", false),
        (9, 4, &[3], "0.10.2", true),
        (9, 1, &[1], "", false),
    ];
    for (capacity, step, failing, text, is_whole) in rows {
        assert!(rt; step > 0);
        let mut out = sink_of(alloc, capacity, step, failing)?;
        assert!(rt; takes(&mut out, text.as_bytes(), is_whole), "{text}");
    }
    assert!(rt; SafeSink.put(b"0.10.2") == Ok(6));
    Ok(())
}

/// Whether a cut is written so.
fn is_written(alloc: Global, numbers: &[u32], text: &[u8]) -> Result<bool, Fail> {
    let cut = Cut::new(Vec::from_slice(alloc, numbers)?);
    let mut out = sink_of(alloc, 20, 3, &[])?;
    let written = cut.write(&mut out).is_ok();
    Ok(written && out.bytes() == text)
}

#[test]
fn cuts(rt: HostRuntime) -> Result<(), Fail> {
    let alloc = rt.alloc();
    let rows: [(&[u32], &str); 4] = [
        (&[], ""),
        (&[0], "0"),
        (&[0, 2, 1], "0.2.1"),
        (&[4_294_967_295, 10], "4294967295.10"),
    ];
    for (numbers, text) in rows {
        assert!(rt; is_written(alloc, numbers, text.as_bytes())?, "{text}");
    }
    Ok(())
}

#[test]
fn files_on_disk(rt: HostRuntime) -> Result<(), Fail> {
    fs::write(&rt, "six.txt", "0.10.2")?;
    let mut files = DiskFiles::new(&rt, rt.alloc());
    let rows: [(&str, usize, Option<&[u8]>); 4] = [
        ("six.txt", 9, Some(b"0.10.2")),
        ("six.txt", 4, Some(b"0.10")),
        ("missing.txt", 9, None),
        (".", 9, None),
    ];
    for (name, most, want) in rows {
        assert!(rt; reads(&mut files, name, most, want), "{name} {most}");
    }
    Ok(())
}

/// Bytes of which no two stretches of a file's chunk are the same.
fn pattern(alloc: Global, length: u32) -> Result<Vec<u8>, Fail> {
    let mut bytes = Vec::new(alloc);
    for at in 0..length {
        bytes.push((at % 251) as u8)?;
    }
    Ok(bytes)
}

#[test]
fn long_file_on_disk(rt: HostRuntime) -> Result<(), Fail> {
    let bytes = pattern(rt.alloc(), 150_000)?;
    fs::write(&rt, "long.bin", bytes.as_slice())?;
    let mut files = DiskFiles::new(&rt, rt.alloc());
    for most in [
        1_000_000, 150_001, 150_000, 149_999, 131_073, 100_000, 65_536,
    ] {
        let count = bytes.len().min(most);
        assert!(rt;
            reads(&mut files, "long.bin", most, Some(&bytes[..count])),
            "{most}"
        );
    }
    Ok(())
}

#[test]
fn output(rt: HostRuntime) -> Result<(), Fail> {
    let mut out = StdSink::new(io::writer(&rt));
    assert!(rt; out.put(b"") == Ok(0));
    assert!(rt; put_all(&mut out, b"0.10.2\n").is_ok());
    let mut full = StdSink::new(fs::create(&rt, "/dev/full")?);
    assert!(rt; full.put(b"0.10.2\n") == Err(Failed));
    OpenGate.pass(0, 0);
    Ok(())
}
