// Finitizations that are read, and ones that are refused, each by its first broken rule and the item.

use kr_base::Fault;
use kr_fin::{
    FinDoc, FinRefusal, FinRule, Item, Listed, MAX_FIN_BYTES, NamedDomain, is_too_long, item_law,
    least_law, read_fin,
};
use std::alloc::Global;
use std::test::Fail;

fn is_fault(fault: &Fault<FinRule>, code: &str, item: &str) -> bool {
    fault.rule.code() == code && fault.item.as_bytes() == item.as_bytes()
}

// Whether the bytes are refused by that rule and item.
fn is_refused(alloc: Global, bytes: &[u8], code: &str, item: &str) -> bool {
    match read_fin(alloc, bytes) {
        Err(FinRefusal::Broken(fault)) => is_fault(&fault, code, item),
        _ => false,
    }
}

// The items, parted by spaces.
fn put_domain(out: &mut String, domain: &Listed<Item>) -> Result<(), Fail> {
    for item in domain.as_slice() {
        match item {
            Item::Number(number) => write!(out, " {number}")?,
            Item::Range(from, to) => write!(out, " {from}..{to}")?,
            Item::Truth(truth) => write!(out, " {truth}")?,
            Item::Name(name) => write!(out, " {}", name.as_str())?,
        }
    }
    Ok(())
}

fn put_domains(out: &mut String, domains: &Listed<NamedDomain>) -> Result<(), Fail> {
    for named in domains.as_slice() {
        write!(out, "; {}", named.key.as_str())?;
        put_domain(out, &named.domain)?;
    }
    Ok(())
}

// The document in one line.
fn put_document(out: &mut String, document: &FinDoc) -> Result<(), Fail> {
    write!(out, "{} {}", document.root.as_str(), document.fuel)?;
    if document.version != 1 {
        write!(out, " v{}", document.version)?;
    }
    for count in document.objects.as_slice() {
        write!(out, "; {} {}", count.name.as_str(), count.count)?;
        if count.class.as_str() != count.name.as_str() {
            write!(out, " {}", count.class.as_str())?;
        }
    }
    for bound in document.arrays.as_slice() {
        write!(out, "; {} {}", bound.name.as_str(), bound.count)?;
        put_domain(out, &bound.lengths)?;
    }
    put_domains(out, &document.fields)?;
    put_domains(out, &document.params)
}

// Whether a document is written so.
fn is_written(alloc: Global, document: &FinDoc, wanted: &str) -> Result<bool, Fail> {
    let mut out = String::new(alloc);
    put_document(&mut out, document)?;
    Ok(out.as_str() == wanted)
}

// Whether the bytes are read, and written so.
fn is_read(alloc: Global, bytes: &[u8], wanted: &str) -> Result<bool, Fail> {
    match read_fin(alloc, bytes) {
        Ok(document) => is_written(alloc, &document, wanted),
        Err(_) => Ok(false),
    }
}

#[test]
fn reads(rt: HostRuntime) -> Result<(), Fail> {
    for (text, wanted) in [
        (
            "root = \"Cell\"\nfuel = 1000\n[objects]\nCell = 1\n[fields]\n\"Cell.v\" = [{ from = 0, to = 2 }]\n",
            "Cell 1000; Cell 1; Cell.v 0..2",
        ),
        (
            "root = 'S'\nfuel = 1_000_000_000\n[objects]\nS = 1\n[arrays]\n'int[]' = { count = 1, lengths = [0, { from = 1, to = 2 }] }\n[fields]\n'S.a' = ['null', 'int[]']\n'int[].*' = [0, 1]\n[params]\n'put.x' = [{ from = -1, to = 1 }]\n",
            "S 1000000000; S 1; int[] 1 0 1..2; S.a null int[]; int[].* 0 1; put.x -1..1",
        ),
        ("fuel = 1\nroot = 'R'", "R 1"),
        (
            "root = ''\nfuel = 0x10\nfields.'A.b' = []\nobjects = {}",
            " 16; A.b",
        ),
        (
            "root='R'\nfuel=7\nobjects={R=0,A=64}\narrays.X={lengths=[],count=0}",
            "R 7; A 64; R 0; X 0",
        ),
        (
            "root='R'\nfuel=7\n[fields]\n'R.f'=[true, 'R', false, 'A', 'R', 5, -2147483648, 2147483647, {to=3,from=9}]",
            "R 7; R.f true R false A R 5 -2147483648 2147483647 9..3",
        ),
        (
            "root='R'\nfuel=7\n[fields]\n'R.f'=[2147483648, -9223372036854775808, {from=0,to=9223372036854775807}]",
            "R 7; R.f 2147483648 -9223372036854775808 0..9223372036854775807",
        ),
        ("version = 1\nroot='R'\nfuel=7\n[objects]\nR=1", "R 7; R 1"),
        (
            "version = 2\nroot='A'\nfuel=7\n[objects]\nX={count=2,class='N'}\nA={class='N',count=1}\n'Größe'={class='a b',count=64}\nint={class='int',count=0}",
            "A 7 v2; A 1 N; Größe 64 a b; X 2 N; int 0",
        ),
        ("version=2\nroot='R'\nfuel=7", "R 7 v2"),
        (
            "root='R'\nfuel=7\n[[fields.'R.f']]\nfrom=1\nto=2\n[[fields.'R.f']]\nto=4\nfrom=3",
            "R 7; R.f 1..2 3..4",
        ),
    ] {
        let is_read = is_read(rt.alloc(), text.as_bytes(), wanted)?;
        assert!(rt; is_read, "{text}");
    }
    Ok(())
}

// The first of these texts that isn't refused by that rule at its item.
fn wrong_of(
    alloc: Global,
    code: &str,
    rows: &[(&'static str, &'static str)],
) -> Option<&'static str> {
    for (text, item) in rows {
        if !is_refused(alloc, text.as_bytes(), code, item) {
            return Some(text);
        }
    }
    None
}

#[test]
fn no_toml(rt: HostRuntime) {
    let wrong = wrong_of(
        rt.alloc(),
        "F1",
        [
            ("=", "toml"),
            ("root = 'R'\nroot = 'R'\nfuel = 1", "toml"),
            ("fuel = 9223372036854775808\nroot = 'R'", "toml"),
        ]
        .as_slice(),
    );
    assert_eq!(rt; wrong, None);
}

#[test]
fn no_utf8(rt: HostRuntime) {
    let is_refused = is_refused(
        rt.alloc(),
        b"root = 'R\xff'\nfuel = 1".as_slice(),
        "F1",
        "toml",
    );
    assert!(rt; is_refused);
}

#[test]
fn unknown_keys(rt: HostRuntime) {
    let wrong = wrong_of(
        rt.alloc(),
        "F2",
        [
            ("zed = 1\nalpha = 2", "alpha"),
            ("root = 'R'\nfuel = 1\nversions = 2", "versions"),
            (
                "version = 2\nroot = 'R'\nfuel = 1\n[objects]\nA = { class = 'N', count = 1, more = 1 }",
                "objects.A",
            ),
            (
                "root = 'R'\nfuel = 1\n'arrays-1' = 1\n[arrays]\nX = { count = 1, lengths = [], more = 1 }",
                "arrays-1",
            ),
            (
                "root = 'R'\nfuel = 1\narrayt = 1\n[arrays]\nX = { count = 1, lengths = [], more = 1 }",
                "arrays.X",
            ),
            (
                "root = 'R'\nfuel = 1\n[arrays]\nX = { count = 1, lengths = [{ from = 1, to = 2, by = 1 }] }",
                "arrays.X",
            ),
            (
                "root = 1\nfuel = 1\n[fields]\n'A.b' = [{ from = 1, to = 2, by = 1 }]",
                "fields.A.b",
            ),
            (
                "root = 'R'\nfuel = 1\n[params]\nbare = [{ a = 1 }]",
                "params.bare",
            ),
        ]
        .as_slice(),
    );
    assert_eq!(rt; wrong, None);
}

#[test]
fn wrong_kinds(rt: HostRuntime) {
    let wrong = wrong_of(
        rt.alloc(),
        "F3",
        [
            ("root = 1\nfuel = 0", "root"),
            ("root = 'R'\nfuel = 1.0", "fuel"),
            ("root.x = 1\nfuel = '1'", "fuel"),
            ("root = ['R']\nfuel = 1", "root"),
            ("root = 'R'\nfuel = 1979-05-27", "fuel"),
            ("root = 'R'\nfuel = 1\nobjects = 1\narrays = []", "arrays"),
            ("root = 'R'\nfuel = 1\nobjects = 1", "objects"),
            ("root = 'R'\nfuel = 1\nfields = 'A'\nparams = 1", "fields"),
            (
                "root = 'R'\nfuel = 1\n[objects]\nR = '1'\nA = true",
                "objects.A",
            ),
            ("root = 'R'\nfuel = 1\n[objects]\nA.B = 1", "objects.A"),
            ("root = 'R'\nfuel = 1\n[arrays]\nX = 1", "arrays.X"),
            (
                "root = 'R'\nfuel = 1\n[arrays]\nX = { count = 1, lengths = [true] }",
                "arrays.X",
            ),
            (
                "root = 'R'\nfuel = 1\n[arrays]\nX = { count = 1, lengths = ['null'] }",
                "arrays.X",
            ),
            (
                "root = 'R'\nfuel = 1\n[arrays]\nX = { count = 1, lengths = 1 }",
                "arrays.X",
            ),
        ]
        .as_slice(),
    );
    assert_eq!(rt; wrong, None);
}

#[test]
fn wrong_kinds_in_domains(rt: HostRuntime) {
    let wrong = wrong_of(
        rt.alloc(),
        "F3",
        [
            ("root = 'R'\nfuel = 1\n[fields]\nRv = [1]", "fields.Rv"),
            ("root = 'R'\nfuel = 1\n[fields]\nR.w = [1]", "fields.R"),
            ("root = 'R'\nfuel = 1\n[fields]\n'R.' = [1]", "fields.R."),
            ("root = 'R'\nfuel = 1\n[fields]\n'.w' = [1]", "fields..w"),
            (
                "root = 'R'\nfuel = 1\n[fields]\n'R.w.x' = [1]",
                "fields.R.w.x",
            ),
            ("root = 'R'\nfuel = 1\n[fields]\n'' = [1]", "fields."),
            ("root = 'R'\nfuel = 1\n[fields]\n'R.w' = 1", "fields.R.w"),
            (
                "root = 'R'\nfuel = 1\n[fields]\n'R.w' = { from = 1, to = 2 }",
                "fields.R.w",
            ),
            (
                "root = 'R'\nfuel = 1\n[fields]\n'R.w' = [1.0]",
                "fields.R.w",
            ),
            (
                "root = 'R'\nfuel = 1\n[fields]\n'R.w' = [[1]]",
                "fields.R.w",
            ),
            (
                "root = 'R'\nfuel = 1\n[params]\n'm.x' = [1979-05-27]",
                "params.m.x",
            ),
            (
                "root = 'R'\nfuel = 0\n[fields]\n'R.w' = [{ from = true, to = 2 }]",
                "fields.R.w",
            ),
        ]
        .as_slice(),
    );
    assert_eq!(rt; wrong, None);
}

// Version 2: each of these breaks one rule.
#[test]
fn wrong_domains(rt: HostRuntime) {
    let wrong = wrong_of(
        rt.alloc(),
        "F3",
        [
            ("version = '2'\nroot = 'R'\nfuel = 0", "version"),
            ("version = 2.0\nroot = 'R'\nfuel = 1", "version"),
            (
                "version = 2\nroot = 'R'\nfuel = 1\n[objects]\nA = 1",
                "objects.A",
            ),
            (
                "version = 2\nroot = 'R'\nfuel = 1\n[objects]\nnull = { class = 'N', count = 1 }",
                "objects.null",
            ),
            (
                "version = 2\nroot = 'R'\nfuel = 1\n[objects]\n1x = { class = 'N', count = 1 }",
                "objects.1x",
            ),
            (
                "version = 2\nroot = 'R'\nfuel = 1\n[objects]\n'' = { class = 'N', count = 1 }",
                "objects.",
            ),
            (
                "version = 2\nroot = 'R'\nfuel = 1\n[objects]\n'A#0' = { class = 'N', count = 1 }",
                "objects.A#0",
            ),
            (
                "version = 2\nroot = 'R'\nfuel = 1\n[objects]\nA = { class = 1, count = 65 }",
                "objects.A",
            ),
            (
                "root = 'R'\nfuel = 1\n[objects]\nA = { class = 'N', count = 1 }",
                "objects.A",
            ),
            (
                "version = 3\nroot = 'R'\nfuel = 1\n[objects]\nA = { class = 'N', count = 1 }",
                "objects.A",
            ),
        ]
        .as_slice(),
    );
    assert_eq!(rt; wrong, None);
}

#[test]
fn wrong_versions(rt: HostRuntime) {
    let wrong = wrong_of(
        rt.alloc(),
        "F4",
        [
            ("version = 0\nroot = 'R'\nfuel = 1", "version"),
            (
                "version = 3\nroot = 'R'\nfuel = 1\n[objects]\nA = 1",
                "version",
            ),
            ("version = -2\nroot = 'R'\nfuel = 1", "version"),
            (
                "version = 2\nroot = 'R'\nfuel = 1\n[objects]\nA = { class = 'N', count = 65 }",
                "objects.A",
            ),
        ]
        .as_slice(),
    );
    assert_eq!(rt; wrong, None);
}

#[test]
fn half_domains(rt: HostRuntime) {
    let wrong = wrong_of(
        rt.alloc(),
        "F5",
        [
            (
                "version = 2\nroot = 'R'\nfuel = 1\n[objects]\nA = { class = 'N' }",
                "objects.A",
            ),
            (
                "version = 2\nroot = 'R'\nfuel = 1\n[objects]\nA = { count = 1 }",
                "objects.A",
            ),
        ]
        .as_slice(),
    );
    assert_eq!(rt; wrong, None);
}

#[test]
fn out_of_limits(rt: HostRuntime) {
    let wrong = wrong_of(
        rt.alloc(),
        "F4",
        [
            ("root = 'R'\nfuel = 0", "fuel"),
            ("fuel = 0", "fuel"),
            ("root = 'R'\nfuel = -1", "fuel"),
            ("root = 'R'\nfuel = 1000000001", "fuel"),
            ("root = 'R'\nfuel = 1\n[objects]\nR = 65", "objects.R"),
            ("root = 'R'\nfuel = 1\n[objects]\nR = -1", "objects.R"),
            (
                "root = 'R'\nfuel = 1\n[arrays]\nX = { count = 65, lengths = [] }",
                "arrays.X",
            ),
            (
                "root = 'R'\nfuel = 1\n[arrays]\nX = { count = 1, lengths = [65] }",
                "arrays.X",
            ),
            (
                "root = 'R'\nfuel = 1\n[arrays]\nX = { count = 1, lengths = [{ from = 65, to = 0 }] }",
                "arrays.X",
            ),
            (
                "root = 'R'\nfuel = 1\n[arrays]\nX = { count = 1, lengths = [{ from = 0, to = 65 }] }",
                "arrays.X",
            ),
        ]
        .as_slice(),
    );
    assert_eq!(rt; wrong, None);
}

#[test]
fn missing_keys(rt: HostRuntime) {
    let wrong = wrong_of(
        rt.alloc(),
        "F5",
        [
            ("", "fuel"),
            ("fuel = 1", "root"),
            ("root = 'R'", "fuel"),
            (
                "root = 'R'\nfuel = 1\n[arrays]\nX = { count = 1 }",
                "arrays.X",
            ),
            (
                "root = 'R'\nfuel = 1\n[arrays]\nX = { lengths = [1] }",
                "arrays.X",
            ),
            (
                "root = 'R'\nfuel = 1\n[arrays]\nX = { count = 1, lengths = [{}] }",
                "arrays.X",
            ),
            (
                "root = 'R'\nfuel = 1\n[fields]\n'R.v' = [{ from = 1 }]",
                "fields.R.v",
            ),
            ("fuel = 1\n[fields]\n'R.v' = [{ to = 1 }]", "fields.R.v"),
            (
                "root = 'R'\nfuel = 1\n[fields]\n'R.v' = [{ to = 1 }]\n'A.v' = [{ to = 1 }]\n[arrays]\nX = {}",
                "arrays.X",
            ),
        ]
        .as_slice(),
    );
    assert_eq!(rt; wrong, None);
}

// Adds the text so often.
fn repeat(out: &mut String, text: &str, times: u32) -> Result<(), Fail> {
    for _ in 0..times {
        out.push_str(text)?;
    }
    Ok(())
}

// A text, then another so often, and a third so often.
fn put_long(
    out: &mut String,
    head: &str,
    first: &str,
    firsts: u32,
    second: &str,
    seconds: u32,
) -> Result<(), Fail> {
    out.push_str(head)?;
    repeat(out, first, firsts)?;
    repeat(out, second, seconds)
}

const DOMAIN: &str = "root = 'R'\nfuel = 1\n[fields]\n'R.v' = [";

const COMMENT: &str = "root = 'R'\nfuel = 1\n";

#[test]
fn brackets(rt: HostRuntime) -> Result<(), Fail> {
    let mut text = String::new(rt.alloc());
    put_long(&mut text, DOMAIN, "[", 10_000, "]", 10_001)?;
    let is_refused = is_refused(rt.alloc(), text.as_bytes(), "F1", "toml");
    assert!(rt; is_refused);
    Ok(())
}

// Whether the bytes are read.
fn is_some_document(alloc: Global, bytes: &[u8]) -> bool {
    read_fin(alloc, bytes).is_ok()
}

#[test]
fn many_numbers(rt: HostRuntime) -> Result<(), Fail> {
    let mut text = String::new(rt.alloc());
    put_long(&mut text, DOMAIN, "0,", 65_537, "]", 1)?;
    let is_read = is_some_document(rt.alloc(), text.as_bytes());
    assert!(rt; is_read);
    Ok(())
}

// Whether so many bytes may be, and are read.
fn is_greatest(alloc: Global, bytes: &[u8]) -> bool {
    bytes.len() == MAX_FIN_BYTES && !is_too_long(bytes) && is_some_document(alloc, bytes)
}

// The size, and a byte more.
#[test]
fn sizes(rt: HostRuntime) -> Result<(), Fail> {
    let mut text = String::new(rt.alloc());
    put_long(&mut text, COMMENT, "#", 1_048_556, "", 0)?;
    let is_greatest = is_greatest(rt.alloc(), text.as_bytes());
    text.push_str("#")?;
    let is_refused = is_refused(rt.alloc(), text.as_bytes(), "F6", "size");
    let is_too_long = is_too_long(text.as_bytes());
    assert!(rt; is_greatest);
    assert!(rt; is_refused);
    assert!(rt; is_too_long);
    Ok(())
}

#[test]
fn laws(_rt: HostRuntime) {
    least_law();
    item_law();
}
