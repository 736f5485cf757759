// The lines that end a call.
ghost use Rattle.std.specs.Prelude.{◌≡◌, ◌++◌, codes, is_ok, if◌then◌else◌};
ghost use Rattle.kr_base.specs.Cuts.{cut_text};
ghost use Rattle.kr_base.specs.Told.{Writes};
ghost use Rattle.kr_report.specs.Texts.{listed_text, tested_text, checked_text, counted_text, read_fault_text, memory_text, usage_text};
ghost use Rattle.kr_report.specs.Summaries.{summary_line, summary_status};

use itoa::Buffer;
use kr_base::{Cut, Failed, Sink, put_all};
use kr_text::put_pieces;

/// What the line says that ends a call.
#[derive(Drop)]
pub enum Summary {
    /// All rows of a listing are written: how many, and how many entries were tried.
    List {
        valid: u64,
        tried: u64,
    },
    /// All rows of a test are written: how many, how many of these are failing, and how many entries were tried.
    Test {
        valid: u64,
        failing: u64,
        tried: u64,
    },
    /// There are more rows; the key of the last one written.
    More(Cut),
    /// The entry of this key is spent.
    Spent(Cut),
    /// The problem has so many classes and slots.
    Check {
        classes: u32,
        slots: u32,
    },
    /// So many structures of so many nodes are valid.
    Demo {
        nodes: u32,
        valid: u64,
    },
}

/// `valid V tried T`
fn put_listed<K: Sink>(valid: u64, tried: u64, out: &mut K) -> Result<(), Failed>
    ensures { Writes K.taken K.faults out.old out.new (listed_text valid tried) result }
{
    let mut first = Buffer::new();
    let mut second = Buffer::new();
    let valid = first.format(valid).as_bytes();
    let tried = second.format(tried).as_bytes();
    put_pieces(out, &[b"valid ", valid, b" tried ", tried, b"\n"])
}

/// `valid V failing F tried T`
fn put_tested<K: Sink>(valid: u64, failing: u64, tried: u64, out: &mut K) -> Result<(), Failed>
    ensures { Writes K.taken K.faults out.old out.new (tested_text valid failing tried) result }
{
    let mut first = Buffer::new();
    let mut second = Buffer::new();
    let mut third = Buffer::new();
    let valid = first.format(valid).as_bytes();
    let failing = second.format(failing).as_bytes();
    let tried = third.format(tried).as_bytes();
    put_pieces(
        out,
        &[
            b"valid ",
            valid,
            b" failing ",
            failing,
            b" tried ",
            tried,
            b"\n",
        ],
    )
}

/// Writes a word, a key, and the line's end.
fn put_keyed<K: Sink>(word: &[u8], key: &Cut, out: &mut K) -> Result<(), Failed>
    ensures { Writes K.taken K.faults out.old out.new ((word.now ++ cut_text key.now) ++ codes "\n") result }
{
    put_all(out, word)?;
    key.write(out)?;
    put_all(out, b"\n")
}

/// `ok classes C slots S`
fn put_checked<K: Sink>(classes: u32, slots: u32, out: &mut K) -> Result<(), Failed>
    ensures { Writes K.taken K.faults out.old out.new (checked_text classes slots) result }
{
    let mut first = Buffer::new();
    let mut second = Buffer::new();
    let classes = first.format(classes).as_bytes();
    let slots = second.format(slots).as_bytes();
    put_pieces(out, &[b"ok classes ", classes, b" slots ", slots, b"\n"])
}

/// `nodes N valid V`
fn put_counted<K: Sink>(nodes: u32, valid: u64, out: &mut K) -> Result<(), Failed>
    ensures { Writes K.taken K.faults out.old out.new (counted_text nodes valid) result }
{
    let mut first = Buffer::new();
    let mut second = Buffer::new();
    let nodes = first.format(nodes).as_bytes();
    let valid = second.format(valid).as_bytes();
    put_pieces(out, &[b"nodes ", nodes, b" valid ", valid, b"\n"])
}

/// Writes the line that ends a call. It takes no memory.
pub fn summary_text<K: Sink>(summary: &Summary, out: &mut K) -> Result<(), Failed>
    ensures { Writes K.taken K.faults out.old out.new (summary_line summary.now) result }
{
    match summary {
        Summary::List { valid, tried } => put_listed(*valid, *tried, out),
        Summary::Test {
            valid,
            failing,
            tried,
        } => put_tested(*valid, *failing, *tried, out),
        Summary::More(key) => put_keyed(b"more ", key, out),
        Summary::Spent(key) => put_keyed(b"spent ", key, out),
        Summary::Check { classes, slots } => put_checked(*classes, *slots, out),
        Summary::Demo { nodes, valid } => put_counted(*nodes, *valid, out),
    }
}

impl Summary {
    /// The status of a call that ends with it, where no row is a failing test: 5 where an entry is spent.
    pub fn status(&self) -> u8
        ensures { result ≡ summary_status self.now }
    {
        match self {
            Summary::List { .. } => 0,
            Summary::Test { .. } => 0,
            Summary::More(_) => 0,
            Summary::Spent(_) => 5,
            Summary::Check { .. } => 0,
            Summary::Demo { .. } => 0,
        }
    }
}

/// `read fault NAME`
pub fn put_read_fault<K: Sink>(name: &str, out: &mut K) -> Result<(), Failed>
    ensures { Writes K.taken K.faults out.old out.new (read_fault_text name.now) result }
{
    put_pieces(out, &[b"read fault ", name.as_bytes(), b"\n"])
}

pub fn put_out_of_memory<K: Sink>(out: &mut K) -> Result<(), Failed>
    ensures { Writes K.taken K.faults out.old out.new memory_text result }
{
    put_all(out, b"out of memory\n")
}

pub fn put_usage_fault<K: Sink>(out: &mut K) -> Result<(), Failed>
    ensures { Writes K.taken K.faults out.old out.new usage_text result }
{
    put_all(out, b"usage fault\n")
}

/// A status once its text is written, or that of a write fault.
pub fn once_written(written: Result<(), Failed>, status: u8) -> u8
    ensures { result ≡ (if is_ok written then status else 7) }
{
    if written.is_ok() { status } else { 7 }
}
