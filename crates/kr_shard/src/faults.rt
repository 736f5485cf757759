// Why files of shards aren't put together, and the line that says so.
ghost use Rattle.std.specs.Prelude.{◌≡◌, ◌++◌, [], codes, slice_index_or};
ghost use Rattle.kr_base.specs.Cuts.{cut_text};
ghost use Rattle.kr_base.specs.Told.{Writes};
ghost use Rattle.kr_shard.specs.Faults.{gap_text, long_text, malformed_text, overlap_text};
ghost use Rattle.kr_shard.specs.Found.{fault_text};
ghost use Rattle.kr_shard.specs.declared.faults.MergeStop.TheVariants.{Memory};

use itoa::Buffer;
use kr_base::{Cut, Failed, NoMemory, Sink, Words, put_all};
use kr_text::put_pieces;

/// What is wrong with files of shards. A file is named by its number, from 0.
#[derive(Drop)]
pub enum FileFault {
    /// It has more bytes than are taken.
    Long(u64),
    /// Up to this line it is no shard's text.
    Malformed { file: u64, line: u64 },
    /// It begins before the one before it ends.
    Overlap(u64),
    /// A shard ends here, and the next begins there.
    Gap(Cut, Cut),
}

/// Why files of shards aren't put together.
#[derive(Drop)]
pub enum MergeStop {
    /// The file of this number was not read.
    Read(u64),
    Refused(FileFault),
    Memory(NoMemory),
}

impl From<NoMemory> for MergeStop {
    ghost from_gives = { λ why stop. stop ≡ Memory why };

    fn from(why: NoMemory) -> MergeStop {
        MergeStop::Memory(why)
    }
}

/// The name of the file of a number, as the words give it.
pub fn name_at(names: &Words, number: u64) -> &str
    ensures { result.now ≡ slice_index_or names.entry.now number [] }
{
    if (number as usize) < names.len() {
        names.get(number as usize)
    } else {
        ""
    }
}

/// `NAME:LINE: M2`
fn put_malformed<K: Sink>(name: &str, line: u64, out: &mut K) -> Result<(), Failed>
    ensures { Writes K.taken K.faults out.old out.new (malformed_text name.now line) result }
{
    let mut digits = Buffer::new();
    put_pieces(
        out,
        &[
            name.as_bytes(),
            b":",
            digits.format(line).as_bytes(),
            b": M2\n",
        ],
    )
}

/// Writes a text and a cut.
pub(crate) fn put_cut<K: Sink>(text: &[u8], cut: &Cut, out: &mut K) -> Result<(), Failed>
    ensures { Writes K.taken K.faults out.old out.new (text.now ++ cut_text cut.now) result }
{
    put_all(out, text)?;
    cut.write(out)
}

/// `gap TO FROM`
fn put_gap<K: Sink>(to: &Cut, from: &Cut, out: &mut K) -> Result<(), Failed>
    ensures { Writes K.taken K.faults out.old out.new (gap_text to.now from.now) result }
{
    put_cut(b"gap ", to, out)?;
    put_cut(b" ", from, out)?;
    put_all(out, b"\n")
}

/// Writes the line that says what is wrong. It takes no memory.
pub fn put_fault<K: Sink>(names: &Words, fault: &FileFault, out: &mut K) -> Result<(), Failed>
    ensures { Writes K.taken K.faults out.old out.new (fault_text names.now fault.now) result }
{
    match fault {
        FileFault::Long(file) => put_pieces(out, &[name_at(names, *file).as_bytes(), b": M1\n"]),
        FileFault::Malformed { file, line } => put_malformed(name_at(names, *file), *line, out),
        FileFault::Overlap(file) => {
            put_pieces(out, &[name_at(names, *file).as_bytes(), b": M3\n"])
        }
        FileFault::Gap(to, from) => put_gap(to, from, out),
    }
}
