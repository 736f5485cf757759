// The input of a call.

/// A call of the tool: its words, parted by blanks; its files, each a name and a text, and the numbers (from 1) of the reads
/// that fail; an output of some room that takes at most `step` bytes a write, and the numbers of the writes that fail.
#[derive(Clone, Copy)]
pub struct Call<'a> {
    pub words: &'a str,
    pub files: &'a [(&'a str, &'a str)],
    pub failing_reads: &'a [u32],
    pub room: usize,
    pub step: usize,
    pub failing_puts: &'a [u32],
}

impl<'a> Call<'a> {
    /// A call whose reads and writes all succeed.
    pub fn new(words: &'a str, files: &'a [(&'a str, &'a str)]) -> Call<'a> {
        Call {
            words,
            files,
            failing_reads: &[],
            room: 1024,
            step: 1024,
            failing_puts: &[],
        }
    }
}
