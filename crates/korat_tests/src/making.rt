// Words, files and outputs.

use crate::call::Call;
use kr_base::{NoMemory, Words};
use kr_io::{MemFile, MemFiles, MemSink};
use std::alloc::Global;

fn push_words(all: &mut Words, words: &str) -> Result<(), NoMemory> {
    if words.is_empty() {
        return Ok(());
    }
    for word in words.split(' ') {
        all.push(word)?;
    }
    Ok(())
}

/// The words of a text; none of the empty one.
pub(crate) fn words_of(alloc: Global, words: &str) -> Result<Words, NoMemory> {
    let mut all = Words::new(alloc);
    push_words(&mut all, words)?;
    Ok(all)
}

fn file_of(alloc: Global, name: &str, text: &str) -> Result<MemFile, NoMemory> {
    let name = String::from_str(alloc, name)?;
    let bytes = Vec::from_slice(alloc, text.as_bytes())?;
    Ok(MemFile { name, bytes })
}

fn push_files(
    alloc: Global,
    all: &mut Vec<MemFile>,
    files: &[(&str, &str)],
) -> Result<(), NoMemory> {
    for (name, text) in files {
        let file = file_of(alloc, name, text)?;
        all.push(file)?;
    }
    Ok(())
}

fn all_files(alloc: Global, files: &[(&str, &str)]) -> Result<Vec<MemFile>, NoMemory> {
    let mut all = Vec::new(alloc);
    push_files(alloc, &mut all, files)?;
    Ok(all)
}

/// The files of a call.
pub(crate) fn files_of(alloc: Global, call: &Call) -> Result<MemFiles, NoMemory> {
    let failing = Vec::from_slice(alloc, call.failing_reads)?;
    let files = all_files(alloc, call.files)?;
    Ok(MemFiles::new(alloc, files, failing))
}

/// The output of a call.
pub(crate) fn sink_of(alloc: Global, call: &Call) -> Result<MemSink, NoMemory> {
    let failing = Vec::from_slice(alloc, call.failing_puts)?;
    MemSink::new(alloc, call.room, call.step.max(1), failing)
}
