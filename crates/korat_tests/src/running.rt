// Calls, made one way and the other. Each function owns one of words, files and output, over no step that may fail.

use crate::call::Call;
use crate::held::{Ended, Written, held_against};
use crate::making::{files_of, sink_of, words_of};
use korat_top::{Alone, NoWords, run, run_shared, start};
use kr_base::{NoMemory, Words};
use kr_io::{Gate, MemFiles, MemSink, OpenGate};
use std::alloc::Global;
use std::sync::Wait;
use std::thread::Threads;

fn run_into<W: Threads + Wait + Sync, G: Gate + Sync>(
    rt: &W,
    alloc: Global,
    words: &Words,
    files: &mut MemFiles,
    call: &Call,
    gate: &G,
    text: &[u8],
) -> Result<Ended, NoMemory> {
    let mut out = sink_of(alloc, call)?;
    let status = run(rt, alloc, words, files, &mut out, gate);
    Ok(held_against(status, &out, text))
}

fn run_over<W: Threads + Wait + Sync, G: Gate + Sync>(
    rt: &W,
    alloc: Global,
    words: &Words,
    call: &Call,
    gate: &G,
    text: &[u8],
) -> Result<Ended, NoMemory> {
    let mut files = files_of(alloc, call)?;
    run_into(rt, alloc, words, &mut files, call, gate, text)
}

/// How a call ends, whose workers pass this gate; what it writes is held against a text.
pub fn ended<W: Threads + Wait + Sync, G: Gate + Sync>(
    rt: &W,
    alloc: Global,
    call: &Call,
    gate: &G,
    text: &[u8],
) -> Result<Ended, NoMemory> {
    let words = words_of(alloc, call.words)?;
    run_over(rt, alloc, &words, call, gate, text)
}

/// Whether a call ends with this status, and has written just this.
pub fn ends<W: Threads + Wait + Sync>(
    rt: &W,
    alloc: Global,
    call: &Call,
    status: u8,
    text: &[u8],
) -> Result<bool, NoMemory> {
    let ended = ended(rt, alloc, call, &OpenGate, text)?;
    Ok(ended.status == status && ended.written == Written::Whole)
}

/// The words that the tool is started with, or why there are none.
#[derive(Clone, Copy)]
pub enum Given {
    Words,
    NotText,
    NoMemory(NoMemory),
}

fn given_words(
    alloc: Global,
    given: Given,
    words: &str,
) -> Result<Result<Words, NoWords>, NoMemory> {
    match given {
        Given::Words => Ok(Ok(words_of(alloc, words)?)),
        Given::NotText => Ok(Err(NoWords::NotText)),
        Given::NoMemory(why) => Ok(Err(NoWords::Memory(why))),
    }
}

fn start_over<W: Threads + Wait + Sync>(
    rt: &W,
    alloc: Global,
    given: Given,
    call: &Call,
    files: &mut MemFiles,
    out: &mut MemSink,
) -> Result<u8, NoMemory> {
    let words = given_words(alloc, given, call.words)?;
    match start(alloc, words, files, out) {
        Alone::Ended(status) => Ok(status),
        Alone::Shared(search) => Ok(run_shared(rt, alloc, &search, files, out, &OpenGate)),
    }
}

fn start_into<W: Threads + Wait + Sync>(
    rt: &W,
    alloc: Global,
    given: Given,
    call: &Call,
    out: &mut MemSink,
) -> Result<u8, NoMemory> {
    let mut files = files_of(alloc, call)?;
    start_over(rt, alloc, given, call, &mut files, out)
}

/// How a call ends that is started with its words, or with none.
pub fn started<W: Threads + Wait + Sync>(
    rt: &W,
    alloc: Global,
    given: Given,
    call: &Call,
    text: &[u8],
) -> Result<Ended, NoMemory> {
    let mut out = sink_of(alloc, call)?;
    let status = start_into(rt, alloc, given, call, &mut out)?;
    Ok(held_against(status, &out, text))
}
