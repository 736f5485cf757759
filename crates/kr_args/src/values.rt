// The values of arguments, parsed from their words.
ghost use Rattle.std.specs.Prelude.{◌≡◌, ◌<◌, Some, None, map, IfOk, MatchResult};
ghost use Rattle.kr_base.specs.Parsing.{cut_of};
ghost use Rattle.kr_args.specs.Reading.{number_in, text_in, texts_in, from_in, to_in, limit_in, workers_in, window_in, pool_named, pool_in, flag_in, files_with};

use crate::forms::{ArgRefusal, Pool, Word};
use itoa::Buffer;
use kr_base::{Bound, Cut, CutRefusal, NoMemory, Words, reading_law};
use std::alloc::Global;

/// The number of a text, from `low` to `high`.
pub(crate) fn read_number(low: u32, high: u32, text: &str) -> Option<u32>
    ensures { result ≡ number_in low high text.now }
{
    let Ok(number) = text.parse::<u32>() else {
        return None;
    };
    let mut buffer = Buffer::new();
    if buffer.format(number) != text {
        return None;
    }
    if number < low {
        return None;
    }
    if high < number {
        return None;
    }
    Some(number)
}

/// The cut of a text.
fn read_cut(alloc: Global, text: &str) -> Result<Cut, ArgRefusal>
    ensures { MatchResult result (λ cut. cut_of text.now ≡ Some cut) (λ e. e ≡ ArgRefusal.Usage → cut_of text.now ≡ None) }
{
    reading_law();
    match Cut::parse(alloc, text) {
        Ok(cut) => Ok(cut),
        Err(CutRefusal::NoMemory(why)) => Err(ArgRefusal::NoMemory(why)),
        Err(CutRefusal::Malformed(_)) => Err(ArgRefusal::Usage),
        Err(CutRefusal::TooLong(_)) => Err(ArgRefusal::Usage),
    }
}

/// The start of a span.
pub(crate) fn read_from(alloc: Global, text: Option<&str>) -> Result<Cut, ArgRefusal>
    ensures { let wanted = from_in (text_in text.entry) in MatchResult result (λ cut. wanted ≡ Some cut) (λ e. e ≡ ArgRefusal.Usage → wanted ≡ None) }
{
    match text {
        None => Ok(Cut::empty(alloc)),
        Some(text) => read_cut(alloc, text),
    }
}

/// The end of a span.
pub(crate) fn read_to(alloc: Global, text: Option<&str>) -> Result<Bound, ArgRefusal>
    ensures { let wanted = to_in (text_in text.entry) in MatchResult result (λ bound. wanted ≡ Some bound) (λ e. e ≡ ArgRefusal.Usage → wanted ≡ None) }
{
    match text {
        None => Ok(Bound::End),
        Some(text) => match read_cut(alloc, text) {
            Ok(cut) => Ok(Bound::At(cut)),
            Err(refusal) => Err(refusal),
        },
    }
}

/// The limit on valid entries.
pub(crate) fn read_limit(text: Option<&str>) -> Result<u32, ArgRefusal>
    ensures { let wanted = limit_in (text_in text.entry) in MatchResult result (λ limit. wanted ≡ Some limit) (λ _. wanted ≡ None) }
{
    match text {
        None => Ok(u32::MAX),
        Some(text) => match read_number(1, u32::MAX, text) {
            Some(limit) => Ok(limit),
            None => Err(ArgRefusal::Usage),
        },
    }
}

/// The number of workers.
pub(crate) fn read_workers(text: Option<&str>) -> Result<u32, ArgRefusal>
    ensures { let wanted = workers_in (text_in text.entry) in MatchResult result (λ workers. wanted ≡ Some workers) (λ _. wanted ≡ None) }
{
    match text {
        None => Ok(1),
        Some(text) => match read_number(1, 64, text) {
            Some(workers) => Ok(workers),
            None => Err(ArgRefusal::Usage),
        },
    }
}

/// The window: the most rows that are kept before they are written.
pub(crate) fn read_window(text: Option<&str>) -> Result<u32, ArgRefusal>
    ensures { let wanted = window_in (text_in text.entry) in MatchResult result (λ window. wanted ≡ Some window) (λ _. wanted ≡ None) }
{
    match text {
        None => Ok(4096),
        Some(text) => match read_number(1, 65536, text) {
            Some(window) => Ok(window),
            None => Err(ArgRefusal::Usage),
        },
    }
}

/// The pool of a name.
fn read_pool_name(name: &str) -> Result<Pool, ArgRefusal>
    ensures { let wanted = pool_named name.now in MatchResult result (λ pool. wanted ≡ Some pool) (λ _. wanted ≡ None) }
{
    if name == "deque" {
        Ok(Pool::Deque)
    } else {
        Err(ArgRefusal::Usage)
    }
}

/// How a listing is shared among workers. A named pool excludes a window and the list of steps.
pub(crate) fn read_pool(
    window: Option<&str>,
    trace: bool,
    name: Option<&str>,
) -> Result<Pool, ArgRefusal>
    ensures { let wanted = pool_in (text_in window.entry) trace (text_in name.entry) in MatchResult result (λ pool. wanted ≡ Some pool) (λ _. wanted ≡ None) }
{
    match (name, window, trace) {
        (None, _, _) => Ok(Pool::Board),
        (Some(name), None, false) => read_pool_name(name),
        _ => Err(ArgRefusal::Usage),
    }
}

/// Whether a flag was given; `clap` gives it a value in any case.
pub(crate) fn read_flag(text: Option<&str>) -> bool
    ensures { result ≡ flag_in (text_in text.entry) }
{
    match text {
        None => false,
        Some(text) => text == "true",
    }
}

/// The value of a word argument.
pub(crate) fn read_word(alloc: Global, text: Option<&str>) -> Result<Word, ArgRefusal>
    ensures { let wanted = text_in text.entry in
        MatchResult result (λ word. wanted ≡ Some word) (λ e. e ≡ ArgRefusal.Usage → wanted ≡ None) }
{
    match text {
        Some(text) => Ok(Word::of(alloc, text)?),
        None => Err(ArgRefusal::Usage),
    }
}

fn copy_texts(alloc: Global, texts: &[&str]) -> Result<Words, NoMemory>
    ensures { IfOk result (λ copies. copies ≡ map (λ text. text.now) texts.now) }
{
    let mut copies = Words::new(alloc);
    for text in texts {
        copies.push(text)?;
    }
    Ok(copies)
}

/// The words of an argument.
pub(crate) fn read_words(alloc: Global, texts: Option<&[&str]>) -> Result<Words, ArgRefusal>
    ensures { let wanted = texts_in texts.entry in
        MatchResult result (λ words. wanted ≡ Some words) (λ e. e ≡ ArgRefusal.Usage → wanted ≡ None) }
{
    match texts {
        Some(texts) => Ok(copy_texts(alloc, texts)?),
        None => Err(ArgRefusal::Usage),
    }
}

/// The files of a command: the finitization and the sources.
pub(crate) fn read_files(
    alloc: Global,
    fin: Option<&str>,
    sources: Option<&[&str]>,
) -> Result<(Word, Words), ArgRefusal>
    ensures { let wanted = files_with (text_in fin.entry) (texts_in sources.entry) in
        MatchResult result (λ files. wanted ≡ Some files) (λ e. e ≡ ArgRefusal.Usage → wanted ≡ None) }
{
    match (fin, sources) {
        (Some(fin), Some(sources)) => {
            let fin = Word::of(alloc, fin)?;
            let sources = copy_texts(alloc, sources)?;
            Ok((fin, sources))
        }
        _ => Err(ArgRefusal::Usage),
    }
}
