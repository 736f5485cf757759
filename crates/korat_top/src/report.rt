// What a command's files are called.
ghost use Rattle.std.specs.Prelude.{◌≡◌, []};
ghost use Rattle.korat_top_files.specs.Refusals.{files_of, name_of as name_in};
ghost use Rattle.korat_top.specs.Answer.{demo_inputs, searched_inputs};

use korat_top_files::InputFile;
use kr_args::forms::{Search, Word};
use kr_base::Words;

/// A file's name, as the words give it.
pub(crate) fn file_name<'a>(fin: &'a Word, sources: &'a Words, file: InputFile) -> &'a str
    ensures { result.now ≡ name_in (files_of fin.entry.now sources.entry.now) file }
{
    match file {
        InputFile::Finitization => fin.as_str(),
        InputFile::Source(number) => {
            if (number as usize) < sources.len() {
                sources.get(number as usize)
            } else {
                ""
            }
        }
    }
}

/// The name of a text of the demo.
fn demo_name(file: InputFile) -> &'static str
    ensures { result.now ≡ name_in demo_inputs file }
{
    match file {
        InputFile::Finitization => "demo.toml",
        InputFile::Source(0) => "Demo.java",
        InputFile::Source(_) => "",
    }
}

/// A finitization's name, where there are no sources.
pub(crate) fn alone_name(fin: &Word, file: InputFile) -> &str
    ensures { result.now ≡ name_in (files_of fin.entry.now []) file }
{
    match file {
        InputFile::Finitization => fin.as_str(),
        InputFile::Source(_) => "",
    }
}

/// The name of a search's file.
pub(crate) fn searched_name(search: &Search, file: InputFile) -> &str
    ensures { result.now ≡ name_in (searched_inputs search.entry.now) file }
{
    match search {
        Search::List(ask) => file_name(&ask.fin, &ask.sources, file),
        Search::Test { ask, .. } => file_name(&ask.fin, &ask.sources, file),
        Search::Demo { .. } => demo_name(file),
        Search::Shard(ask) => file_name(&ask.fin, &ask.sources, file),
        Search::Emit(ask) => file_name(&ask.fin, &ask.sources, file),
    }
}
