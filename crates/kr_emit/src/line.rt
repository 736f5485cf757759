// Texts added to a line.
ghost use Rattle.std.specs.Prelude.{◌≡◌, ◌++◌, OnOk, decimal};
ghost use Rattle.std.specs.Fmt.{signed_decimal};
ghost use Rattle.kr_emit.specs.Vocabulary.{cut_text, joined, line_bytes};

use itoa::Buffer;
use kr_base::{Cut, Failed, NoMemory};
use kr_text::Line;

/// Adds texts, one after another.
pub(crate) fn add_all(line: &mut Line, pieces: &[&[u8]]) -> Result<(), NoMemory>
    ensures { OnOk result (line_bytes line.new ≡ line_bytes line.old ++ joined pieces.now) }
{
    for piece in pieces {
        line.add(piece)?;
    }
    Ok(())
}

/// Adds a number, with a `-` if it is negative.
pub(crate) fn add_number(line: &mut Line, number: i64) -> Result<(), NoMemory>
    ensures { OnOk result (line_bytes line.new ≡ line_bytes line.old ++ signed_decimal number) }
{
    let mut buffer = Buffer::new();
    line.add(buffer.format(i128::from(number)).as_bytes())
}

/// Adds a key.
pub(crate) fn add_key(line: &mut Line, key: &Cut) -> Result<(), NoMemory>
    ensures { OnOk result (line_bytes line.new ≡ line_bytes line.old ++ cut_text key.now) }
{
    match key.write(line) {
        Ok(()) => Ok(()),
        Err(Failed) => match line.refused() {
            Some(why) => Err(why),
            // a line that failed was refused memory
            None => unreachable!(),
        },
    }
}
