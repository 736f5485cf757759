//! Results of the lexer and the parser for texts. Each input line has a word for the question and a text; the answer is
//! printed after it. In a text a back quote and two hexadecimal digits are a byte.
#![tactic(auto)]

mod changes;
mod forest;
mod kinds;
mod rows;
mod tokens;
mod trees;
mod verdicts;

use rows::answer;
use std::io;

fn main(rt: HostRuntime) -> io::Result<()> {
    for line in rt.lines(rt.alloc()) {
        let line = line?;
        let answer = answer(rt.alloc(), line.as_str())?;
        println!(rt; "{line}\n    {answer}")?;
    }
    Ok(())
}
