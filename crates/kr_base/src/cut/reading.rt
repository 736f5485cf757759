// Parsing the text of a cut, byte by byte.
ghost use Rattle.std.specs.Prelude.{◌≡◌, ◌<◌, List, ℕ, true, [], ◌∷◌, ◌++◌, take, Some, None, IfOk};
ghost use Rattle.std.specs.Char.{is_ascii_digit};
ghost use Rattle.kr_base.specs.Stages.{Steps};
ghost use Rattle.kr_base.specs.declared.cut.reading.CutRefusal.TheVariants.{NoMemory as Lacking};

use crate::{Cut, NoMemory};
use std::alloc::Global;
use thiserror::Error;

#[derive(Debug, Drop, Error)]
pub enum CutRefusal {
    /// The index of the first byte that no cut's text has there, or the length of a text that ends too early.
    #[error("no cut: byte {0}")]
    Malformed(usize),
    /// The text is well formed, and has this many numbers, more than 4,096.
    #[error("a cut of {0} numbers")]
    TooLong(usize),
    #[error("out of memory")]
    NoMemory(NoMemory),
}

impl From<NoMemory> for CutRefusal {
    ghost from_gives = { λ why refusal. refusal ≡ Lacking why };

    fn from(why: NoMemory) -> CutRefusal {
        CutRefusal::NoMemory(why)
    }
}

/// The most numbers of a cut that is parsed.
const MOST: usize = 4_096;

/// The effect of the next byte, after the digits so far of a number.
#[derive(Clone, Copy)]
enum Step {
    /// A digit; the number is now this.
    Digit(u32),
    /// A dot, which ends this number.
    Dot(u32),
    /// No cut's text has this byte here.
    Dead,
}

fn is_digit(byte: u8) -> bool
    ensures { result ≡ is_ascii_digit byte }
{
    byte.is_ascii_digit()
}

/// The byte at the start of a number.
fn first_byte(byte: u8) -> Step
    ensures { Steps None byte result }
{
    if !is_digit(byte) {
        return Step::Dead;
    }
    Step::Digit(u32::from(byte - b'0'))
}

/// A further digit.
fn more_digits(number: u32, byte: u8) -> Step
    requires digit { is_ascii_digit byte ≡ true }
    requires some { 0 < number }
    ensures { Steps (Some number) byte result }
{
    let value = u64::from(number) * 10 + u64::from(byte - b'0');
    if value >= 4_294_967_296 {
        return Step::Dead;
    }
    Step::Digit(value as u32)
}

/// A byte after at least one digit.
fn later_byte(number: u32, byte: u8) -> Step
    ensures { Steps (Some number) byte result }
{
    if byte == b'.' {
        return Step::Dot(number);
    }
    if !is_digit(byte) {
        return Step::Dead;
    }
    if number == 0 {
        return Step::Dead;
    }
    more_digits(number, byte)
}

fn step_of(begun: Option<u32>, byte: u8) -> Step
    ensures { Steps begun byte result }
{
    match begun {
        None => first_byte(byte),
        Some(number) => later_byte(number, byte),
    }
}

/// Pushes a number, unless the list is full.
fn keep(kept: &mut Vec<u32>, number: u32) -> Result<(), NoMemory>
    ensures { IfOk result (λ _. (done : List ℕ) → kept.old.items ≡ take 4096 done → kept.new.items ≡ take 4096 (done ++ number ∷ [])) }
{
    if kept.len() >= MOST {
        return Ok(());
    }
    kept.push(number)?;
    Ok(())
}

/// The state of the parser: the first 4,096 complete numbers, the count of all of them, and the number whose digits may
/// continue.
#[derive(Drop)]
struct Reading {
    kept: Vec<u32>,
    count: usize,
    begun: Option<u32>,
}

impl Reading {
    ghost use Rattle.std.specs.Prelude.{◌≡◌, List, ℕ, ◌^◌, ◌<◌, length, IfOk};
    ghost use Rattle.kr_base.specs.Parsing.{Parses};
    ghost use Rattle.kr_base.specs.Stages.{IsAt, Reads};

    /// Consumes a byte. Reports whether some cut's text continues with it.
    fn read(&mut self, byte: u8) -> Result<bool, NoMemory>
        requires { self.old.count < 2 ^ 63 }
        ensures { IfOk result (λ goes_on. (front done : List ℕ) → IsAt front done self.old.begun self.old.kept.items self.old.count →
            Reads front done byte goes_on self.new.begun self.new.kept.items self.new.count) }
    {
        match step_of(self.begun, byte) {
            Step::Digit(number) => {
                self.begun = Some(number);
                Ok(true)
            }
            Step::Dot(number) => {
                keep(&mut self.kept, number)?;
                self.count += 1;
                self.begun = None;
                Ok(true)
            }
            Step::Dead => Ok(false),
        }
    }

    /// The cut, at the end of the text.
    fn finish(self, end: usize) -> Result<Cut, CutRefusal>
        requires { self.count < 2 ^ 63 }
        ensures { (text done : List ℕ) → IsAt text done self.begun self.kept.items self.count → length text ≡ end → Parses text result }
    {
        let Reading {
            mut kept,
            count,
            begun,
        } = self;
        let Some(last) = begun else {
            return Err(CutRefusal::Malformed(end));
        };
        keep(&mut kept, last)?;
        if count >= MOST {
            return Err(CutRefusal::TooLong(count + 1));
        }
        Ok(Cut { numbers: kept })
    }
}

impl Cut {
    ghost use Rattle.kr_base.specs.Parsing.{Parses};

    /// Accepts 1 to 4,096 numbers below 2^32 in decimal, without leading zeros, joined by dots.
    pub fn parse(alloc: Global, text: &str) -> Result<Cut, CutRefusal>
        ensures { Parses text.now result }
    {
        let bytes = text.as_bytes();
        let mut reading = Reading {
            kept: Vec::new(alloc),
            count: 0,
            begun: None,
        };
        for at in 0..bytes.len() {
            if !reading.read(bytes[at])? {
                return Err(CutRefusal::Malformed(at));
            }
        }
        reading.finish(bytes.len())
    }
}
