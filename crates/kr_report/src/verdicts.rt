// Verdicts, as rows have them.
ghost use Rattle.std.specs.Prelude.{◌≡◌, ◌++◌, [], Some, codes, map};
ghost use Rattle.kr_base.specs.Told.{Writes};
ghost use Rattle.kr_ast.specs.Arena.{root};
ghost use Rattle.kr_classes_names.specs.Shown.{AreHeads};
ghost use Rattle.kr_classes_table.specs.Table.{headings_of};
ghost use Rattle.kr_mean.specs.declared.kind.Verdict.TheVariants.{Ensures, Signals};
ghost use Rattle.kr_report.specs.Texts.{trap_text, verdict_text};

use crate::names::thrown_name;
use itoa::Buffer;
use kr_ast::Tree;
use kr_base::{Failed, Sink, put_all};
use kr_classes_names::Heads;
use kr_mean::{Kind, Verdict};
use kr_text::put_pieces;

/// Why a run traps, by its name.
fn trap_name<'t>(trees: &'t [Tree], heads: &Heads, kind: Kind) -> &'t [u8]
    requires { AreHeads trees.now heads.now }
    ensures { result.now ≡ trap_text (headings_of (map root trees.now)) kind }
{
    match kind {
        Kind::NullPointerException => b"NullPointerException",
        Kind::ArithmeticException => b"ArithmeticException",
        Kind::ArrayIndexOutOfBoundsException => b"ArrayIndexOutOfBoundsException",
        Kind::NegativeArraySizeException => b"NegativeArraySizeException",
        Kind::ClassCastException => b"ClassCastException",
        Kind::NoSuchElementException => b"NoSuchElementException",
        Kind::Thrown(class) => thrown_name(trees, heads, class),
        Kind::NoReturn => b"NoReturn",
        Kind::ArrayTooLong => b"ArrayTooLong",
    }
}

/// Writes `ensures N` and a space.
fn put_ensures<K: Sink>(number: u32, out: &mut K) -> Result<(), Failed>
    ensures { Writes K.taken K.faults out.old out.new (verdict_text [] (Some (Ensures number))) result }
{
    let mut buffer = Buffer::new();
    let number = buffer.format(number).as_bytes();
    put_pieces(out, &[b"ensures ", number, b" "])
}

/// Writes `signals N` and a space.
fn put_signals<K: Sink>(number: u32, out: &mut K) -> Result<(), Failed>
    ensures { Writes K.taken K.faults out.old out.new (verdict_text [] (Some (Signals number))) result }
{
    let mut buffer = Buffer::new();
    let number = buffer.format(number).as_bytes();
    put_pieces(out, &[b"signals ", number, b" "])
}

/// Writes a word, why a run traps, and a space.
fn put_trap<K: Sink>(
    word: &[u8],
    trees: &[Tree],
    heads: &Heads,
    kind: Kind,
    out: &mut K,
) -> Result<(), Failed>
    requires { AreHeads trees.now heads.now }
    ensures { Writes K.taken K.faults out.old out.new (word.now ++ trap_text (headings_of (map root trees.now)) kind ++ codes " ") result }
{
    put_all(out, word)?;
    put_pieces(out, &[trap_name(trees, heads, kind), b" "])
}

/// Writes a verdict and a space; of none nothing. A class whose object is thrown is one of these files. It takes no memory.
pub fn put_verdict<K: Sink>(
    trees: &[Tree],
    heads: &Heads,
    verdict: Option<Verdict>,
    out: &mut K,
) -> Result<(), Failed>
    requires { AreHeads trees.now heads.now }
    ensures { Writes K.taken K.faults out.old out.new (verdict_text (headings_of (map root trees.now)) verdict) result }
{
    match verdict {
        None => Ok(()),
        Some(Verdict::Pass) => put_all(out, b"pass "),
        Some(Verdict::Ensures(number)) => put_ensures(number, out),
        Some(Verdict::Signals(number)) => put_signals(number, out),
        Some(Verdict::RepOk) => put_all(out, b"repOk "),
        Some(Verdict::Trap(kind)) => put_trap(b"trap ", trees, heads, kind, out),
        Some(Verdict::CheckTrap(kind)) => put_trap(b"check-trap ", trees, heads, kind, out),
        Some(Verdict::Spent) => put_all(out, b"spent "),
    }
}
