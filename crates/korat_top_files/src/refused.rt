// The line of a refusal, and its status.
ghost use Rattle.std.specs.Prelude.{◌≡◌, Some, []};
ghost use Rattle.kr_base.specs.Told.{Writes};
ghost use Rattle.kr_text.specs.Texts.{refusal_text, rule_text};
ghost use Rattle.korat_top_files.specs.Refusals.{refusal_of, status_of_file, typing_code};

use crate::refusal::{InputFile, Refusal};
use itoa::Buffer;
use kr_base::{Failed, Place, Sink};
use kr_text::{put_pieces, put_place, put_refusal_bytes};
use kr_types_judging::TypingRule;

/// The status of a call that a file's refusal ends.
pub fn status_of(file: InputFile) -> u8
    ensures { result ≡ status_of_file file }
{
    match file {
        InputFile::Finitization => 4,
        InputFile::Source(_) => 3,
    }
}

/// `: RULE` of a typing rule, and the line's end.
fn put_typing_rule<K: Sink>(rule: TypingRule, out: &mut K) -> Result<(), Failed>
    ensures { Writes K.taken K.faults out.old out.new (rule_text (typing_code rule) []) result }
{
    let mut digits = Buffer::new();
    put_pieces(
        out,
        &[b": T", digits.format(rule.number()).as_bytes(), b"\n"],
    )
}

/// `NAME:LINE:COL: RULE` of a typing rule.
fn put_typing<K: Sink>(
    name: &str,
    place: Place,
    rule: TypingRule,
    out: &mut K,
) -> Result<(), Failed>
    ensures { Writes K.taken K.faults out.old out.new (refusal_text name.now (Some place) (typing_code rule) []) result }
{
    put_place(out, name, place)?;
    put_typing_rule(rule, out)
}

/// `NAME:LINE:COL: RULE ITEM`
pub fn put_refused<K: Sink>(name: &str, refusal: &Refusal, out: &mut K) -> Result<(), Failed>
    ensures { let shown = refusal_of refusal.now in
        Writes K.taken K.faults out.old out.new (refusal_text name.now shown.place shown.rule shown.item) result }
{
    match refusal {
        Refusal::Source { place, rule } => put_refusal_bytes(out, name, Some(*place), rule, b""),
        Refusal::Node { place, rule } => put_typing(name, *place, *rule, out),
        Refusal::Finitization { rule, item } => {
            put_refusal_bytes(out, name, None, rule, item.as_bytes())
        }
    }
}
