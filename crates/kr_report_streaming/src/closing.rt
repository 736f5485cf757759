// The last line.
ghost use Rattle.std.specs.Prelude.{◌≡◌, ◌++◌, List, IfErr};
ghost use Rattle.kr_base.specs.Told.{Writes};
ghost use Rattle.kr_base.specs.declared.entry.Entry.{Entry};
ghost use Rattle.kr_report.specs.Endings.{BreaksOff, EndsListing};
ghost use Rattle.kr_report.specs.Summaries.{summary_line};
ghost use Rattle.kr_report_streaming.specs.Followed.{followed_by, led_by};
ghost use Rattle.kr_report_streaming.specs.Lines.{entries_answer, status_by};
ghost use Rattle.kr_report_streaming.specs.Traces.{trace_text};
ghost use Rattle.kr_report_streaming.specs.Writers.{WritesLines, closing_of, summary_of};
ghost use Rattle.kr_report_streaming.specs.declared.row_line.RowLine.{RowLine as LineOf};
ghost use Rattle.kr_report_streaming.specs.declared.writer.LineWriter.{LineWriter as WriterOf};
ghost use Rattle.kr_survey.specs.Takings.{Halts, Hands};

use crate::halting::put_halt;
use crate::trace::put_trace;
use crate::writer::LineWriter;
use kr_base::{Failed, Sink, put_all};
use kr_core::Event;
use kr_mean::Mode;
use kr_report::{Summary, once_written, summary_text};
use kr_survey::{End, Halt};

/// With what a report ends: its last line, and the status.
#[derive(Drop)]
pub(crate) struct Closing {
    pub(crate) summary: Summary,
    pub(crate) status: u8,
}

/// The status of a report with so many failing rows that no spent entry ends.
fn status_for(failing: u32) -> u8
    ensures { result ≡ status_by failing }
{
    if failing == 0 { 0 } else { 1 }
}

/// The last line of a listing, or of a test, of which all rows were written.
fn whole_line(mode: &Mode, valid: u32, failing: u32, tried: u64) -> Summary
    ensures { result ≡ summary_of mode.now valid failing tried }
{
    match mode {
        Mode::List => Summary::List {
            valid: u64::from(valid),
            tried,
        },
        Mode::Method(_) => Summary::Test {
            valid: u64::from(valid),
            failing: u64::from(failing),
            tried,
        },
    }
}

/// Writes the last line, and a log after it.
fn put_closing<K: Sink>(closing: &Closing, log: &[Event], out: &mut K) -> Result<(), Failed>
    ensures { Writes K.taken K.faults out.old out.new (summary_line closing.now.summary ++ trace_text log.now) result }
{
    summary_text(&closing.summary, out)?;
    put_trace(log, out)
}

/// Writes a text, and the last line after it.
fn put_led<K: Sink>(text: &[u8], closing: &Closing, out: &mut K) -> Result<(), Failed>
    ensures { Writes K.taken K.faults out.old out.new (text.now ++ summary_line closing.now.summary) result }
{
    put_all(out, text)?;
    summary_text(&closing.summary, out)
}

impl LineWriter {
    /// The last line and the status, by how the rows ended.
    fn closing(self, mode: &Mode, end: End) -> Closing
        ensures { result ≡ closing_of mode.now self end }
    {
        let status = status_for(self.failing);
        match end {
            End::Full => Closing {
                summary: Summary::More(self.last),
                status,
            },
            End::Whole {
                tried: _,
                spent: Some(key),
            } => Closing {
                summary: Summary::Spent(key),
                status: 5,
            },
            End::Whole { tried, spent: None } => Closing {
                summary: whole_line(mode, self.valid, self.failing, tried),
                status,
            },
        }
    }

    /// Writes the last line of a listing, or of a test, and after it the log of those who listed it, a line an event. Where rows were
    /// handed over no further, no log is put, and out of memory is said by a line. Returns the status.
    pub fn close<K: Sink>(
        self,
        mode: &Mode,
        put: Result<End, Halt>,
        log: &[Event],
        out: &mut K,
    ) -> u8
        ensures ends { (a : WriterOf) (from : K) (es : List (Entry LineOf)) → Hands (WritesLines K.taken K.faults) es a from self out.old put → EndsListing K.taken K.faults (followed_by (trace_text log.now) (entries_answer mode.now a.limit es)) from out.new result }
        ensures halted { IfErr put (λ halt. (a : WriterOf) (from : K) (es : List (Entry LineOf)) → Halts (WritesLines K.taken K.faults) es a from self out.old halt → BreaksOff K.taken K.faults (entries_answer mode.now a.limit es) from out.new result) }
    {
        match put {
            Err(halt) => put_halt(halt, out),
            Ok(end) => {
                let closing = self.closing(mode, end);
                once_written(put_closing(&closing, log, out), closing.status)
            }
        }
    }

    /// As `close`, with a text before the last line in place of a log after it.
    pub fn close_after<K: Sink>(
        self,
        mode: &Mode,
        put: Result<End, Halt>,
        text: &[u8],
        out: &mut K,
    ) -> u8
        ensures { (a : WriterOf) (from : K) (es : List (Entry LineOf)) → Hands (WritesLines K.taken K.faults) es a from self out.old put → EndsListing K.taken K.faults (led_by text.now (entries_answer mode.now a.limit es)) from out.new result }
    {
        match put {
            Err(halt) => put_halt(halt, out),
            Ok(end) => {
                let closing = self.closing(mode, end);
                once_written(put_led(text, &closing, out), closing.status)
            }
        }
    }
}
