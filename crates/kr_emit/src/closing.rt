// The end of the class, and the listing's last line.
ghost use Rattle.std.specs.Prelude.{List, codes};
ghost use Rattle.kr_emit.specs.Vocabulary.{EndsListing, entries_answer, Entry, Hands, led_by, Listing};
ghost use Rattle.kr_emit.specs.Writers.{WritesBuilders, entries_numbered};
ghost use Rattle.kr_emit.specs.declared.making.Builder.{Builder as BuilderOf};
ghost use Rattle.kr_emit.specs.declared.writer.BuilderWriter.{BuilderWriter as WriterOf};

use crate::writer::BuilderWriter;
use kr_base::Sink;
use kr_mean::Mode;
use kr_survey::{End, Halt};

impl BuilderWriter {
    /// Writes the end of the class and the last line. Where builders were handed over no further, out of memory is said by a line.
    /// Returns the status.
    pub(crate) fn close<K: Sink>(self, put: Result<End, Halt>, out: &mut K) -> u8
        ensures { (a : WriterOf) (from : K) (es : List (Entry BuilderOf)) → Hands (WritesBuilders K.taken K.faults) es a from self out.old put → EndsListing K.taken K.faults (led_by (codes "}\n// ") (entries_answer Listing a.lines.limit (entries_numbered 0 es))) from out.new result }
    {
        self.lines.close_after(&Mode::List, put, b"}\n// ", out)
    }
}
