// Builders as syntax.
ghost use Rattle.kr_emit_laws.specs.Accepted.{ReadLaw};
ghost use Rattle.kr_emit_laws.specs.TextLaws.{EmittedLaw, PrintedLaw, TextLaw};
ghost use Rattle.kr_emit_laws.specs.Writable.{LengthsLaw, PrintableLaw, WritableLaw};

/// The code of builders has tokens and a tree.
pub fn printed_law()
    ensures { PrintedLaw }
{}

/// The text of a row's builder is that of its lines.
pub fn text_law()
    ensures { TextLaw }
{}

/// What is written of a listing is code of its rows' builders.
pub fn emitted_law()
    ensures { EmittedLaw }
{}

/// The builders of a problem whose classes, fields and values can be written can be printed.
pub fn printable_law()
    ensures { PrintableLaw }
{}

/// A problem whose domains have values of their types, and whose classes and fields have names, can be written.
pub fn writable_law()
    ensures { WritableLaw }
{}

/// Each array of a well formed problem's structure has one length.
pub fn lengths_law()
    ensures { LengthsLaw }
{}

/// The text of an accepted listing's builders has tokens and their tree.
pub fn read_law()
    ensures { ReadLaw }
{}
