// Laws of the entries of every problem.
ghost use Rattle.kr_laws_pruning.specs.Laws.{RenamedLaw, PlainLaw, ClassLaw, LawfulLaw, KeysLaw, EntryLaw};
ghost use Rattle.kr_laws_pruning.specs.OneField.{OneFieldLaw};

/// A vector has one renamed vector, which the plain function finds.
pub fn renamed_law()
    ensures { RenamedLaw }
{}

/// Every pure, well formed problem is lawful: its orders fork, renamed vectors have renamed runs, and runs read only what
/// is reachable.
pub fn lawful_law()
    ensures { LawfulLaw }
{}

/// Trying every vector and every renaming gives the list of all entries.
pub fn plain_law()
    ensures { PlainLaw }
{}

/// Each valid vector is isomorphic to a vector with the key of exactly one valid entry.
pub fn class_law()
    ensures { ClassLaw }
{}

/// No key is a proper front of another's, and vectors with one key are read and end alike.
pub fn keys_law()
    ensures { KeysLaw }
{}

/// Each least vector, valid or not or spent, has its entry.
pub fn entry_law()
    ensures { EntryLaw }
{}

/// Of a class of one `int` field, the premises hold, and each value of the field has its entry.
pub fn one_field_law()
    ensures { OneFieldLaw }
{}
