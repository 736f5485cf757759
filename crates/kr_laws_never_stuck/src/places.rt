// The places of the declarators and the `\old`s of files.
ghost use Rattle.kr_laws_never_stuck.specs.Apart.{ApartLaw, FieldsLaw};

/// In files that were read at most one declarator or `\old` is at a place.
pub fn apart_law()
    ensures { ApartLaw }
{}

/// In the table of such files at most one field is at a place, and none is named `*`, as a finitization names an array's
/// elements.
pub fn fields_law()
    ensures { FieldsLaw }
{}
