// The classes of traps.
ghost use Rattle.std.specs.Prelude.{◌≡◌, List, IfOk, map};
ghost use Rattle.kr_code_bodies.specs.Vocabulary.{AreHeads, Arena, class_of_kind, JavaType, step_kinds};
ghost use Rattle.kr_code_bodies.specs.Tabled.{program_in};

use kr_base::NoMemory;
use kr_classes_names::Heads;
use kr_classes_table::ClassId;
use std::alloc::Global;

/// The classes of the kinds of traps, in the order of the kinds.
pub(crate) fn trap_classes(alloc: Global, heads: &Heads) -> Result<Vec<Option<ClassId>>, NoMemory>
    ensures { (files : List Arena) (arrays : List JavaType) → AreHeads files heads.now → IfOk result (λ classes. classes.items ≡ map (class_of_kind (program_in files arrays)) step_kinds) }
{
    Ok(vec![in alloc;
        heads.number_of(b"NullPointerException".as_slice()),
        heads.number_of(b"ArithmeticException".as_slice()),
        heads.number_of(b"ArrayIndexOutOfBoundsException".as_slice()),
        heads.number_of(b"NegativeArraySizeException".as_slice()),
        heads.number_of(b"ClassCastException".as_slice()),
        heads.number_of(b"NoSuchElementException".as_slice()),
    ]?)
}
