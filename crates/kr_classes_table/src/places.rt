// The order of places.
ghost use Rattle.std.specs.Prelude.{◌≡◌};
ghost use Rattle.kr_classes_table.specs.Rules.{is_earlier as comes_before};

use kr_base::Place;

/// Whether a place comes before another: by file, line, column.
pub fn is_earlier(p: Place, q: Place) -> bool
    ensures { result ≡ comes_before p q }
{
    if p.file != q.file {
        return p.file < q.file;
    }
    if p.line != q.line {
        return p.line < q.line;
    }
    p.col < q.col
}
