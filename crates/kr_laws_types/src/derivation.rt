// The shapes of the trees of files.
ghost use Rattle.kr_laws_types.specs.Derivation.{ShapeLaw};

/// The tree of a file that can be parsed is a list of classes, each part of which is of its place's shape.
pub fn shape_law()
    ensures { ShapeLaw }
{}
