// Theorems on the class table and the class rules.
ghost use Rattle.kr_classes_table.specs.Laws.{LeastLaw};
ghost use Rattle.kr_classes_table.specs.Ancestors.{AncestorsLaw, TableLaw};
ghost use Rattle.kr_classes_table.specs.Extended.{PredefinedRows};

/// The first of several broken rules is one of them, and none is before it.
#[tactic(auto, using(crate::proofs::Least::is_least))]
pub fn least_law()
    ensures { LeastLaw }
{}

/// Where no class is its own ancestor, the superclass of an ancestor is an ancestor.
#[tactic(auto, using(crate::proofs::Ancestors::ancestors_law))]
pub fn ancestors_law()
    ensures { AncestorsLaw }
{}

/// So it is in the table of files that break no class rule.
#[tactic(auto, using(crate::proofs::Tables::table_law))]
pub fn table_law()
    ensures { TableLaw }
{}

/// The predefined classes, worked by hand.
#[tactic(auto, using(crate::proofs::Extended::predefined_rows))]
pub fn predefined_rows()
    ensures { PredefinedRows }
{}
