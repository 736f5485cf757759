// What holds of the steps.
ghost use Rattle.korat_top_files.specs.OneOutcome.{OneOutcome};

use kr_lex::{one_list_law, unbroken_law};
use kr_parse::one_refusal_law;
use kr_parse_laws::one_tree;

/// Files, and texts, give one problem or one refusal at most.
pub fn one_outcome()
    ensures { OneOutcome }
{
    one_list_law();
    unbroken_law();
    one_refusal_law();
    one_tree();
}
