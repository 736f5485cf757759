// The refusal of a program.

use kr_base::RefusalAt;
use kr_types_judging::TypingRule;

/// The refusal of a program: a node breaks a typing rule, or out of memory.
pub type TypeRefusal = RefusalAt<TypingRule>;
