// The symbols that the parser still wants.
ghost use Rattle.std.specs.Prelude.{◌≡◌, ◌∷◌, [], ◌++◌, reverse, OnOk, MatchOption};

use kr_base::NoMemory;
use kr_parse_grammar::Symbol;
use std::alloc::Global;
use std::marker::Model;

/// The symbols, the next one on top. Contracts see the list of them, the next one first.
#[derive(Drop)]
pub struct Stack {
    items: Vec<Symbol>,
}

impl Model for Stack {
    ghost use Rattle.std.specs.Prelude.{List, reverse};
    ghost use Rattle.kr_parse_grammar.specs.declared.goal.Symbol.{Symbol};

    ghost Value = { List Symbol };

    ghost view = { λ s. reverse s.items.items };
}

/// Appends the symbols, the last one first.
fn append_reversed(items: &mut Vec<Symbol>, body: &[Symbol]) -> Result<(), NoMemory>
    ensures { OnOk result (items.new.items ≡ items.old.items ++ reverse body.now) }
{
    items.reserve(body.len())?;
    let mut left = body.len();
    while left > 0 {
        left -= 1;
        items.push_reserved(body[left]);
    }
    Ok(())
}

impl Stack {
    pub fn new(alloc: Global) -> Self
        ensures { result ≡ [] }
    {
        Stack {
            items: Vec::new(alloc),
        }
    }

    pub fn push(&mut self, symbol: Symbol) -> Result<(), NoMemory>
        ensures { OnOk result (self.new ≡ symbol ∷ self.old) }
    {
        self.items.push(symbol)?;
        Ok(())
    }

    pub(crate) fn pop(&mut self) -> Option<Symbol>
        ensures { MatchOption result ((self.old ≡ []) × (self.new ≡ [])) (λ symbol. self.old ≡ symbol ∷ self.new) }
    {
        self.items.pop()
    }

    /// Pushes the symbols, the first one topmost.
    pub(crate) fn push_all(&mut self, body: &[Symbol]) -> Result<(), NoMemory>
        ensures { OnOk result (self.new ≡ body.now ++ self.old) }
    {
        append_reversed(&mut self.items, body)?;
        Ok(())
    }
}
