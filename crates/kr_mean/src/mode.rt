// The request made of a problem.
ghost use Rattle.std.specs.Prelude.{◌≡◌, string_bytes};

use std::marker::Model;

/// The name of a method. Contracts see its bytes.
#[derive(Drop)]
pub struct MethodName {
    text: String,
}

impl Model for MethodName {
    ghost use Rattle.std.specs.Prelude.{List, ℕ, string_bytes};

    ghost Value = { List ℕ };

    ghost view = { λ n. string_bytes n.text };
}

impl MethodName {
    pub fn new(text: String) -> Self
        ensures { result ≡ string_bytes text }
    {
        MethodName { text }
    }

    pub fn as_str(&self) -> &str
        ensures { result.now ≡ self.now }
    {
        self.text.as_str()
    }
}

/// To list the valid structures, or to test the root's method of a name on each of them.
#[derive(Drop)]
pub enum Mode {
    List,
    Method(MethodName),
}
