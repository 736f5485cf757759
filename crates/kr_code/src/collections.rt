// Which calls the collections of the library have.
ghost use Rattle.std.specs.Prelude.{◌≡◌};
ghost use Rattle.kr_code.specs.Collections.{call_named};

/// A call on a `HashSet` or a `LinkedList`.
#[derive(Clone, Copy, PartialEq, Eq)]
pub enum CollectionCall {
    /// One that no collection has.
    Unknown,
    Add,
    Contains,
    Remove,
    Size,
    IsEmpty,
    RemoveFirst,
}

impl CollectionCall {
    /// The call of a name.
    pub fn named(name: &[u8]) -> Self
        ensures { result ≡ call_named name.now }
    {
        if name == b"add".as_slice() {
            return CollectionCall::Add;
        }
        if name == b"contains".as_slice() {
            return CollectionCall::Contains;
        }
        if name == b"remove".as_slice() {
            return CollectionCall::Remove;
        }
        if name == b"size".as_slice() {
            return CollectionCall::Size;
        }
        if name == b"isEmpty".as_slice() {
            return CollectionCall::IsEmpty;
        }
        if name == b"removeFirst".as_slice() {
            return CollectionCall::RemoveFirst;
        }
        CollectionCall::Unknown
    }
}
