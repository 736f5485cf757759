// The keys of a document's tables, found by their names.
ghost use Rattle.std.specs.Prelude.{◌≡◌, ◌++◌, IfOk, is_none, map};
ghost use Rattle.kr_space.specs.Vocabulary.{given, IsIndexOf};
ghost use Rattle.kr_space.specs.Keys.{AreKeys};

use kr_base::NoMemory;
use kr_classes_names::Index;
use kr_fin::{FinDoc, NamedDomain};
use std::alloc::Global;

/// Two texts, one after the other.
pub(crate) fn joined(alloc: Global, first: &[u8], second: &[u8]) -> Result<Vec<u8>, NoMemory>
    ensures { IfOk result (λ text. text.items ≡ first.now ++ second.now) }
{
    let mut text = Vec::from_slice(alloc, first)?;
    text.extend_from_slice(second)?;
    Ok(text)
}

/// The keys of domains, by their places.
pub(crate) fn domain_index(alloc: Global, domains: &[NamedDomain]) -> Result<Index, NoMemory>
    ensures { IfOk result (λ index. IsIndexOf (map (λ d. d.key) domains.now) index) }
{
    if domains.len() >= 0xffff_ffff {
        return Err(NoMemory::at_limit(domains));
    }
    let mut index = Index::new(alloc);
    for (at, domain) in domains.iter().enumerate() {
        index.add(alloc, domain.key.as_str().as_bytes(), at as u32)?;
    }
    Ok(index)
}

/// Whether no domain is given for a key.
pub(crate) fn is_absent(index: &Index, domains: &[NamedDomain], key: &[u8]) -> bool
    requires { IsIndexOf (map (λ d. d.key) domains.now) index.now }
    ensures { result ≡ is_none (given domains.now key.now) }
{
    let _ = domains;
    match index.find(key) {
        None => true,
        Some(_) => false,
    }
}

/// The keys of a document's tables, by their places.
#[derive(Drop)]
pub(crate) struct Keys {
    pub(crate) fields: Index,
    pub(crate) params: Index,
}

impl Keys {
    /// The keys of this document.
    pub(crate) fn of(alloc: Global, document: &FinDoc) -> Result<Keys, NoMemory>
        ensures { IfOk result (λ keys. AreKeys document.now keys) }
    {
        let fields = domain_index(alloc, document.fields.as_slice())?;
        let params = domain_index(alloc, document.params.as_slice())?;
        Ok(Keys { fields, params })
    }
}
