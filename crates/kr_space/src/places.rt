// The numbers of the domains that a document gives.
ghost use Rattle.std.specs.Prelude.{◌≡◌, ◌<◌, ◌+◌, [], length};
ghost use Rattle.std.proofs.Common.{get_or};
ghost use Rattle.kr_space.specs.Vocabulary.{lengths_of, no_bound, Setting};
ghost use Rattle.kr_space.specs.Basis.{HasFewDomains};
ghost use Rattle.kr_space.specs.Keys.{AreKeys};
ghost use Rattle.kr_space.specs.Pools.{fields_given, params_given, pool};

use crate::keys::Keys;
use kr_fin::FinDoc;

/// How many domains a document gives.
fn domain_count(document: &FinDoc) -> u32
    requires { HasFewDomains document.now }
    ensures { result ≡ length document.now.fields + (length document.now.params + length document.now.arrays) }
{
    let fields = document.fields.as_slice().len();
    let params = document.params.as_slice().len();
    let arrays = document.arrays.as_slice().len();
    (fields + params + arrays) as u32
}

/// The number of a field's domain, or of that of an array type's elements; one that no domain has where none is given.
#[tactic(auto, using(crate::proofs::Pooled::field_found, crate::proofs::Pooled::field_absent))]
pub(crate) fn field_domain(keys: &Keys, document: &FinDoc, key: &[u8]) -> u32
    requires keys { AreKeys document.now keys.now }
    requires few { HasFewDomains document.now }
    ensures { (setting : Setting) → get_or (pool setting document.now) result [] ≡ fields_given setting document.now key.now }
{
    match keys.fields.find(key) {
        None => domain_count(document),
        Some(at) => at,
    }
}

/// The number of a parameter's domain; one that no domain has where none is given.
#[tactic(auto, using(crate::proofs::Pooled::parameter_found, crate::proofs::Pooled::parameter_absent))]
pub(crate) fn parameter_domain(keys: &Keys, document: &FinDoc, key: &[u8]) -> u32
    requires keys { AreKeys document.now keys.now }
    requires few { HasFewDomains document.now }
    ensures { (setting : Setting) → get_or (pool setting document.now) result [] ≡ params_given setting document.now key.now }
{
    match keys.params.find(key) {
        None => domain_count(document),
        Some(at) => document.fields.as_slice().len() as u32 + at,
    }
}

/// The number of the lengths of an array type, by its place among those that the document names.
#[tactic(auto, using(crate::proofs::Pooled::lengths_found))]
pub(crate) fn lengths_domain(document: &FinDoc, at: u32) -> u32
    requires at { at < length document.now.arrays }
    requires few { HasFewDomains document.now }
    ensures { (setting : Setting) → get_or (pool setting document.now) result [] ≡ lengths_of setting (get_or document.now.arrays at no_bound).lengths }
{
    let fields = document.fields.as_slice().len();
    let params = document.params.as_slice().len();
    (fields + params) as u32 + at
}
