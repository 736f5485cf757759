// From version 1 to version 2.
ghost use Rattle.std.specs.Prelude.{◌≡◌, ◌≤◌, ◌==◌, Err, IfOk, Some, true, false, string_bytes};
ghost use Rattle.toml.specs.Text.{IsDocumentText};
ghost use Rattle.kr_fin.specs.Meaning.{table_in};
ghost use Rattle.kr_fin_upgrade.specs.Tables.{table_of};
ghost use Rattle.kr_fin_upgrade.specs.Upgraded.{up};

use crate::writing::write_upgraded;
use kr_base::NoMemory;
use kr_fin::FinDoc;
use std::alloc::Global;

/// Why a document isn't carried over.
#[derive(Clone, Copy, PartialEq, Eq)]
pub enum UpgradeRefusal {
    /// F7: its version is 2 already.
    Version,
    NoMemory(NoMemory),
}

/// The text of the document of version 2 that says what this one of version 1 says; or that its version is 2.
pub fn upgrade(alloc: Global, document: &FinDoc) -> Result<String, UpgradeRefusal>
    requires { document.now.fuel ≤ 1000000000 }
    ensures text { IfOk result (λ text. IsDocumentText false (table_of (up document.now)) (string_bytes text)) }
    ensures read { IfOk result (λ text. table_in (string_bytes text) ≡ Some (table_of (up document.now))) }
    ensures first { IfOk result (λ text. (document.now.version == 2) ≡ false) }
    ensures second { result ≡ Err UpgradeRefusal.Version → (document.now.version == 2) ≡ true }
{
    if document.version == 2 {
        return Err(UpgradeRefusal::Version);
    }
    match write_upgraded(alloc, document) {
        Ok(text) => Ok(text),
        Err(why) => Err(UpgradeRefusal::NoMemory(why)),
    }
}
