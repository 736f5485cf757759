// The work of `upgrade`: its file is read, and carried over.
ghost use Rattle.std.specs.Prelude.{◌≡◌, ◌≤◌, IfOk, string_bytes};
ghost use Rattle.korat_top_files.specs.Found.{CountStays, Meets};
ghost use Rattle.korat_top_files.specs.Refusals.{refusal_of};
ghost use Rattle.korat_top_files.specs.Upgrades.{FindsUpgrade, carrying, carrying_bytes, second_version as second};

use crate::find::read;
use crate::refusal::{InputFile, Refusal, Stop};
use kr_base::{ItemName, NoMemory};
use kr_fin::{FinDoc, read_fin};
use kr_fin_upgrade::{UpgradeRefusal, upgrade};
use kr_io::Files;
use std::alloc::Global;

/// F7: the version is 2 already.
fn second_version(alloc: Global) -> Result<Refusal, NoMemory>
    ensures { IfOk result (λ refusal. refusal_of refusal ≡ second) }
{
    let item = ItemName::of(alloc, b"version")?;
    Ok(Refusal::Finitization { rule: "F7", item })
}

/// The text of what a document is carried over to.
fn carry_document(alloc: Global, document: &FinDoc) -> Result<String, Stop>
    requires { document.now.fuel ≤ 1000000000 }
    ensures { Meets (carrying document.now) string_bytes result }
{
    match upgrade(alloc, document) {
        Ok(text) => Ok(text),
        Err(UpgradeRefusal::Version) => Err(Stop::Refused(second_version(alloc)?)),
        Err(UpgradeRefusal::NoMemory(why)) => Err(Stop::Memory(why)),
    }
}

/// The text of what the document that bytes are is carried over to.
fn carry(alloc: Global, bytes: &[u8]) -> Result<String, Stop>
    ensures carried { Meets (carrying_bytes bytes.now) string_bytes result }
{
    let document = read_fin(alloc, bytes)?;
    carry_document(alloc, &document)
}

/// Reads a finitization, and carries it over to version 2.
pub fn find_upgrade<F: Files>(alloc: Global, fin: &str, files: &mut F) -> Result<String, Stop>
    ensures found { FindsUpgrade F.held F.faults F.last fin.now files.old files.new result }
    ensures count { CountStays (F.faults files.old) (F.faults files.new) result }
{
    match read(alloc, InputFile::Finitization, fin, files) {
        Ok(bytes) => carry(alloc, &bytes),
        Err(stop) => Err(stop),
    }
}
