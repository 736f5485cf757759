// Files in memory.
ghost use Rattle.std.specs.Prelude.{◌≡◌, List, ℕ, None, option_map, string_bytes, take, IfOk};
ghost use Rattle.std.specs.Option.{option_copied};
ghost use Rattle.kr_io.specs.Held.{held_by};

use crate::files::name_of;
use crate::{Files, ReadRefusal};
use kr_base::NoMemory;
use std::alloc::Global;

#[derive(Drop)]
pub struct MemFile {
    pub name: String,
    pub bytes: Vec<u8>,
}

/// Named bytes, and the numbers of the calls (from 1) that fail. A missing name is a fault too.
#[derive(Drop)]
pub struct MemFiles {
    alloc: Global,
    files: Vec<MemFile>,
    failing: Vec<u32>,
    calls: u32,
    faults: u64,
    last: Option<String>,
}

impl MemFiles {
    ghost use Rattle.kr_io.specs.Memory.{files_held, files_faults, files_last, files_failing, files_calls};

    /// If two files have the same name, the first is read.
    pub fn new(alloc: Global, files: Vec<MemFile>, failing: Vec<u32>) -> Self
        ensures held { (name : List ℕ) → files_held result name ≡ held_by files.items name }
        ensures faults { files_faults result ≡ 0 }
        ensures last { files_last result ≡ None }
        ensures failing { files_failing result ≡ failing.items }
        ensures calls { files_calls result ≡ 0 }
    {
        MemFiles {
            alloc,
            files,
            failing,
            calls: 0,
            faults: 0,
            last: None,
        }
    }
}

fn find<'a>(files: &'a [MemFile], name: &str) -> Option<&'a [u8]>
    ensures { option_copied result ≡ held_by files.now name.now }
{
    for file in files {
        if file.name.as_str() == name {
            return Some(&file.bytes);
        }
    }
    None
}

/// A copy of the first bytes, at most `most`.
fn first_of(alloc: Global, bytes: &[u8], most: usize) -> Result<Vec<u8>, NoMemory>
    ensures { IfOk result (λ first. first.items ≡ take most bytes.now) }
{
    let count = bytes.len().min(most);
    Ok(Vec::from_slice(alloc, &bytes[..count])?)
}

impl Files for MemFiles {
    ghost use Rattle.std.specs.Prelude.{true, false, IsErrOf};
    ghost use Rattle.kr_io.specs.Reads.{Reads};
    ghost use Rattle.kr_io.specs.Memory.{files_held, files_faults, files_last, files_failing, files_calls};
    ghost use Rattle.kr_io.specs.Memory.{next_call, read_fails};
    ghost use Rattle.kr_io.specs.declared.files.ReadRefusal.TheVariants.{Failed};

    ghost held = { λ s name. held_by s.files.items name };

    ghost faults = { λ s. s.faults };

    ghost last = { λ s. option_map string_bytes s.last };

    fn read(&mut self, name: &str, most: usize) -> Result<Vec<u8>, ReadRefusal>
        ensures reads { Reads files_held files_faults files_last self.old self.new name.now most result }
        ensures call { files_calls self.new ≡ next_call (files_calls self.old) }
        ensures fault { IsErrOf result Failed → read_fails self.old name.now ≡ true }
        ensures passes { IfOk result (λ _. read_fails self.old name.now ≡ false) }
        ensures alike { files_failing self.new ≡ files_failing self.old }
    {
        self.calls = self.calls.saturating_add(1);
        let kept = name_of(self.alloc, name)?;
        let found = if self.failing.contains(&self.calls) {
            None
        } else {
            find(&self.files, name)
        };
        let Some(bytes) = found else {
            self.faults = self.faults.saturating_add(1);
            self.last = Some(kept);
            return Err(ReadRefusal::Failed);
        };
        Ok(first_of(self.alloc, bytes, most)?)
    }
}
