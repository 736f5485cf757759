// The real files.
ghost use Rattle.std.specs.Prelude.{◌≡◌, ◌≤◌, ◌<◌, ◌++◌, None, option_map, string_bytes, length, take, IfOk, IfSome};
ghost use Rattle.std.specs.Io.KnownBytes.{Consumes, IsAtEnd};

use crate::files::name_of;
use crate::signals::{INTERRUPTIONS, is_interrupted};
use crate::{Files, ReadRefusal};
use kr_base::NoMemory;
use std::alloc::Global;
use std::io::Read;
use std::{fs, rt};

const CHUNK: usize = 1 << 16;

/// Files by their paths. Their bytes are not known to proofs. Each failed read is counted, and its name is kept.
#[derive(Drop)]
pub struct DiskFiles<'a, R: rt::Files> {
    rt: &'a R,
    alloc: Global,
    faults: u64,
    last: Option<String>,
}

impl<'a, R: rt::Files> DiskFiles<'a, R> {
    ghost use Rattle.kr_io.specs.Outside.{Notes, disk_faults, disk_last};

    /// Files of the operating system.
    pub fn new(rt: &'a R, alloc: Global) -> Self
        ensures faults { disk_faults result ≡ 0 }
        ensures last { disk_last result ≡ None }
    {
        DiskFiles {
            rt,
            alloc,
            faults: 0,
            last: None,
        }
    }

    /// What a read of a file of this name has found. A failed one is counted, and its name is kept.
    fn noted(
        &mut self,
        name: String,
        found: Result<Vec<u8>, ReadRefusal>,
    ) -> Result<Vec<u8>, ReadRefusal>
        ensures found { result ≡ found }
        ensures noted { Notes self.old.faults self.new.faults (option_map string_bytes self.old.last) (option_map string_bytes self.new.last) (string_bytes name) result }
    {
        match found {
            Ok(bytes) => Ok(bytes),
            Err(ReadRefusal::NoMemory(why)) => Err(ReadRefusal::NoMemory(why)),
            Err(ReadRefusal::Failed) => {
                self.faults = self.faults.saturating_add(1);
                self.last = Some(name);
                Err(ReadRefusal::Failed)
            }
        }
    }
}

fn append(bytes: &mut Vec<u8>, more: &[u8]) -> Result<(), NoMemory>
    ensures { IfOk result (λ _. bytes.new.items ≡ bytes.old.items ++ more.now) }
{
    bytes.extend_from_slice(more)?;
    Ok(())
}

/// One read. Where a signal interrupts it, it is tried again.
#[tactic(auto, using(crate::proofs::Front::keeps_same, crate::proofs::Front::keeps_keeps, crate::proofs::Front::keeps_appends, crate::proofs::Front::keeps_consumes))]
fn read_some<S: Read>(source: &mut S, buffer: &mut [u8]) -> Result<usize, ReadRefusal>
    ensures count { IfOk result (λ n. n ≤ length buffer.new) }
    ensures bytes { IfOk result (λ n. Consumes (S.remaining source.old) (S.remaining source.new) (take n buffer.new)) }
    ensures end { IfOk result (λ n. n ≡ 0 → 0 < length buffer.new → IsAtEnd (S.remaining source.new)) }
{
    for _ in 0..INTERRUPTIONS {
        match source.read(buffer) {
            Ok(count) => return Ok(count),
            Err(error) if is_interrupted(&error) => {}
            Err(_) => return Err(ReadRefusal::Failed),
        }
    }
    Err(ReadRefusal::Failed)
}

/// A buffer on the heap: a small stack has no room for it.
fn buffer_of(alloc: Global) -> Result<Vec<u8>, NoMemory>
    ensures { IfOk result (λ buffer. length buffer.items ≡ 65536) }
{
    Ok(vec![in alloc; 0; CHUNK]?)
}

/// The first bytes of a reader, at most `most`, read through a buffer.
#[tactic(auto, using(crate::proofs::Front::front_at_end, crate::proofs::Front::front_full))]
fn read_through<S: Read>(
    alloc: Global,
    source: &mut S,
    most: usize,
    buffer: &mut [u8],
) -> Result<Vec<u8>, ReadRefusal>
    requires { 0 < length buffer.old }
    ensures short { IfOk result (λ v. length v.items ≤ most) }
    ensures bytes { IfOk result (λ v. IfSome (S.remaining source.old) (λ all. v.items ≡ take most all)) }
{
    let mut bytes = Vec::new(alloc);
    while bytes.len() < most {
        let want = (most - bytes.len()).min(buffer.len());
        let count = read_some(source, &mut buffer[..want])?;
        if count == 0 {
            return Ok(bytes);
        }
        append(&mut bytes, &buffer[..count])?;
    }
    Ok(bytes)
}

/// The first bytes that a reader gives, at most so many. Of an opened file the kit knows no bytes, so that the contract of
/// `DiskFiles` knows none either: that `read_file` calls this on the file that it opens, only tests show.
pub fn read_front<S: Read>(
    alloc: Global,
    source: &mut S,
    most: usize,
) -> Result<Vec<u8>, ReadRefusal>
    ensures short { IfOk result (λ v. length v.items ≤ most) }
    ensures bytes { IfOk result (λ v. IfSome (S.remaining source.old) (λ all. v.items ≡ take most all)) }
{
    let mut buffer = buffer_of(alloc)?;
    read_through(alloc, source, most, &mut buffer)
}

fn read_file<R: rt::Files>(
    rt: &R,
    alloc: Global,
    name: &str,
    most: usize,
) -> Result<Vec<u8>, ReadRefusal>
    ensures { IfOk result (λ v. length v.items ≤ most) }
{
    match fs::open(rt, name) {
        Ok(mut file) => read_front(alloc, &mut file, most),
        Err(_) => Err(ReadRefusal::Failed),
    }
}

impl<'a, R: rt::Files> Files for DiskFiles<'a, R> {
    ghost held = { λ _ _. None };

    ghost faults = { λ s. s.faults };

    ghost last = { λ s. option_map string_bytes s.last };

    fn read(&mut self, name: &str, most: usize) -> Result<Vec<u8>, ReadRefusal> {
        // The name comes first, so that a fault never lacks memory for it.
        let kept = name_of(self.alloc, name)?;
        let found = read_file(self.rt, self.alloc, name, most);
        self.noted(kept, found)
    }
}
