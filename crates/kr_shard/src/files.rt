// Files of shards, read one after another and put together.
ghost use Rattle.std.specs.Prelude.{◌≡◌, ◌++◌, ◌∷◌, [], OnOk};
ghost use Rattle.kr_shard.specs.Found.{CountStays, FindsMerged, HasRead, HasReadAll, JoinsShards, Judges};
ghost use Rattle.kr_io.specs.Held.{IsLater};

use crate::faults::{FileFault, MergeStop};
use crate::{MergeRefusal, Merged, Shard, ShardRefusal, merge, read_shard};
use kr_base::{NoMemory, Words};
use kr_io::{Files, ReadRefusal};
use std::alloc::Global;

/// The most bytes of a file that are taken.
pub const MAX_SHARD_BYTES: usize = 16777216;

/// The shard of a file's bytes.
fn judge(alloc: Global, file: u64, bytes: &[u8]) -> Result<Shard, MergeStop>
    ensures { Judges file bytes.now result }
{
    if bytes.len() > MAX_SHARD_BYTES {
        return Err(MergeStop::Refused(FileFault::Long(file)));
    }
    match read_shard(alloc, bytes) {
        Ok(shard) => Ok(shard),
        Err(ShardRefusal::Malformed(line)) => {
            Err(MergeStop::Refused(FileFault::Malformed { file, line }))
        }
        Err(ShardRefusal::NoMemory(why)) => Err(MergeStop::Memory(why)),
    }
}

/// Reads the file of a number and a name. One byte more than is taken shows that it is too long.
fn read_file<F: Files>(
    alloc: Global,
    file: u64,
    name: &str,
    files: &mut F,
) -> Result<Shard, MergeStop>
    ensures read { HasRead F.held F.faults F.last file name.now files.old files.new result }
    ensures later { IsLater F.held F.faults files.old files.new }
    ensures count { CountStays (F.faults files.old) (F.faults files.new) result }
{
    match files.read(name, MAX_SHARD_BYTES + 1) {
        Ok(bytes) => judge(alloc, file, &bytes),
        Err(ReadRefusal::Failed) => Err(MergeStop::Read(file)),
        Err(ReadRefusal::NoMemory(why)) => Err(MergeStop::Memory(why)),
    }
}

fn add_shard(shards: &mut Vec<Shard>, shard: Shard) -> Result<(), NoMemory>
    ensures added { OnOk result (shards.new.items ≡ shards.old.items ++ shard ∷ []) }
{
    shards.push(shard)?;
    Ok(())
}

/// Reads the files, in order. What is read of one decides before the next is read.
fn read_files<F: Files>(
    alloc: Global,
    names: &Words,
    files: &mut F,
) -> Result<Vec<Shard>, MergeStop>
    ensures read { HasReadAll F.held F.faults F.last names.now files.old files.new result }
    ensures later { IsLater F.held F.faults files.old files.new }
    ensures count { CountStays (F.faults files.old) (F.faults files.new) result }
{
    let mut shards = Vec::new(alloc);
    for number in 0..names.len() {
        match read_file(alloc, number as u64, names.get(number), files) {
            Ok(shard) => add_shard(&mut shards, shard)?,
            Err(stop) => return Err(stop),
        }
    }
    Ok(shards)
}

/// The shards together.
fn join(alloc: Global, shards: Vec<Shard>) -> Result<Merged, MergeStop>
    ensures { JoinsShards shards.items result }
{
    match merge(alloc, shards) {
        Ok(merged) => Ok(merged),
        Err(MergeRefusal::Overlap(file)) => Err(MergeStop::Refused(FileFault::Overlap(file))),
        Err(MergeRefusal::Gap(to, from)) => Err(MergeStop::Refused(FileFault::Gap(to, from))),
        Err(MergeRefusal::NoMemory(why)) => Err(MergeStop::Memory(why)),
    }
}

/// Reads the files of these names, one after another, and puts their shards together.
pub fn find_merged<F: Files>(
    alloc: Global,
    names: &Words,
    files: &mut F,
) -> Result<Merged, MergeStop>
    ensures found { FindsMerged F.held F.faults F.last names.now files.old files.new result }
    ensures count { CountStays (F.faults files.old) (F.faults files.new) result }
{
    match read_files(alloc, names, files) {
        Ok(shards) => join(alloc, shards),
        Err(stop) => Err(stop),
    }
}
