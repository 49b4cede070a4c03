ghost use Rattle.std.specs.Prelude.{◌≡◌, ◌≢◌, ◌+◌, ◌<◌, ◌≤◌, ◌↔◌, Err, [], take, drop, length, vec_len, IfOk, OnOk, OnErr};
ghost use Rattle.ed_io.specs.Bytes.{Took, NoneLeft};
ghost use Rattle.ed_io.specs.Faults.{HasCause, Rose};

use crate::{Failed, Source};
use ed_base::OutOfMemory;
use std::alloc::Global;

/// At most so many bytes are asked of a source per read.
const CHUNK: usize = 8192;

/// Why reading ended.
#[derive(Clone, Copy, Debug, PartialEq, Eq)]
pub enum Ended {
    /// The end of the input was met.
    End,
    /// One byte more than the limit was read.
    Limit,
    /// A read failed.
    Failed,
    /// Memory was refused.
    Memory,
}

/// What was read, and why reading ended.
#[derive(Drop)]
pub struct Taken {
    /// All bytes that were taken from the source, in order.
    pub bytes: Vec<u8>,
    pub ended: Ended,
}

/// Reads the source to its end, or until one byte more than `limit` bytes was read, a read failed or
/// memory was refused. It never takes more than `limit + 1` bytes. What was taken from the source is
/// given back in each case, and `Ended` says why reading ended.
pub fn read_all<I: Source>(alloc: Global, source: &mut I, limit: u32) -> Taken
    ensures taken { Took (I.left source.old) result.bytes.items (I.left source.new) }
    ensures within { vec_len result.bytes ≤ limit + 1 }
    ensures limit { (result.ended ≡ Ended.Limit) ↔ (vec_len result.bytes ≡ limit + 1) }
    ensures end { result.ended ≡ Ended.End → NoneLeft (I.left source.new) }
    ensures failed { result.ended ≡ Ended.Failed → Rose (I.faults source.old) (I.faults source.new) }
    ensures later { I.faults source.old ≤ I.faults source.new }
{
    let mut bytes = Vec::new(alloc);
    let (filled, ended) = fill(source, &mut bytes, limit as usize + 1);
    bytes.truncate(filled);
    Taken { bytes, ended }
}

// Reads up to `most` bytes, in place, and answers how many of `bytes` are filled. What stands after
// them was room for a read.
fn fill<I: Source>(source: &mut I, bytes: &mut Vec<u8>, most: usize) -> (usize, Ended)
    requires { vec_len bytes.old ≡ 0 }
    ensures within { result.0 ≤ vec_len bytes.new }
    ensures bound { result.0 ≤ most }
    ensures taken { Took (I.left source.old) (take result.0 bytes.new.items) (I.left source.new) }
    ensures limit { (result.1 ≡ Ended.Limit) ↔ (result.0 ≡ most) }
    ensures end { result.1 ≡ Ended.End → NoneLeft (I.left source.new) }
    ensures failed { result.1 ≡ Ended.Failed → Rose (I.faults source.old) (I.faults source.new) }
    ensures later { I.faults source.old ≤ I.faults source.new }
{
    let mut filled = 0;
    while filled < most {
        match read_chunk(source, bytes, filled, most) {
            Ok(count) => filled += count,
            Err(ended) => return (filled, ended),
        }
    }
    (filled, Ended::Limit)
}

// One read into `bytes` after `filled`. Room is made first, so that want of memory loses no byte.
fn read_chunk<I: Source>(
    source: &mut I,
    bytes: &mut Vec<u8>,
    filled: usize,
    most: usize,
) -> Result<usize, Ended>
    requires start { filled < most }
    requires within { filled ≤ vec_len bytes.old }
    requires bound { vec_len bytes.old ≤ most }
    ensures within { filled ≤ vec_len bytes.new }
    ensures bound { vec_len bytes.new ≤ most }
    ensures front { take filled bytes.new.items ≡ take filled bytes.old.items }
    ensures some { IfOk result (λ n. 0 < n) }
    ensures fits { IfOk result (λ n. filled + n ≤ vec_len bytes.new) }
    ensures taken { IfOk result (λ n. Took (I.left source.old) (take n (drop filled bytes.new.items)) (I.left source.new)) }
    ensures not_taken { OnErr result (Took (I.left source.old) [] (I.left source.new)) }
    ensures not_limit { result ≢ Err Ended.Limit }
    ensures end { result ≡ Err Ended.End → NoneLeft (I.left source.new) }
    ensures failed { result ≡ Err Ended.Failed → Rose (I.faults source.old) (I.faults source.new) }
    ensures later { I.faults source.old ≤ I.faults source.new }
{
    if make_room(bytes, filled, most).is_err() {
        return Err(Ended::Memory);
    }
    match read_at(source, bytes.as_mut_slice(), filled) {
        Ok(0) => Err(Ended::End),
        Ok(count) => Ok(count),
        Err(_) => Err(Ended::Failed),
    }
}

// Makes `bytes` longer than `filled`, by zeros. What an earlier read left unfilled stays as it is.
fn make_room(bytes: &mut Vec<u8>, filled: usize, most: usize) -> Result<(), OutOfMemory>
    requires start { filled < most }
    requires within { filled ≤ vec_len bytes.old }
    requires bound { vec_len bytes.old ≤ most }
    ensures within { filled ≤ vec_len bytes.new }
    ensures bound { vec_len bytes.new ≤ most }
    ensures front { take filled bytes.new.items ≡ take filled bytes.old.items }
    ensures room { OnOk result (filled < vec_len bytes.new) }
{
    if filled == bytes.len() {
        bytes.resize(filled + CHUNK.min(most - filled), 0)?;
    }
    Ok(())
}

// One read into the part of `bytes` after `filled`.
fn read_at<I: Source>(source: &mut I, bytes: &mut [u8], filled: usize) -> Result<usize, Failed>
    requires { filled < length bytes.old }
    ensures front { take filled bytes.new ≡ take filled bytes.old }
    ensures fits { IfOk result (λ n. filled + n ≤ length bytes.new) }
    ensures taken { IfOk result (λ n. Took (I.left source.old) (take n (drop filled bytes.new)) (I.left source.new)) }
    ensures end { IfOk result (λ n. n ≡ 0 → NoneLeft (I.left source.new)) }
    ensures not_taken { OnErr result (Took (I.left source.old) [] (I.left source.new)) }
    ensures cause { HasCause (I.faults source.old) (I.faults source.new) result }
{
    source.read(&mut bytes[filled..])
}
