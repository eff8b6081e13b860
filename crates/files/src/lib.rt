// What the programs share that replay lists: reading one, as many bytes as a buffer holds or as are asked for, and the numbers and parts in
// it.
#![tactic(auto)]

ghost use Rattle.std.specs.Prelude.{◌≡◌, ◌≤◌, ◌+◌, ◌*◌, ◌^◌, ◌<◌, length, take, drop, OnOk, IfOk, IfSome, option_map};
ghost use Rattle.std.specs.Io.KnownBytes.{Consumes, IsAtEnd};
ghost use Rattle.wire.specs.Le.{num_at};
ghost use Rattle.wire.specs.LenEnc.{part_of};
ghost use Rattle.files.specs.Number.{or_zero};

use std::alloc::Global;
use std::io;
use std::io::Read;
use wire::inner::{has, le};

// Reads until the buffer is full, the stream ends or a read fails. Answers how many bytes it put at the buffer's start, and the error of a
// read that failed: the bytes of those before it stand there all the same.
pub fn read_full<R: Read>(reader: &mut R, buf: &mut [u8]) -> (usize, io::Result<()>)
    ensures within { result.0 ≤ length buf.new }
    ensures bytes { Consumes (R.remaining reader.old) (R.remaining reader.new) (take result.0 buf.new) }
    ensures end { OnOk result.1 (result.0 < length buf.new → IsAtEnd (R.remaining reader.new)) }
{
    let mut done = 0;
    while done < buf.len() {
        match reader.read(&mut buf[done..]) {
            Ok(0) => return (done, Ok(())),
            Ok(n) => done += n,
            Err(e) => return (done, Err(e)),
        }
    }
    (done, Ok(()))
}

// ---- the number at a place, low byte first; 0 where it passes the end

fn number_at(list: &[u8], at: usize, k: usize) -> u64
    requires { k ≤ 8 }
    ensures { (result ≡ or_zero (num_at list.now at k)) × (result < 2 ^ (8 * k)) }
{
    if has(list, at, k) { le(list, at, k) } else { 0 }
}

pub fn byte_at(list: &[u8], at: usize) -> u8
    ensures { result ≡ or_zero (num_at list.now at 1) }
{
    number_at(list, at, 1) as u8
}

pub fn half_at(list: &[u8], at: usize) -> u16
    ensures { result ≡ or_zero (num_at list.now at 2) }
{
    number_at(list, at, 2) as u16
}

pub fn word_at(list: &[u8], at: usize) -> u32
    ensures { result ≡ or_zero (num_at list.now at 4) }
{
    number_at(list, at, 4) as u32
}

pub fn long_at(list: &[u8], at: usize) -> u64
    ensures { result ≡ or_zero (num_at list.now at 8) }
{
    number_at(list, at, 8)
}

// ---- parts of a list

// What stands from a place on; nothing past the end.
pub fn tail(list: &[u8], at: usize) -> &[u8]
    ensures { result.now ≡ drop at list.now }
{
    list.get(at..).unwrap_or_default()
}

// The k-th of the rows of one size that begin at a place, and all behind it.
pub fn row_at(list: &[u8], table: usize, size: usize, k: usize) -> &[u8]
    ensures { result.now ≡ drop (k * size + table) list.now }
{
    tail(list, k.saturating_mul(size).saturating_add(table))
}

// The part whose place and length stand at two places of a row.
pub fn part_at<'a>(list: &'a [u8], row: &[u8], at: usize, len: usize) -> &'a [u8]
    ensures { result.now ≡ part_of list.now (or_zero (num_at row.now at 4)) (or_zero (num_at row.now len 4)) }
{
    wire::part(list, word_at(row, at) as usize, word_at(row, len) as usize)
}

// The front of a stream, as many bytes as are asked for.
pub fn read_front<R: Read + Drop>(reader: R, most: u64, alloc: Global) -> io::Result<Vec<u8>>
    ensures { IfOk result (λ bytes. IfSome (option_map (take most) (R.remaining reader)) (λ front. bytes.items ≡ front)) }
{
    let mut bytes = Vec::new(alloc);
    reader.take(most).read_to_end(&mut bytes)?;
    Ok(bytes)
}

#[cfg(test)]
mod tests {
    use super::read_front;
    use std::io;

    #[test]
    fn front_is_read(rt: HostRuntime) -> io::Result<()> {
        let front = read_front(b"0123456789".as_slice(), 4, rt.alloc())?;
        assert_eq!(rt; front.as_slice(), b"0123".as_slice());
        let all = read_front(b"0123456789".as_slice(), 40, rt.alloc())?;
        assert_eq!(rt; all.as_slice(), b"0123456789".as_slice());
        Ok(())
    }
}
