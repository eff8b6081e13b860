// What stands on the wire: little-endian and length-encoded numbers, strings as a part of the bytes, copies.
//
// From io.rs of mysql_common: `ParseBuf`'s checked readers and `BufMutExt`'s writers, their names kept. A reader takes
// the bytes and a place in them, and answers what stands there with the place behind it, or a refusal: 8 (short), 9 (bad
// lead). A writer takes a lent buffer and a place in it, and answers the place behind what it wrote, or 6 (no room), and
// then no byte has changed. Nothing is demanded of a caller: any place and any length has its answer.
#![tactic(auto)]

ghost use Rattle.refusal.specs.Said.{said_of};
ghost use Rattle.std.specs.Prelude.{◌≡◌, ◌∷◌, ◌+◌, ◌≤◌, ◌<◌, ◌^◌, length};
ghost use Rattle.wire.specs.Le.{num_at, le_bytes};
ghost use Rattle.wire.specs.LenEnc.{len_at, led, len_bytes, str_at, byte_str_at, within, str_bytes, part_of};
ghost use Rattle.wire.specs.Room.{Wrote};

use refusal::Refusal;

pub mod inner;

// What was read, and the place behind it.
#[derive(Clone, Copy, PartialEq, Eq)]
pub struct Parsed<T> {
    pub value: T,
    pub next: usize,
}

// A string that was read: the `len` bytes at the place `at` of the caller's bytes. It ends at `at + len`.
#[derive(Clone, Copy, PartialEq, Eq)]
pub struct Text {
    pub at: usize,
    pub len: usize,
}

// ---- numbers of a fixed width

#[tactic(auto, using(crate::specs::RoomLaws::has_yes, crate::specs::RoomLaws::has_no), unfolding(crate::specs::Le::num_at))]
fn checked_eat_uint_le(s: &[u8], at: usize, k: usize) -> Result<Parsed<u64>, Refusal>
    requires { k ≤ 8 }
    ensures { said_of result ≡ num_at s.now at k }
{
    if inner::has(s, at, k) {
        let value = inner::le(s, at, k);
        let next = at + k;
        Ok(Parsed { value, next })
    } else {
        Err(Refusal::Short)
    }
}

pub fn checked_eat_u8(s: &[u8], at: usize) -> Result<Parsed<u64>, Refusal>
    ensures { said_of result ≡ num_at s.now at 1 }
{
    checked_eat_uint_le(s, at, 1)
}

pub fn checked_eat_u16_le(s: &[u8], at: usize) -> Result<Parsed<u64>, Refusal>
    ensures { said_of result ≡ num_at s.now at 2 }
{
    checked_eat_uint_le(s, at, 2)
}

pub fn checked_eat_u24_le(s: &[u8], at: usize) -> Result<Parsed<u64>, Refusal>
    ensures { said_of result ≡ num_at s.now at 3 }
{
    checked_eat_uint_le(s, at, 3)
}

pub fn checked_eat_u32_le(s: &[u8], at: usize) -> Result<Parsed<u64>, Refusal>
    ensures { said_of result ≡ num_at s.now at 4 }
{
    checked_eat_uint_le(s, at, 4)
}

pub fn checked_eat_u64_le(s: &[u8], at: usize) -> Result<Parsed<u64>, Refusal>
    ensures { said_of result ≡ num_at s.now at 8 }
{
    checked_eat_uint_le(s, at, 8)
}

fn put_uint_le(dst: &mut [u8], at: usize, k: usize, v: u64) -> Result<usize, Refusal>
    ensures { Wrote (le_bytes k v) dst.old at result dst.new }
{
    if inner::has(dst, at, k) {
        inner::put_le(dst, at, k, v);
        Ok(at + k)
    } else {
        Err(Refusal::NoRoom)
    }
}

pub fn put_u8(dst: &mut [u8], at: usize, v: u8) -> Result<usize, Refusal>
    ensures { Wrote (le_bytes 1 v) dst.old at result dst.new }
{
    put_uint_le(dst, at, 1, v as u64)
}

pub fn put_u16_le(dst: &mut [u8], at: usize, v: u16) -> Result<usize, Refusal>
    ensures { Wrote (le_bytes 2 v) dst.old at result dst.new }
{
    put_uint_le(dst, at, 2, v as u64)
}

// The low three bytes of a number, as the Rust writes them.
pub fn put_u24_le(dst: &mut [u8], at: usize, v: u32) -> Result<usize, Refusal>
    ensures { Wrote (le_bytes 3 v) dst.old at result dst.new }
{
    put_uint_le(dst, at, 3, v as u64)
}

pub fn put_u32_le(dst: &mut [u8], at: usize, v: u32) -> Result<usize, Refusal>
    ensures { Wrote (le_bytes 4 v) dst.old at result dst.new }
{
    put_uint_le(dst, at, 4, v as u64)
}

pub fn put_u64_le(dst: &mut [u8], at: usize, v: u64) -> Result<usize, Refusal>
    ensures { Wrote (le_bytes 8 v) dst.old at result dst.new }
{
    put_uint_le(dst, at, 8, v)
}

// ---- length-encoded integers

// The integer whose lead byte is at a place and has k bytes behind it.
fn eat_led(s: &[u8], at: usize, k: usize) -> Result<Parsed<u64>, Refusal>
    requires { (k ≤ 8) × (at + 1 ≤ length s.now) }
    ensures { said_of result ≡ led s.now at k }
{
    let body = at + 1;
    if k <= s.len() - body {
        let value = inner::le(s, body, k);
        let next = body + k;
        Ok(Parsed { value, next })
    } else {
        Err(Refusal::Short)
    }
}

#[tactic(auto, unfolding(crate::specs::LenEnc::len_at))]
pub fn checked_eat_lenenc_int(s: &[u8], at: usize) -> Result<Parsed<u64>, Refusal>
    ensures { said_of result ≡ len_at s.now at }
{
    if s.len() <= at {
        return Err(Refusal::Short);
    }
    let b = s[at];
    if b < 251 {
        let value = b as u64;
        let next = at + 1;
        return Ok(Parsed { value, next });
    }
    match b {
        0xFC => eat_led(s, at, 2),
        0xFD => eat_led(s, at, 3),
        0xFE => eat_led(s, at, 8),
        _ => Err(Refusal::BadLead),
    }
}

// A lead byte, and a number in k bytes behind it.
fn put_led(dst: &mut [u8], at: usize, lead: u8, k: usize, v: u64) -> Result<usize, Refusal>
    requires { k ≤ 8 }
    ensures { Wrote (lead ∷ le_bytes k v) dst.old at result dst.new }
{
    if inner::has(dst, at, k + 1) {
        dst[at] = lead;
        let body = at + 1;
        inner::put_le(dst, body, k, v);
        Ok(body + k)
    } else {
        Err(Refusal::NoRoom)
    }
}

// The shortest form of a number.
pub fn put_lenenc_int(dst: &mut [u8], at: usize, v: u64) -> Result<usize, Refusal>
    ensures { Wrote (len_bytes v) dst.old at result dst.new }
{
    if v < 251 {
        return put_led(dst, at, v as u8, 0, 0);
    }
    if v < 0x1_0000 {
        return put_led(dst, at, 0xFC, 2, v);
    }
    if v < 0x100_0000 {
        return put_led(dst, at, 0xFD, 3, v);
    }
    put_led(dst, at, 0xFE, 8, v)
}

// How many bytes `put_lenenc_int` takes for a number.
#[tactic(auto, using(crate::specs::LenEncLaws::len_1, crate::specs::LenEncLaws::len_3, crate::specs::LenEncLaws::len_4, crate::specs::LenEncLaws::len_9), unfolding(crate::specs::Le::le_bytes))]
pub fn lenenc_int_len(v: u64) -> usize
    ensures { result ≡ length (len_bytes v) }
{
    if v < 251 {
        return 1;
    }
    if v < 0x1_0000 {
        return 3;
    }
    if v < 0x100_0000 {
        return 4;
    }
    9
}

// ---- strings

// How many bytes `put_lenenc_str` takes for a string. No sum wraps: no slice is half so long.
pub fn lenenc_str_len(s: &[u8]) -> usize
    ensures { (result ≡ length (str_bytes s.now)) × (result < 2 ^ 64) }
{
    lenenc_int_len(s.len() as u64) + s.len()
}

// The part of n bytes at a place, if the bytes have it.
fn eat_within(s: &[u8], at: usize, n: u64) -> Result<Text, Refusal>
    ensures { said_of result ≡ within s.now at n }
{
    let len = n as usize;
    if inner::has(s, at, len) {
        Ok(Text { at, len })
    } else {
        Err(Refusal::Short)
    }
}

#[tactic(auto, using(crate::specs::LenEncLaws::str_short, refusal::specs::Said::then_ok, refusal::specs::Said::then_err), unfolding(crate::specs::LenEnc::str_at))]
pub fn checked_eat_lenenc_str(s: &[u8], at: usize) -> Result<Text, Refusal>
    ensures { said_of result ≡ str_at s.now at }
{
    if at < s.len() {
        let short = s[at];
        if short < 251 {
            return eat_within(s, at + 1, short as u64);
        }
    }
    let n = checked_eat_lenenc_int(s, at)?;
    eat_within(s, n.next, n.value)
}

// A string behind a length byte, as dates and times are.
#[tactic(auto, unfolding(crate::specs::LenEnc::byte_str_at))]
pub fn checked_eat_u8_str(s: &[u8], at: usize) -> Result<Text, Refusal>
    ensures { said_of result ≡ byte_str_at s.now at }
{
    if s.len() <= at {
        return Err(Refusal::Short);
    }
    let n = s[at];
    eat_within(s, at + 1, n as u64)
}

// The part itself; empty where the place and the length don't fit.
#[tactic(auto, unfolding(crate::specs::LenEnc::part_of))]
pub fn part(s: &[u8], at: usize, n: usize) -> &[u8]
    ensures { result.now ≡ part_of s.now at n }
{
    if inner::has(s, at, n) {
        &s[at..at + n]
    } else {
        &[]
    }
}

// The bytes themselves.
#[tactic(auto, using(crate::specs::RoomLaws::has_yes, crate::specs::RoomLaws::has_no, crate::specs::RoomLaws::wrote_full, crate::specs::RoomLaws::wrote_next))]
pub fn put_slice(dst: &mut [u8], at: usize, src: &[u8]) -> Result<usize, Refusal>
    ensures { Wrote src.now dst.old at result dst.new }
{
    if inner::has(dst, at, src.len()) {
        inner::copy(dst, at, src);
        Ok(at + src.len())
    } else {
        Err(Refusal::NoRoom)
    }
}

// The bytes behind their length.
pub fn put_lenenc_str(dst: &mut [u8], at: usize, src: &[u8]) -> Result<usize, Refusal>
    ensures { Wrote (str_bytes src.now) dst.old at result dst.new }
{
    let n = src.len();
    if dst.len() < n {
        return Err(Refusal::NoRoom);
    }
    let head = lenenc_int_len(n as u64);
    if !inner::has(dst, at, head + n) {
        return Err(Refusal::NoRoom);
    }
    let body = put_lenenc_int(dst, at, n as u64)?;
    inner::copy(dst, body, src);
    Ok(body + n)
}
