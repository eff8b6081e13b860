// Values of columns and parameters, from mysql_common's value/mod.rs, its names kept.
//
// `deserialize_bin` and `deserialize_text` read the value at a place of the bytes and answer it with the place behind it,
// or a refusal: 10 (bad type), 8 (short), 9 (bad lead). `skip` answers the place alone. `serialize` writes a value into a
// lent buffer, all of it or nothing and 6 (no room), and `bin_len` says how many bytes that takes.
#![tactic(auto)]

ghost use Rattle.refusal.specs.Said.{said_of};
ghost use Rattle.std.specs.Prelude.{◌≡◌};
ghost use Rattle.wire.specs.LenEnc.{within};
ghost use Rattle.wire.specs.Room.{Wrote, length_of};
ghost use Rattle.value.specs.Kinds.{kind_of};
ghost use Rattle.value.specs.Read.{body_of, bin_at, text_at, skip_at};
ghost use Rattle.value.specs.Write.{value_bytes};

use duration::Time;
use refusal::Refusal;
use wire::{Parsed, Text};

pub mod inner;
mod read;
mod write;

#[derive(Clone, Copy, PartialEq, Eq)]
pub struct Date {
    pub year: u16,
    pub month: u8,
    pub day: u8,
    pub hour: u8,
    pub minutes: u8,
    pub seconds: u8,
    pub micros: u32,
}

// A column's value. A string is a part of the caller's bytes: place and length. A NaN is kept by its bits.
#[derive(Clone, Copy)]
pub enum Value {
    NULL,
    Bytes { at: usize, len: usize },
    Int(i64),
    UInt(u64),
    Float(f32),
    NanFloat(u32),
    Double(f64),
    NanDouble(u64),
    Date(Date),
    Time(Time),
}

// How a column type's values are laid out.
#[derive(Clone, Copy, PartialEq, Eq)]
pub enum Kind {
    Str,
    One,
    Two,
    Four,
    Eight,
    Single,
    Wide,
    Nil,
    Day,
    Clock,
}

// The document's column types.
#[tactic(auto, unfolding(crate::specs::Kinds::kind_of))]
pub fn kind_of(t: u8) -> Option<Kind>
    ensures { result ≡ kind_of t }
{
    match t {
        0 | 15 | 16 | 242 | 245..=255 => Some(Kind::Str),
        1 => Some(Kind::One),
        2 | 13 => Some(Kind::Two),
        3 | 9 => Some(Kind::Four),
        8 => Some(Kind::Eight),
        4 => Some(Kind::Single),
        5 => Some(Kind::Wide),
        6 => Some(Kind::Nil),
        7 | 10 | 12 | 14 => Some(Kind::Day),
        11 => Some(Kind::Clock),
        _ => None,
    }
}

// ---- reading

// The value at a place in a column of a type, unsigned or not. The type is tested before any byte is looked at.
#[tactic(auto, unfolding(crate::specs::Read::bin_at))]
pub fn deserialize_bin(
    s: &[u8],
    at: usize,
    column_type: u8,
    unsigned: bool,
) -> Result<Parsed<Value>, Refusal>
    ensures { said_of result ≡ bin_at s.now at column_type unsigned }
{
    match kind_of(column_type).ok_or(Refusal::BadType)? {
        Kind::Str => read::str_at(s, at),
        Kind::One => read::int_at(s, at, 1, unsigned),
        Kind::Two => read::int_at(s, at, 2, unsigned),
        Kind::Four => read::int_at(s, at, 4, unsigned),
        Kind::Eight => read::int_at(s, at, 8, unsigned),
        Kind::Single => read::float_at(s, at),
        Kind::Wide => read::double_at(s, at),
        Kind::Nil => Ok(Parsed {
            value: Value::NULL,
            next: at,
        }),
        Kind::Day => read::date_at(s, at),
        Kind::Clock => read::time_at(s, at),
    }
}

// The text value at a place: 0xFB is NULL, and anything else leads a length-encoded string.
#[tactic(auto, unfolding(crate::specs::Read::text_at))]
pub fn deserialize_text(s: &[u8], at: usize) -> Result<Parsed<Value>, Refusal>
    ensures { said_of result ≡ text_at s.now at }
{
    match s.get(at) {
        None => Err(Refusal::Short),
        Some(&0xFB) => Ok(Parsed {
            value: Value::NULL,
            next: at + 1,
        }),
        Some(_) => read::str_at(s, at),
    }
}

// ---- the place behind a value

// The part of len bytes at a place.
fn within(s: &[u8], at: usize, len: usize) -> Result<Text, Refusal>
    ensures { said_of result ≡ within s.now at len }
{
    if wire::inner::has(s, at, len) {
        Ok(Text { at, len })
    } else {
        Err(Refusal::Short)
    }
}

// The bytes of a value of a kind: behind a length if it has one.
fn body_of(kind: Kind, s: &[u8], at: usize) -> Result<Text, Refusal>
    ensures { said_of result ≡ body_of kind s.now at }
{
    match kind {
        Kind::Str => wire::checked_eat_lenenc_str(s, at),
        Kind::One => within(s, at, 1),
        Kind::Two => within(s, at, 2),
        Kind::Four | Kind::Single => within(s, at, 4),
        Kind::Eight | Kind::Wide => within(s, at, 8),
        Kind::Nil => Ok(Text { at, len: 0 }),
        Kind::Day | Kind::Clock => wire::checked_eat_u8_str(s, at),
    }
}

// The place behind the value at a place: the reader's refusals, and no value is made.
#[tactic(auto, using(crate::specs::ValueLaws::body_end), unfolding(crate::specs::Read::skip_at))]
pub fn skip(s: &[u8], at: usize, column_type: u8) -> Result<usize, Refusal>
    ensures { said_of result ≡ skip_at s.now at column_type }
{
    let kind = kind_of(column_type).ok_or(Refusal::BadType)?;
    let body = body_of(kind, s, at)?;
    Ok(body.at + body.len)
}

// ---- writing

// A value from a place on. A `Bytes` is the part of src that it names, and empty where there is none.
#[tactic(auto, unfolding(crate::specs::Write::value_bytes))]
pub fn serialize(dst: &mut [u8], at: usize, src: &[u8], v: Value) -> Result<usize, Refusal>
    ensures { Wrote (value_bytes src.now v) dst.old at result dst.new }
{
    match v {
        Value::NULL => wire::put_slice(dst, at, &[]),
        Value::Bytes { at: from, len } => wire::put_lenenc_str(dst, at, wire::part(src, from, len)),
        Value::Int(x) => wire::put_u64_le(dst, at, write::pattern_of(x)),
        Value::UInt(x) => wire::put_u64_le(dst, at, x),
        Value::Float(x) => wire::put_u32_le(dst, at, inner::single_bits(x)),
        Value::NanFloat(bits) => wire::put_u32_le(dst, at, bits),
        Value::Double(x) => wire::put_u64_le(dst, at, inner::double_bits(x)),
        Value::NanDouble(bits) => wire::put_u64_le(dst, at, bits),
        Value::Date(d) => write::put_date(dst, at, d),
        Value::Time(t) => write::put_time(dst, at, t),
    }
}

// How many bytes `serialize` takes for a value.
#[tactic(auto, using(wire::specs::LeLaws::le_length, crate::specs::DateLaws::date_len_le, crate::specs::DateLaws::time_len_le, crate::proofs::WriteLaws::length_is, crate::proofs::WriteLaws::date_length_lem, crate::proofs::WriteLaws::time_length_lem), unfolding(crate::specs::Write::value_bytes))]
pub fn bin_len(src: &[u8], v: Value) -> Result<usize, Refusal>
    ensures { said_of result ≡ length_of (value_bytes src.now v) }
{
    Ok(match v {
        Value::NULL => 0,
        Value::Bytes { at, len } => wire::lenenc_str_len(wire::part(src, at, len)),
        Value::Float(_) | Value::NanFloat(_) => 4,
        Value::Int(_) | Value::UInt(_) | Value::Double(_) | Value::NanDouble(_) => 8,
        Value::Date(d) => 1 + write::date_len(d),
        Value::Time(t) => 1 + write::time_len(t),
    })
}
