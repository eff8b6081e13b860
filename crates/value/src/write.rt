// The bytes of a value, kind by kind: numbers by their bits, dates and times behind a length byte.
ghost use Rattle.std.specs.Prelude.{◌≡◌, ◌∷◌, ◌++◌, ◌+◌, ◌≤◌, take};
ghost use Rattle.wire.specs.Le.{le_bytes};
ghost use Rattle.wire.specs.Room.{Wrote};
ghost use Rattle.value.specs.Numbers.{pattern_of};
ghost use Rattle.value.specs.Dates.{date_fields, time_fields, date_length, time_length, date_bytes, time_bytes};

use crate::Date;
use duration::Time;
use refusal::Refusal;

// ---- numbers

// The 64 bits of a signed number, as a number: two's complement the other way round.
pub(crate) fn pattern_of(z: i64) -> u64
    ensures { result ≡ pattern_of z }
{
    z.cast_unsigned()
}

// ---- dates and times

// How many bytes of a date's fields are written.
#[tactic(auto, unfolding(crate::specs::Dates::date_length))]
pub(crate) fn date_len(d: Date) -> usize
    ensures { result ≡ date_length d }
{
    if d.micros != 0 {
        return 11;
    }
    if d.hour != 0 || d.minutes != 0 || d.seconds != 0 {
        return 7;
    }
    if d.year != 0 || d.month != 0 || d.day != 0 {
        return 4;
    }
    0
}

// How many bytes of a time's fields are written.
#[tactic(auto, unfolding(crate::specs::Dates::time_length))]
pub(crate) fn time_len(t: Time) -> usize
    ensures { result ≡ time_length t }
{
    if t.micros != 0 {
        return 12;
    }
    if t.days != 0 || t.hours != 0 || t.minutes != 0 || t.seconds != 0 {
        return 8;
    }
    0
}

// The seven bytes before a date's microseconds, as one number: stored at once, and not field by field.
#[tactic(auto, using(crate::proofs::WriteLaws::three, crate::proofs::WriteLaws::date_head))]
fn date_head(d: Date) -> u64
    ensures { le_bytes 7 result ++ le_bytes 4 d.micros ≡ date_fields d }
{
    let clock = (d.seconds as u64 * 256 + d.minutes as u64) * 256 + d.hour as u64;
    ((clock * 256 + d.day as u64) * 256 + d.month as u64) * 65_536 + d.year as u64
}

// The eight bytes before a time's microseconds, as one number.
#[tactic(auto, using(crate::proofs::WriteLaws::three, crate::proofs::WriteLaws::time_head, crate::proofs::WriteLaws::sign_byte))]
fn time_head(t: Time) -> u64
    ensures { le_bytes 8 result ++ le_bytes 4 t.micros ≡ time_fields t }
{
    let clock = (t.seconds as u64 * 256 + t.minutes as u64) * 256 + t.hours as u64;
    (clock * 4_294_967_296 + t.days as u64) * 256 + t.neg as u64
}

// A length byte, and so many bytes of what is k bytes of head and four of micros.
fn put_fields(
    dst: &mut [u8],
    at: usize,
    len: usize,
    k: usize,
    head: u64,
    micros: u32,
) -> Result<usize, Refusal>
    requires { (k ≤ 8) × (len ≤ k + 4) }
    ensures { Wrote (len ∷ take len (le_bytes k head ++ le_bytes 4 micros)) dst.old at result dst.new }
{
    if !wire::inner::has(dst, at, len + 1) {
        return Err(Refusal::NoRoom);
    }
    let n = len.min(k);
    dst[at] = len as u8;
    let body = at + 1;
    wire::inner::put_le(dst, body, n, head);
    wire::inner::put_le(dst, body + n, len - n, micros as u64);
    Ok(body + len)
}

#[tactic(auto, using(crate::specs::DateLaws::date_len_le))]
pub(crate) fn put_date(dst: &mut [u8], at: usize, d: Date) -> Result<usize, Refusal>
    ensures { Wrote (date_bytes d) dst.old at result dst.new }
{
    put_fields(dst, at, date_len(d), 7, date_head(d), d.micros)
}

#[tactic(auto, using(crate::specs::DateLaws::time_len_le))]
pub(crate) fn put_time(dst: &mut [u8], at: usize, t: Time) -> Result<usize, Refusal>
    ensures { Wrote (time_bytes t) dst.old at result dst.new }
{
    put_fields(dst, at, time_len(t), 8, time_head(t), t.micros)
}
