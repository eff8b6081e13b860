// The signed duration: a binary TIME value read from its bytes, and its fields as signed microseconds.
//
// The TIME value is that of mysql_common's value/mod.rs (`Value::Time`, "is negative, days, hours, minutes, seconds, micro
// seconds"); the duration is ours. A train that leaves a minute before midnight has the offset -60,000,000: the size is
// bounded first and negated then, and is never cast.
#![tactic(auto)]

ghost use Rattle.std.specs.Prelude.{◌≡◌, nat_abs};
ghost use Rattle.refusal.specs.Said.{said_of};
ghost use Rattle.duration.specs.Time.{time_of, time_at};
ghost use Rattle.duration.specs.Duration.{duration_of, duration_at};

use refusal::Refusal;
use wire::Parsed;

// The fields of a TIME value, as they stand in its bytes.
#[derive(Clone, Copy, PartialEq, Eq)]
pub struct Time {
    pub neg: bool,
    pub days: u32,
    pub hours: u8,
    pub minutes: u8,
    pub seconds: u8,
    pub micros: u32,
}

// What the bytes behind the length byte say. Only sign byte 1 is minus.
#[tactic(auto, unfolding(crate::specs::Time::time_of))]
fn time_of(b: &[u8]) -> Time
    ensures { result ≡ time_of b.now }
{
    Time {
        neg: wire::inner::field_since(b, 8, 0, 1) == 1,
        days: wire::inner::field_since(b, 8, 1, 4) as u32,
        hours: wire::inner::field_since(b, 8, 5, 1) as u8,
        minutes: wire::inner::field_since(b, 8, 6, 1) as u8,
        seconds: wire::inner::field_since(b, 8, 7, 1) as u8,
        micros: wire::inner::field_just(b, 12, 8, 4) as u32,
    }
}

// The TIME value at a place: a length byte, and as many bytes.
#[tactic(auto, using(wire::specs::LenEncLaws::byte_str_within), unfolding(crate::specs::Time::time_at))]
pub fn read_time(s: &[u8], at: usize) -> Result<Parsed<Time>, Refusal>
    ensures { said_of result ≡ time_at s.now at }
{
    let body = wire::checked_eat_u8_str(s, at)?;
    Ok(Parsed {
        value: time_of(wire::part(s, body.at, body.len)),
        next: body.at + body.len,
    })
}

// The signed microseconds of a TIME value's fields. Their size takes 128 bits: seconds times a million may pass 2^64.
#[tactic(auto, unfolding(crate::specs::Duration::duration_of))]
pub fn duration_of(t: Time) -> Result<i64, Refusal>
    ensures { said_of result ≡ duration_of t }
{
    let seconds = ((t.days as u64 * 24 + t.hours as u64) * 60 + t.minutes as u64) * 60
        + t.seconds as u64;
    let size = seconds as u128 * 1_000_000 + t.micros as u128;
    let size = i64::try_from(size).map_err(|_| Refusal::OutOfRange)?;
    Ok(if t.neg { -size } else { size })
}

// The signed microseconds of the TIME value at a place.
#[tactic(auto, unfolding(crate::specs::Duration::duration_at))]
pub fn read_duration(s: &[u8], at: usize) -> Result<Parsed<i64>, Refusal>
    ensures { said_of result ≡ duration_at s.now at }
{
    let time = read_time(s, at)?;
    Ok(Parsed {
        value: duration_of(time.value)?,
        next: time.next,
    })
}

// The size of a duration without its sign, for who prints it: no i64 holds that of the smallest.
pub fn magnitude(micros: i64) -> u64
    ensures { result ≡ nat_abs micros }
{
    micros.unsigned_abs()
}
