// What the bytes of a value mean, kind by kind.
ghost use Rattle.refusal.specs.Said.{said_of};
ghost use Rattle.std.specs.Prelude.{◌≡◌, IfOk, false, ◌+◌, ◌*◌, ◌≤◌, ◌<◌, ◌^◌};
ghost use Rattle.wire.specs.Le.{num_at};
ghost use Rattle.value.specs.Numbers.{twos, int_of, float_of, double_of};
ghost use Rattle.value.specs.Dates.{date_of};
ghost use Rattle.value.specs.Read.{kind_at, fixed};
ghost use Rattle.value.specs.declared.Kind.TheVariants.{Str, Single, Wide, Day, Clock};

use crate::{Date, Value};
use refusal::Refusal;
use wire::Parsed;

// ---- numbers

// A pattern as a signed number, at the width whose sign bit weighs half.
#[tactic(auto, using(std::proofs::lemmas::Int::ints), unfolding(crate::specs::Numbers::twos))]
fn signed_of(x: u64, half: u64) -> i64
    requires { (half ≤ 2 ^ 63) × (x < half + half) }
    ensures { result ≡ twos half x }
{
    if x < half {
        x as i64
    } else {
        let below = (half - 1 - (x - half)) as i64;
        -1 - below
    }
}

// The number x of k bytes in an integer column.
#[tactic(auto, using(crate::proofs::NumberLaws::half_shl, crate::proofs::NumberLaws::half_fits, crate::proofs::NumberLaws::half_twice), unfolding(crate::specs::Numbers::int_of))]
fn int_of(x: u64, k: usize, unsigned: bool) -> Value
    requires { (1 ≤ k) × (k ≤ 8) × (x < 2 ^ (8 * k)) }
    ensures { result ≡ int_of unsigned k x }
{
    if !unsigned {
        return Value::Int(signed_of(x, 1u64 << (8 * k - 1)));
    }
    match i64::try_from(x) {
        Ok(z) => Value::Int(z),
        Err(_) => Value::UInt(x),
    }
}

// `from_bits` is not defined at a NaN, so a NaN's bits stay a number.
#[tactic(auto, using(crate::proofs::NumberLaws::is_nan_lem, crate::proofs::NumberLaws::is_number), unfolding(crate::specs::Numbers::float_of))]
fn float_of(n: u32) -> Value
    ensures { result ≡ float_of n }
{
    if 0x7F80_0000 < n % 0x8000_0000 {
        Value::NanFloat(n)
    } else {
        Value::Float(f32::from_bits(n))
    }
}

#[tactic(auto, using(crate::proofs::NumberLaws::is_nan_lem, crate::proofs::NumberLaws::is_number), unfolding(crate::specs::Numbers::double_of))]
fn double_of(n: u64) -> Value
    ensures { result ≡ double_of n }
{
    if 0x7FF0_0000_0000_0000 < n % 0x8000_0000_0000_0000 {
        Value::NanDouble(n)
    } else {
        Value::Double(f64::from_bits(n))
    }
}

// The number of k bytes at a place.
#[tactic(auto, unfolding(wire::specs::Le::num_at))]
fn number_at(s: &[u8], at: usize, k: usize) -> Result<Parsed<u64>, Refusal>
    requires { k ≤ 8 }
    ensures said { said_of result ≡ num_at s.now at k }
    ensures small { IfOk result (λ n. n.value < 2 ^ (8 * k)) }
{
    if !wire::inner::has(s, at, k) {
        return Err(Refusal::Short);
    }
    Ok(Parsed {
        value: wire::inner::le(s, at, k),
        next: at + k,
    })
}

#[tactic(auto, unfolding(wire::specs::Le::num_at))]
pub(crate) fn int_at(
    s: &[u8],
    at: usize,
    k: usize,
    unsigned: bool,
) -> Result<Parsed<Value>, Refusal>
    requires { (1 ≤ k) × (k ≤ 8) }
    ensures { said_of result ≡ fixed s.now at k (int_of unsigned) }
{
    let number = number_at(s, at, k)?;
    Ok(Parsed {
        value: int_of(number.value, k, unsigned),
        next: number.next,
    })
}

#[tactic(auto, unfolding(wire::specs::Le::num_at))]
pub(crate) fn float_at(s: &[u8], at: usize) -> Result<Parsed<Value>, Refusal>
    ensures { said_of result ≡ kind_at Single false s.now at }
{
    let bits = number_at(s, at, 4)?;
    Ok(Parsed {
        value: float_of(bits.value as u32),
        next: bits.next,
    })
}

#[tactic(auto, unfolding(wire::specs::Le::num_at))]
pub(crate) fn double_at(s: &[u8], at: usize) -> Result<Parsed<Value>, Refusal>
    ensures { said_of result ≡ kind_at Wide false s.now at }
{
    let bits = number_at(s, at, 8)?;
    Ok(Parsed {
        value: double_of(bits.value),
        next: bits.next,
    })
}

// ---- values behind a length

#[tactic(auto, using(wire::specs::LenEncLaws::str_within))]
pub(crate) fn str_at(s: &[u8], at: usize) -> Result<Parsed<Value>, Refusal>
    ensures { said_of result ≡ kind_at Str false s.now at }
{
    let body = wire::checked_eat_lenenc_str(s, at)?;
    Ok(Parsed {
        value: Value::Bytes {
            at: body.at,
            len: body.len,
        },
        next: body.at + body.len,
    })
}

// What the bytes behind the length byte say. Microseconds are there at 11 bytes alone.
#[tactic(auto, unfolding(crate::specs::Dates::date_of))]
fn date_of(b: &[u8]) -> Date
    ensures { result ≡ date_of b.now }
{
    Date {
        year: wire::inner::field_since(b, 4, 0, 2) as u16,
        month: wire::inner::field_since(b, 4, 2, 1) as u8,
        day: wire::inner::field_since(b, 4, 3, 1) as u8,
        hour: wire::inner::field_since(b, 7, 4, 1) as u8,
        minutes: wire::inner::field_since(b, 7, 5, 1) as u8,
        seconds: wire::inner::field_since(b, 7, 6, 1) as u8,
        micros: wire::inner::field_just(b, 11, 7, 4) as u32,
    }
}

#[tactic(auto, using(wire::specs::LenEncLaws::byte_str_within))]
pub(crate) fn date_at(s: &[u8], at: usize) -> Result<Parsed<Value>, Refusal>
    ensures { said_of result ≡ kind_at Day false s.now at }
{
    let body = wire::checked_eat_u8_str(s, at)?;
    Ok(Parsed {
        value: Value::Date(date_of(wire::part(s, body.at, body.len))),
        next: body.at + body.len,
    })
}

#[tactic(auto, unfolding(duration::specs::Time::time_at))]
pub(crate) fn time_at(s: &[u8], at: usize) -> Result<Parsed<Value>, Refusal>
    ensures { said_of result ≡ kind_at Clock false s.now at }
{
    let time = duration::read_time(s, at)?;
    Ok(Parsed {
        value: Value::Time(time.value),
        next: time.next,
    })
}
