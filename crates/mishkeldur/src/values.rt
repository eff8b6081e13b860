// Numbers, strings, dates, times, values and rows.
ghost use Rattle.std.specs.Prelude.{◌≡◌, ◌+◌, [], length};
ghost use Rattle.wire.specs.Le.{le_bytes};
ghost use Rattle.wire.specs.LenEnc.{len_at, str_at, byte_str_at, len_bytes, str_bytes};
ghost use Rattle.duration.specs.Time.{time_at};
ghost use Rattle.duration.specs.Duration.{duration_of, duration_at};
ghost use Rattle.value.specs.Read.{bin_at, text_at};
ghost use Rattle.value.specs.Write.{value_bytes};
ghost use Rattle.value.specs.declared.Value.TheVariants as Of;
ghost use Rattle.row.specs.Nulls.{null_at, count_at};
ghost use Rattle.row.specs.Row.{row_of, params_of};
ghost use Rattle.refusal.specs.Said.{said_of};
ghost use Rattle.mishkeldur.specs.Face.{status, holds, flag, flag_no, Puts};
ghost use Rattle.mishkeldur.specs.Values.{kind_no, integer_of, bits_of, place_of, len_of, date_in, date_from, time_from, side_of};

use crate::{flag, give};
use duration::Time;
use refusal::{Refusal, number_of};
use row::{Columns, Side};
use value::{Date, Value};
use wire::Parsed;

// What a reader answered, as a status; the value and the place behind it go to lent numbers.
fn give_parsed<T: Copy>(answer: Result<Parsed<T>, Refusal>, value: &mut T, next: &mut usize) -> u8
    ensures { (result ≡ status (said_of answer))
        × (value.new ≡ holds (said_of answer) (λ p. p.value) value.old)
        × (next.new ≡ holds (said_of answer) (λ p. p.next) next.old) }
{
    match answer {
        Ok(p) => {
            *value = p.value;
            *next = p.next;
            0
        }
        Err(r) => number_of(r),
    }
}

// ---- length-encoded integers and strings

// The length-encoded integer at a place, and the place behind it.
#[unsafe(no_mangle)]
pub extern "C" fn mk_lenenc_int(s: &[u8], at: usize, value: &mut u64, next: &mut usize) -> u8
    ensures { (result ≡ status (len_at s.now at))
        × (value.new ≡ holds (len_at s.now at) (λ n. n.value) value.old)
        × (next.new ≡ holds (len_at s.now at) (λ n. n.next) next.old) }
{
    give_parsed(wire::checked_eat_lenenc_int(s, at), value, next)
}

// The place and the length of the length-encoded string at a place. It ends at their sum.
#[unsafe(no_mangle)]
pub extern "C" fn mk_lenenc_str(s: &[u8], at: usize, place: &mut usize, len: &mut usize) -> u8
    ensures { (result ≡ status (str_at s.now at))
        × (place.new ≡ holds (str_at s.now at) (λ p. p.at) place.old)
        × (len.new ≡ holds (str_at s.now at) (λ p. p.len) len.old) }
{
    match wire::checked_eat_lenenc_str(s, at) {
        Ok(p) => {
            *place = p.at;
            *len = p.len;
            0
        }
        Err(r) => number_of(r),
    }
}

// How many bytes `mk_put_lenenc_int` takes for a number.
#[unsafe(no_mangle)]
pub extern "C" fn mk_lenenc_int_len(v: u64) -> usize
    ensures { result ≡ length (len_bytes v) }
{
    wire::lenenc_int_len(v)
}

// A number in its shortest length-encoded form.
#[unsafe(no_mangle)]
pub extern "C" fn mk_put_lenenc_int(dst: &mut [u8], at: usize, v: u64, next: &mut usize) -> u8
    ensures { Puts (len_bytes v) dst.old at next.old result dst.new next.new }
{
    give(wire::put_lenenc_int(dst, at, v), next)
}

// The bytes behind their length.
#[unsafe(no_mangle)]
pub extern "C" fn mk_put_lenenc_str(dst: &mut [u8], at: usize, src: &[u8], next: &mut usize) -> u8
    ensures { Puts (str_bytes src.now)
        dst.old at next.old result dst.new next.new }
{
    give(wire::put_lenenc_str(dst, at, src), next)
}

// ---- times and durations

// The fields of the binary TIME value at a place, and the place behind it.
#[unsafe(no_mangle)]
pub extern "C" fn mk_read_time(
    s: &[u8],
    at: usize,
    neg: &mut u8,
    days: &mut u32,
    hours: &mut u8,
    minutes: &mut u8,
    seconds: &mut u8,
    micros: &mut u32,
    next: &mut usize,
) -> u8
    ensures { (result ≡ status (time_at s.now at))
        × (neg.new ≡ holds (time_at s.now at) (λ t. flag_no t.value.neg) neg.old)
        × (days.new ≡ holds (time_at s.now at) (λ t. t.value.days) days.old)
        × (hours.new ≡ holds (time_at s.now at) (λ t. t.value.hours) hours.old)
        × (minutes.new ≡ holds (time_at s.now at) (λ t. t.value.minutes) minutes.old)
        × (seconds.new ≡ holds (time_at s.now at) (λ t. t.value.seconds) seconds.old)
        × (micros.new ≡ holds (time_at s.now at) (λ t. t.value.micros) micros.old)
        × (next.new ≡ holds (time_at s.now at) (λ t. t.next) next.old) }
{
    match duration::read_time(s, at) {
        Ok(t) => {
            *neg = u8::from(t.value.neg);
            *days = t.value.days;
            *hours = t.value.hours;
            *minutes = t.value.minutes;
            *seconds = t.value.seconds;
            *micros = t.value.micros;
            *next = t.next;
            0
        }
        Err(r) => number_of(r),
    }
}

// The signed microseconds of the binary TIME value at a place, and the place behind it.
#[unsafe(no_mangle)]
pub extern "C" fn mk_read_duration(s: &[u8], at: usize, micros: &mut i64, next: &mut usize) -> u8
    ensures { (result ≡ status (duration_at s.now at))
        × (micros.new ≡ holds (duration_at s.now at) (λ d. d.value) micros.old)
        × (next.new ≡ holds (duration_at s.now at) (λ d. d.next) next.old) }
{
    give_parsed(duration::read_duration(s, at), micros, next)
}

// The signed microseconds of a TIME value's fields.
#[unsafe(no_mangle)]
pub extern "C" fn mk_duration_of(
    neg: u8,
    days: u32,
    hours: u8,
    minutes: u8,
    seconds: u8,
    micros: u32,
    out: &mut i64,
) -> u8
    ensures { (result ≡ status (duration_of (time_from (flag neg) days hours minutes seconds micros)))
        × (out.new ≡ holds (duration_of (time_from (flag neg) days hours minutes seconds micros)) (λ z. z) out.old) }
{
    let t = Time {
        neg: flag(neg),
        days,
        hours,
        minutes,
        seconds,
        micros,
    };
    give(duration::duration_of(t), out)
}

// ---- values

// A value's kind to C.
fn kind_number(value: Value) -> u8
    ensures { result ≡ kind_no value }
{
    match value {
        Value::NULL => 0,
        Value::Bytes { .. } => 1,
        Value::Int(_) => 2,
        Value::UInt(_) => 3,
        Value::Float(_) | Value::NanFloat(_) => 4,
        Value::Double(_) | Value::NanDouble(_) => 5,
        Value::Date(_) => 6,
        Value::Time(_) => 7,
    }
}

// The binary value at a place, by its column: its kind, and in the other numbers what that kind has; those it has not
// stay. NULL 0, a string 1, signed 2, unsigned 3, float 4, double 5, date 6, time 7.
#[unsafe(no_mangle)]
pub extern "C" fn mk_read_value(
    s: &[u8],
    at: usize,
    column_type: u8,
    is_unsigned: u8,
    kind: &mut u8,
    integer: &mut i64,
    bits: &mut u64,
    place: &mut usize,
    len: &mut usize,
    next: &mut usize,
) -> u8
    ensures { (result ≡ status (bin_at s.now at column_type (flag is_unsigned)))
        × (kind.new ≡ holds (bin_at s.now at column_type (flag is_unsigned)) (λ g. kind_no g.value) kind.old)
        × (integer.new ≡ holds (bin_at s.now at column_type (flag is_unsigned))
        (λ g. integer_of g.value integer.old) integer.old)
        × (bits.new ≡ holds (bin_at s.now at column_type (flag is_unsigned))
        (λ g. bits_of g.value bits.old) bits.old)
        × (place.new ≡ holds (bin_at s.now at column_type (flag is_unsigned))
        (λ g. place_of g.value place.old) place.old)
        × (len.new ≡ holds (bin_at s.now at column_type (flag is_unsigned)) (λ g. len_of g.value len.old) len.old)
        × (next.new ≡ holds (bin_at s.now at column_type (flag is_unsigned)) (λ g. g.next) next.old) }
{
    let got = match value::deserialize_bin(s, at, column_type, flag(is_unsigned)) {
        Ok(got) => got,
        Err(r) => return number_of(r),
    };
    *kind = kind_number(got.value);
    *next = got.next;
    match got.value {
        Value::NULL | Value::Date(_) | Value::Time(_) => {}
        Value::Bytes { at: from, len: n } => {
            *place = from;
            *len = n;
        }
        Value::Int(z) => *integer = z,
        Value::UInt(n) | Value::NanDouble(n) => *bits = n,
        Value::Float(x) => *bits = u64::from(value::inner::single_bits(x)),
        Value::NanFloat(n) => *bits = u64::from(n),
        Value::Double(x) => *bits = value::inner::double_bits(x),
    }
    0
}

// The text value at a place: kind 0 for NULL, or 1 and the place and the length of its bytes.
#[unsafe(no_mangle)]
pub extern "C" fn mk_read_text(
    s: &[u8],
    at: usize,
    kind: &mut u8,
    place: &mut usize,
    len: &mut usize,
    next: &mut usize,
) -> u8
    ensures { (result ≡ status (text_at s.now at))
        × (kind.new ≡ holds (text_at s.now at) (λ g. kind_no g.value) kind.old)
        × (place.new ≡ holds (text_at s.now at) (λ g. place_of g.value place.old) place.old)
        × (len.new ≡ holds (text_at s.now at) (λ g. len_of g.value len.old) len.old)
        × (next.new ≡ holds (text_at s.now at) (λ g. g.next) next.old) }
{
    let got = match value::deserialize_text(s, at) {
        Ok(got) => got,
        Err(r) => return number_of(r),
    };
    *kind = kind_number(got.value);
    *next = got.next;
    if let Value::Bytes { at: from, len: n } = got.value {
        *place = from;
        *len = n;
    }
    0
}

// The fields of the binary date at a place, and the place behind it.
#[tactic(auto, using(crate::proofs::FaceLaws::date_given, crate::proofs::FaceLaws::date_refused))]
#[unsafe(no_mangle)]
pub extern "C" fn mk_read_date(
    s: &[u8],
    at: usize,
    year: &mut u16,
    month: &mut u8,
    day: &mut u8,
    hour: &mut u8,
    minutes: &mut u8,
    seconds: &mut u8,
    micros: &mut u32,
    next: &mut usize,
) -> u8
    ensures { (result ≡ status (byte_str_at s.now at))
        × (year.new ≡ holds (byte_str_at s.now at) (λ p. (date_in s.now p).year) year.old)
        × (month.new ≡ holds (byte_str_at s.now at) (λ p. (date_in s.now p).month) month.old)
        × (day.new ≡ holds (byte_str_at s.now at) (λ p. (date_in s.now p).day) day.old)
        × (hour.new ≡ holds (byte_str_at s.now at) (λ p. (date_in s.now p).hour) hour.old)
        × (minutes.new ≡ holds (byte_str_at s.now at) (λ p. (date_in s.now p).minutes) minutes.old)
        × (seconds.new ≡ holds (byte_str_at s.now at) (λ p. (date_in s.now p).seconds) seconds.old)
        × (micros.new ≡ holds (byte_str_at s.now at) (λ p. (date_in s.now p).micros) micros.old)
        × (next.new ≡ holds (byte_str_at s.now at) (λ p. p.at + p.len) next.old) }
{
    let got = match value::deserialize_bin(s, at, 12, false) {
        Ok(got) => got,
        Err(r) => return number_of(r),
    };
    let Value::Date(date) = got.value else {
        return number_of(Refusal::BadType);
    };
    *year = date.year;
    *month = date.month;
    *day = date.day;
    *hour = date.hour;
    *minutes = date.minutes;
    *seconds = date.seconds;
    *micros = date.micros;
    *next = got.next;
    0
}

// A signed number in eight bytes.
#[unsafe(no_mangle)]
pub extern "C" fn mk_put_int(dst: &mut [u8], at: usize, v: i64, next: &mut usize) -> u8
    ensures { Puts (value_bytes [] (Of.Int v))
        dst.old at next.old result dst.new next.new }
{
    give(value::serialize(dst, at, b"", Value::Int(v)), next)
}

// An unsigned number in eight bytes.
#[unsafe(no_mangle)]
pub extern "C" fn mk_put_uint(dst: &mut [u8], at: usize, v: u64, next: &mut usize) -> u8
    ensures { Puts (value_bytes [] (Of.UInt v))
        dst.old at next.old result dst.new next.new }
{
    give(value::serialize(dst, at, b"", Value::UInt(v)), next)
}

// A float by its bits.
#[unsafe(no_mangle)]
pub extern "C" fn mk_put_float(dst: &mut [u8], at: usize, bits: u32, next: &mut usize) -> u8
    ensures { Puts (le_bytes 4 bits) dst.old at next.old result dst.new next.new }
{
    give(wire::put_u32_le(dst, at, bits), next)
}

// A double by its bits.
#[unsafe(no_mangle)]
pub extern "C" fn mk_put_double(dst: &mut [u8], at: usize, bits: u64, next: &mut usize) -> u8
    ensures { Puts (le_bytes 8 bits) dst.old at next.old result dst.new next.new }
{
    give(wire::put_u64_le(dst, at, bits), next)
}

// A date in the document's shortest form.
#[unsafe(no_mangle)]
pub extern "C" fn mk_put_date(
    dst: &mut [u8],
    at: usize,
    year: u16,
    month: u8,
    day: u8,
    hour: u8,
    minutes: u8,
    seconds: u8,
    micros: u32,
    next: &mut usize,
) -> u8
    ensures { Puts (value_bytes [] (Of.Date (date_from year month day hour minutes seconds micros)))
        dst.old at next.old result dst.new next.new }
{
    let d = Date {
        year,
        month,
        day,
        hour,
        minutes,
        seconds,
        micros,
    };
    give(value::serialize(dst, at, b"", Value::Date(d)), next)
}

// A time in the document's shortest form.
#[unsafe(no_mangle)]
pub extern "C" fn mk_put_time(
    dst: &mut [u8],
    at: usize,
    neg: u8,
    days: u32,
    hours: u8,
    minutes: u8,
    seconds: u8,
    micros: u32,
    next: &mut usize,
) -> u8
    ensures { Puts (value_bytes [] (Of.Time (time_from (flag neg) days hours minutes seconds micros)))
        dst.old at next.old result dst.new next.new }
{
    let t = Time {
        neg: flag(neg),
        days,
        hours,
        minutes,
        seconds,
        micros,
    };
    give(value::serialize(dst, at, b"", Value::Time(t)), next)
}

// ---- rows and parameter lists

// What the reader of a row or of parameters answered, as a status; how many are NULL and how many bytes that took go to lent numbers.
fn give_columns(answer: Result<Columns, Refusal>, nulls: &mut usize, used: &mut usize) -> u8
    ensures { (result ≡ status (said_of answer))
        × (nulls.new ≡ holds (said_of answer) (λ c. c.nulls) nulls.old)
        × (used.new ≡ holds (said_of answer) (λ c. c.used) used.old) }
{
    match answer {
        Ok(c) => {
            *nulls = c.nulls;
            *used = c.used;
            0
        }
        Err(r) => number_of(r),
    }
}

// A binary row: how many columns are NULL, how many bytes it takes, and in the list where each column starts.
#[unsafe(no_mangle)]
pub extern "C" fn mk_read_row(
    row: &[u8],
    types: &[u8],
    signs: &[u8],
    starts: &mut [usize],
    nulls: &mut usize,
    used: &mut usize,
) -> u8
    ensures { (result ≡ status (row_of row.now types.now signs.now starts.old).said)
        × (starts.new ≡ (row_of row.now types.now signs.now starts.old).starts)
        × (nulls.new ≡ holds (row_of row.now types.now signs.now starts.old).said
        (λ c. c.nulls) nulls.old)
        × (used.new ≡ holds (row_of row.now types.now signs.now starts.old).said
        (λ c. c.used) used.old) }
{
    give_columns(row::read_row(row, types, signs, starts), nulls, used)
}

// A parameter list, from its bitmap on: the same.
#[unsafe(no_mangle)]
pub extern "C" fn mk_read_params(
    list: &[u8],
    types: &[u8],
    signs: &[u8],
    starts: &mut [usize],
    nulls: &mut usize,
    used: &mut usize,
) -> u8
    ensures { (result ≡ status (params_of list.now types.now signs.now starts.old).said)
        × (starts.new ≡ (params_of list.now types.now signs.now starts.old).starts)
        × (nulls.new ≡ holds (params_of list.now types.now signs.now starts.old).said
        (λ c. c.nulls) nulls.old)
        × (used.new ≡ holds (params_of list.now types.now signs.now starts.old).said
        (λ c. c.used) used.old) }
{
    give_columns(row::read_params(list, types, signs, starts), nulls, used)
}

// Whose bitmap: a row's, or that of parameters.
fn side_of(is_params: u8) -> Side
    ensures { result ≡ side_of (flag is_params) }
{
    if flag(is_params) {
        Side::ClientSide
    } else {
        Side::ServerSide
    }
}

// Whether column i is NULL by its bit, as 0 or 1.
#[unsafe(no_mangle)]
pub extern "C" fn mk_null_bit(map: &[u8], is_params: u8, i: usize, is_null: &mut u8) -> u8
    ensures { (result ≡ status (null_at map.now (side_of (flag is_params)) i))
        × (is_null.new ≡ holds (null_at map.now (side_of (flag is_params)) i) (λ b. flag_no b) is_null.old) }
{
    give(
        row::null_bit(map, side_of(is_params), i).map(u8::from),
        is_null,
    )
}

// How many of the first n columns are NULL by their bits.
#[unsafe(no_mangle)]
pub extern "C" fn mk_null_count(map: &[u8], is_params: u8, n: usize, nulls: &mut usize) -> u8
    ensures { (result ≡ status (count_at map.now (side_of (flag is_params)) n))
        × (nulls.new ≡ holds (count_at map.now (side_of (flag is_params)) n) (λ k. k) nulls.old) }
{
    give(row::null_count(map, side_of(is_params), n), nulls)
}
