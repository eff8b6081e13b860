// Values around every limit, each read, walked over, written and read back, against the answers that an independent reader
// gives (host/data/values.py, which also says how the file is laid out). Where it must not be written no byte may change.
#![tactic(auto)]

use duration::Time;
use files::{byte_at, half_at, long_at, read_front, word_at};
use refusal::{Refusal, number_of};
use std::fs::File;
use std::io;
use value::{Date, Value};
use wire::{Parsed, part};

// How many bytes of the list are read: what a longer file has behind them is not.
const LIST: u64 = 65_536;

// More cases than a file holds.
const CASES: usize = 1630;

// What the buffer holds before each call.
const MARK: u8 = 0xA5;

const ROOM: usize = 512;

// Where a case has the sign of a time: as it is read, and once it was written and read back.
const READ_SIGN: usize = 13;

const BACK_SIGN: usize = 19;

fn place_of(k: usize) -> usize {
    k.saturating_mul(40).saturating_add(4)
}

// The number of a value's kind in the list.
fn kind_of(v: Value) -> u8 {
    match v {
        Value::NULL => 0,
        Value::Bytes { .. } => 1,
        Value::Int(_) => 2,
        Value::UInt(_) => 3,
        Value::Float(_) => 4,
        Value::NanFloat(_) => 5,
        Value::Double(_) => 6,
        Value::NanDouble(_) => 7,
        Value::Date(_) => 8,
        Value::Time(_) => 9,
    }
}

// The column type that brings a value back.
fn back_type(v: Value) -> u8 {
    match v {
        Value::NULL => 6,
        Value::Bytes { .. } => 253,
        Value::Int(_) | Value::UInt(_) => 8,
        Value::Float(_) | Value::NanFloat(_) => 4,
        Value::Double(_) | Value::NanDouble(_) => 5,
        Value::Date(_) => 12,
        Value::Time(_) => 11,
    }
}

fn read_back(bytes: &[u8], at: usize, v: Value) -> Result<Parsed<Value>, Refusal> {
    value::deserialize_bin(bytes, at, back_type(v), matches!(v, Value::UInt(_)))
}

fn is_unchanged(bytes: &[u8]) -> bool {
    [MARK; ROOM].starts_with(bytes)
}

// A case: its 40 bytes, and the list that has the bytes at which it points.
#[derive(Clone, Copy)]
struct Case<'a> {
    list: &'a [u8],
    listed: &'a [u8],
}

impl<'a> Case<'a> {
    fn of(list: &'a [u8], k: usize) -> Self {
        let listed = part(list, place_of(k), 40);
        Case { list, listed }
    }

    fn byte(self, at: usize) -> u8 {
        byte_at(self.listed, at)
    }

    fn half(self, at: usize) -> usize {
        usize::from(half_at(self.listed, at))
    }

    // The part of the list whose place and length stand at two places of the case.
    fn part(self, at: usize, len: usize) -> &'a [u8] {
        part(self.list, self.half(at), self.half(len))
    }

    // The bytes that are read.
    fn source(self) -> &'a [u8] {
        self.part(4, 6)
    }

    fn is_text(self) -> bool {
        self.byte(0) != 0
    }

    // The number of a value that has one: its year, days, bits or place too.
    fn number(self) -> u64 {
        long_at(self.listed, 20)
    }

    // The microseconds, or the length of a string.
    fn last(self) -> u32 {
        word_at(self.listed, 28)
    }

    // No date where the year is none.
    fn date(self) -> Option<Date> {
        Some(Date {
            year: u16::try_from(self.number()).ok()?,
            month: self.byte(14),
            day: self.byte(15),
            hour: self.byte(16),
            minutes: self.byte(17),
            seconds: self.byte(18),
            micros: self.last(),
        })
    }

    // The time whose sign stands at a place; none where that or the days are none.
    fn time(self, sign: usize) -> Option<Time> {
        let neg = match self.byte(sign) {
            0 => false,
            1 => true,
            _ => return None,
        };
        Some(Time {
            neg,
            days: u32::try_from(self.number()).ok()?,
            hours: self.byte(14),
            minutes: self.byte(15),
            seconds: self.byte(16),
            micros: self.last(),
        })
    }

    // Whether a value is the listed one. A signed number and a float are compared by the bytes that they are written in, and here by
    // their kind alone.
    fn is_value(self, v: Value, sign: usize) -> bool {
        if kind_of(v) != self.byte(12) {
            return false;
        }
        match v {
            Value::NULL | Value::Int(_) | Value::Float(_) | Value::Double(_) => true,
            Value::Bytes { at, len } => at as u64 == self.number()
                && len as u64 == u64::from(self.last()),
            Value::UInt(n) | Value::NanDouble(n) => n == self.number(),
            Value::NanFloat(n) => u64::from(n) == self.number(),
            Value::Date(d) => Some(d) == self.date(),
            Value::Time(t) => Some(t) == self.time(sign),
        }
    }

    // Whether the place behind the value is the listed one, or the refusal.
    fn is_next(self, next: Result<usize, Refusal>) -> bool {
        match next {
            Ok(next) => self.byte(3) == 0 && next == self.half(10),
            Err(why) => self.byte(3) == number_of(why),
        }
    }

    fn read(self) -> Result<Parsed<Value>, Refusal> {
        if self.is_text() {
            value::deserialize_text(self.source(), self.half(8))
        } else {
            value::deserialize_bin(self.source(), self.half(8), self.byte(1), self.byte(2) != 0)
        }
    }

    // There is no skip for text.
    fn is_skipped(self) -> bool {
        self.is_text() || self.is_next(value::skip(self.source(), self.half(8), self.byte(1)))
    }

    // Where there is no room for a value nothing may be written.
    fn is_refused(self, v: Value, dst: &mut [u8], from: usize) -> bool {
        dst.fill(MARK);
        value::serialize(dst, from, self.source(), v) == Err(Refusal::NoRoom) && is_unchanged(dst)
    }

    // Whether a value is written as the listed bytes, the last of them into the last of the buffer, and those before it stay.
    fn is_put(self, v: Value, dst: &mut [u8], from: usize) -> bool {
        dst.fill(MARK);
        value::serialize(dst, from, self.source(), v) == Ok(dst.len())
            && is_unchanged(part(dst, 0, from))
            && dst.get(from..) == Some(self.part(32, 34))
    }

    // Whether a written value comes back. A string has another place then, and the same bytes.
    fn is_back(self, v: Value, dst: &[u8], from: usize) -> bool {
        let Ok(back) = read_back(dst, from, v) else {
            return false;
        };
        if back.next != dst.len() {
            return false;
        }
        match (v, back.value) {
            (
                Value::Bytes { at, len },
                Value::Bytes {
                    at: there,
                    len: size,
                },
            ) => { part(dst, there, size) == part(self.source(), at, len) }
            (_, value) => self.is_value(value, BACK_SIGN),
        }
    }

    // A value is written as the bytes that are listed, not into one byte less, and comes back.
    fn is_written(self, v: Value, dst: &mut [u8]) -> bool {
        let len = self.part(32, 34).len();
        let Some(from) = dst.len().checked_sub(len) else {
            return false;
        };
        value::bin_len(self.source(), v) == Ok(len)
            && self.is_refused(v, dst, from.saturating_add(1))
            && self.is_put(v, dst, from)
            && self.is_back(v, dst, from)
    }

    // Whether the case is answered as it should be.
    fn is_right(self, dst: &mut [u8]) -> bool {
        self.is_skipped()
            && match self.read() {
                Ok(got) => {
                    self.is_next(Ok(got.next))
                        && self.is_value(got.value, READ_SIGN)
                        && self.is_written(got.value, dst)
                }
                Err(why) => self.is_next(Err(why)),
            }
    }
}

// How many cases are answered otherwise. A line that can't be written is passed over, here and in `main`: what is counted does not
// depend on it.
fn differences(rt: &impl Print, list: &[u8], n: usize) -> usize {
    let mut buffer = [0u8; ROOM];
    let mut differences = 0usize;
    for k in 0..n.min(CASES) {
        if !Case::of(list, k).is_right(&mut buffer) {
            let _ = println!(rt; "differs: case {k}");
            differences = differences.saturating_add(1);
        }
    }
    differences
}

// How many of the first n cases have a number other than 0 at a place.
fn count_marked(list: &[u8], n: usize, at: usize) -> usize {
    (0..n)
        .filter(|&k| byte_at(list, place_of(k).saturating_add(at)) != 0)
        .count()
}

fn main(rt: HostRuntime) -> io::Result<()> {
    let list = read_front(File::open(&rt, "vectors")?, LIST, rt.alloc())?;
    let n = usize::from(half_at(&list, 0));
    let differences = differences(&rt, &list, n);
    let _ = println!(rt; "values {n}");
    let _ = println!(rt; "of them in text {}", count_marked(&list, n, 0));
    let _ = println!(rt; "refused {}", count_marked(&list, n, 3));
    let _ = println!(rt; "differences {differences}");
    Ok(())
}
