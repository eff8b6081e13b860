// Rows of a timetable that a real server sent: every start and every value against what an independent decoder says
// (host/data/rows.py, which also says how the file is laid out), and each row cut at every length.
#![tactic(auto)]

use duration::Time;
use files::{half_at, read_front, tail};
use refusal::Refusal;
use row::{Columns, Side};
use std::fs::File;
use std::io;
use value::{Date, Value};
use wire::part;

// How many bytes of the list are read: what a longer file has behind them is not.
const LIST: u64 = 65_536;

// Four places more than a row has columns: they must stay.
const PLACES: usize = 40;

// What the list of starts holds before each call: no start comes near it.
const MARK: usize = 0x7654_3210;

const UNTOUCHED: [usize; PLACES] = [MARK; PLACES];

// The values that are counted, each at its tag.
const TAGS: [&str; 9] = [
    "NULL",
    "integers from 0 on",
    "integers below 0",
    "unsigned integers above any i64",
    "strings",
    "f32",
    "f64",
    "dates",
    "times",
];

// A file from the k-th entry on of the table at a place: its entries have one size.
fn entry(file: &[u8], table: usize, size: usize, k: usize) -> &[u8] {
    tail(file, k.saturating_mul(size).saturating_add(table))
}

fn half(bytes: &[u8], at: usize) -> usize {
    usize::from(half_at(bytes, at))
}

// The longer numbers are halves to the list too: what its end cuts off of one is 0, and the halves before that count.
fn word(bytes: &[u8]) -> u32 {
    let [a, b] = half_at(bytes, 0).to_le_bytes();
    let [c, d] = half_at(bytes, 2).to_le_bytes();
    u32::from_le_bytes([a, b, c, d])
}

fn long(bytes: &[u8]) -> u64 {
    let [a, b, c, d] = word(bytes).to_le_bytes();
    let [e, f, g, h] = word(tail(bytes, 4)).to_le_bytes();
    u64::from_le_bytes([a, b, c, d, e, f, g, h])
}

// ---- a value as the file has it: a tag, a number of eight bytes and one of four

#[derive(Clone, Copy, PartialEq, Eq)]
struct Flat {
    tag: u16,
    number: u64,
    last: u32,
}

fn wide(tag: u16, number: u64) -> Flat {
    Flat {
        tag,
        number,
        last: 0,
    }
}

// A string's length stands behind two bytes with its place, which no row passes.
fn flat_part(at: usize, len: usize) -> Flat {
    wide(
        4,
        (len as u64)
            .saturating_mul(0x1_0000)
            .saturating_add(at as u64),
    )
}

fn flat_date(d: Date) -> Flat {
    let [low, high] = d.year.to_le_bytes();
    Flat {
        tag: 7,
        number: u64::from_le_bytes([low, high, d.month, d.day, d.hour, d.minutes, d.seconds, 0]),
        last: d.micros,
    }
}

fn flat_time(t: Time) -> Flat {
    let [a, b, c, d] = t.days.to_le_bytes();
    let neg = u8::from(t.neg);
    Flat {
        tag: 8,
        number: u64::from_le_bytes([a, b, c, d, neg, t.hours, t.minutes, t.seconds]),
        last: t.micros,
    }
}

// The list has no NaN: the tags 9 and 10 are not in it.
fn flat_of(v: Value) -> Flat {
    match v {
        Value::NULL => wide(0, 0),
        Value::Bytes { at, len } => flat_part(at, len),
        Value::Int(z) => wide(if z < 0 { 2 } else { 1 }, z.unsigned_abs()),
        Value::UInt(n) => wide(3, n),
        Value::Float(x) => wide(5, u64::from(value::inner::single_bits(x))),
        Value::NanFloat(n) => wide(9, u64::from(n)),
        Value::Double(x) => wide(6, value::inner::double_bits(x)),
        Value::NanDouble(n) => wide(10, n),
        Value::Date(d) => flat_date(d),
        Value::Time(t) => flat_time(t),
    }
}

// ---- what is counted

#[derive(Default, Drop)]
struct Counts {
    rows: usize,
    columns: usize,
    tags: [usize; 9],
    cuts: usize,
    differences: usize,
}

fn count(n: &mut usize) {
    *n = n.saturating_add(1);
}

impl Counts {
    // Says where something differs, if it does. A line that can't be written is passed over, here and below: what is counted does not
    // depend on it.
    fn expect(&mut self, rt: &impl Print, right: bool, what: &str, k: usize, i: usize) {
        if !right {
            count(&mut self.differences);
            let _ = println!(rt; "{what} of row {k} at {i} differs");
        }
    }

    // Counts a value by its listed tag. The four numbers behind the last value's tag stand for the other counts, in this order.
    fn count_tag(&mut self, tag: u16) {
        match tag {
            9 => count(&mut self.rows),
            10 => count(&mut self.columns),
            11 => count(&mut self.cuts),
            12 => count(&mut self.differences),
            _ => {
                if let Some(n) = self.tags.get_mut(usize::from(tag)) {
                    count(n);
                }
            }
        }
    }

    fn say(&self, rt: &impl Print) {
        let _ = println!(rt; "rows {}", self.rows);
        let _ = println!(rt; "columns {}", self.columns);
        for (name, n) in TAGS.iter().zip(&self.tags) {
            let _ = println!(rt; "{name} {n}");
        }
        let _ = println!(rt;
            "rows cut short, refused with 8 and the list unchanged {}",
            self.cuts
        );
        let _ = println!(rt; "differences {}", self.differences);
    }
}

// ---- a row

// A row of the timetable, its place in the table, and the types and signs of its columns.
#[derive(Clone, Copy)]
struct Row<'a> {
    file: &'a [u8],
    k: usize,
    listed: &'a [u8],
    bytes: &'a [u8],
    columns: usize,
    types: &'a [u8],
    signs: &'a [u8],
}

impl<'a> Row<'a> {
    fn of(file: &'a [u8], k: usize) -> Self {
        let columns = half(file, 2);
        let lists = half(file, 4);
        let listed = entry(file, half(file, 6), 12, k);
        Row {
            file,
            k,
            listed,
            bytes: part(file, half(listed, 0), half(listed, 2)),
            columns,
            types: part(file, lists, columns),
            signs: part(file, lists.saturating_add(columns), columns),
        }
    }

    // The list of starts as it should be: behind them nothing has changed.
    fn starts(self) -> [usize; PLACES] {
        let starts = tail(self.file, half(self.listed, 8));
        let mut list = UNTOUCHED;
        for (i, place) in list.iter_mut().take(self.columns).enumerate() {
            *place = half(starts, i.saturating_mul(2));
        }
        list
    }

    // The value of column i as it is listed.
    fn listed_value(self, i: usize) -> Flat {
        let bytes = entry(self.file, half(self.listed, 10), 16, i);
        Flat {
            tag: half_at(bytes, 0),
            number: long(tail(bytes, 2)),
            last: word(tail(bytes, 10)),
        }
    }

    // Whether column i has the value that is listed, at its start, or is NULL by its bit where that is listed. The bitmap stands behind the
    // row's first byte, and the bit says itself whether the bitmap reaches it.
    fn has(self, list: &[usize], i: usize, listed: Flat) -> Option<bool> {
        let column_type = *self.types.get(i)?;
        let sign = *self.signs.get(i)?;
        let start = *list.get(i)?;
        if row::null_bit(part(self.bytes, 1, 5), Side::ServerSide, i).ok()? {
            return Some(listed.tag == 0);
        }
        let read = value::deserialize_bin(self.bytes, start, column_type, sign != 0).ok()?;
        Some(flat_of(read.value) == listed)
    }

    fn read(self, bytes: &[u8], list: &mut [usize]) -> Result<Columns, Refusal> {
        row::read_row(bytes, self.types, self.signs, list)
    }

    fn check_starts(self, rt: &impl Print, list: &mut [usize; PLACES], counts: &mut Counts) {
        let wanted = Columns {
            nulls: half(self.listed, 4),
            used: half(self.listed, 6),
        };
        let right = self.read(self.bytes, list) == Ok(wanted) && *list == self.starts();
        count(&mut counts.rows);
        counts.expect(rt, right, "starts", self.k, 0);
    }

    fn check_values(self, rt: &impl Print, list: &[usize], counts: &mut Counts) {
        for i in 0..self.columns {
            let listed = self.listed_value(i);
            let right = self.has(list, i, listed) == Some(true);
            counts.expect(rt, right, "value", self.k, i);
            count(&mut counts.columns);
            counts.count_tag(listed.tag);
        }
    }

    // A row that was cut is short, and the list is as it was.
    fn check_cuts(self, rt: &impl Print, counts: &mut Counts) {
        let mut list = UNTOUCHED;
        for m in 0..self.bytes.len() {
            let right = self.read(&self.bytes[..m], &mut list) == Err(Refusal::Short)
                && list == UNTOUCHED;
            counts.expect(rt, right, "cut", self.k, m);
            count(&mut counts.cuts);
        }
    }

    fn check(self, rt: &impl Print, counts: &mut Counts) {
        let mut list = UNTOUCHED;
        self.check_starts(rt, &mut list, counts);
        self.check_values(rt, &list, counts);
        self.check_cuts(rt, counts);
    }
}

fn main(rt: HostRuntime) -> io::Result<()> {
    let file = read_front(File::open(&rt, "rows")?, LIST, rt.alloc())?;
    let mut counts = Counts::default();
    for k in 0..half(&file, 0) {
        Row::of(&file, k).check(&rt, &mut counts);
    }
    counts.say(&rt);
    Ok(())
}
