// The original Rust's answers, replayed: a fixed list of what it answered (host/data/answers.py, which also says how the file is
// laid out, and which few fields are not its own word), each line against the answer of the room's function. A line's fields
// before the first that is expected are what the call is given. Buffers for bytes that are written are lent as long as what is
// wanted, those of a connection as long as its limit asks for.
#![tactic(auto)]

ghost use Rattle.std.specs.Prelude.{◌<◌};

use chunk::Decoded;
use duration::Time;
use files::{byte_at, half_at, long_at, read_front, tail, word_at};
use frame::PacketCodec;
use refusal::{Refusal, number_of};
use std::alloc::{AllocError, Global};
use std::fs::File;
use std::io;
use value::{Date, Value};
use wire::{Parsed, Text, part};

// How many bytes of the list are read: what a longer file has behind them is not.
const LIST: u64 = 262_144;

// The operations by their numbers in the list.
const OPERATIONS: [(u16, &str); 13] = [
    (0x01, "length-encoded integers read"),
    (0x02, "length-encoded strings read"),
    (0x03, "binary values read"),
    (0x04, "text values read"),
    (0x05, "length-encoded integers written"),
    (0x06, "values written"),
    (0x07, "texts quoted"),
    (0x10, "connections opened"),
    (0x11, "frames turned on"),
    (0x12, "numbers reset"),
    (0x13, "numbers synced"),
    (0x14, "packets written"),
    (0x15, "packet reads"),
];

// The bytes from a place up to another.
fn between(bytes: &[u8], from: usize, to: usize) -> &[u8] {
    bytes.get(from..to).unwrap_or_default()
}

// ---- values out of a payload

fn date_of(p: &[u8]) -> Date {
    Date {
        year: half_at(p, 0),
        month: byte_at(p, 2),
        day: byte_at(p, 3),
        hour: byte_at(p, 4),
        minutes: byte_at(p, 5),
        seconds: byte_at(p, 6),
        micros: word_at(p, 7),
    }
}

fn time_of(p: &[u8]) -> Time {
    Time {
        neg: byte_at(p, 0) == 1,
        days: word_at(p, 1),
        hours: byte_at(p, 5),
        minutes: byte_at(p, 6),
        seconds: byte_at(p, 7),
        micros: word_at(p, 8),
    }
}

// A number by its column type's reader.
fn number_of_type(p: &[u8], column_type: u8) -> Value {
    value::deserialize_bin(p, 0, column_type, false).map_or(Value::NULL, |got| got.value)
}

// The value of a kind; signed numbers and floats come by their column type's reader.
fn value_of(kind: u8, p: &[u8]) -> Value {
    match kind {
        1 => Value::Bytes {
            at: 0,
            len: p.len(),
        },
        2 => number_of_type(p, 8),
        3 => Value::UInt(long_at(p, 0)),
        4 => number_of_type(p, 4),
        5 => number_of_type(p, 5),
        6 => Value::Date(date_of(p)),
        7 => Value::Time(time_of(p)),
        _ => Value::NULL,
    }
}

// The list's number of a value's kind: a NaN is a float.
fn kind_of(v: Value) -> u8 {
    match v {
        Value::NULL => 0,
        Value::Bytes { .. } => 1,
        Value::Int(_) => 2,
        Value::UInt(_) => 3,
        Value::Float(_) | Value::NanFloat(_) => 4,
        Value::Double(_) | Value::NanDouble(_) => 5,
        Value::Date(_) => 6,
        Value::Time(_) => 7,
    }
}

// Integers and floats are compared by the bytes that they are written in: all of the bits, those of a NaN too.
fn same_bits(v: Value, p: &[u8]) -> bool {
    let mut out = [0u8; 8];
    value::serialize(&mut out, 0, b"", v).is_ok_and(|n| part(&out, 0, n) == p)
}

fn same_value(v: Value, p: &[u8]) -> bool {
    match v {
        Value::NULL => p.is_empty(),
        Value::Bytes { at, len } => {
            at == word_at(p, 0) as usize && len == word_at(p, 4) as usize
        }
        Value::Date(d) => d == date_of(p),
        Value::Time(t) => byte_at(p, 0) < 2 && t == time_of(p),
        _ => same_bits(v, p),
    }
}

// ---- a line

// A line of the list: its operation and its fields.
#[derive(Clone, Copy)]
struct Line<'a> {
    bytes: &'a [u8],
}

impl<'a> Line<'a> {
    fn of(list: &'a [u8], k: usize) -> Self {
        let places = tail(list, k.saturating_mul(4).saturating_add(4));
        Line {
            bytes: between(
                list,
                word_at(places, 0) as usize,
                word_at(places, 4) as usize,
            ),
        }
    }

    fn operation(self) -> u16 {
        half_at(self.bytes, 0)
    }

    fn field(self, j: usize) -> &'a [u8]
        requires { j < 8 }
    {
        let from = half_at(self.bytes, 2 + 2 * j);
        let to = half_at(self.bytes, 4 + 2 * j);
        between(self.bytes, usize::from(from), usize::from(to))
    }

    fn byte(self, j: usize) -> u8
        requires { j < 8 }
    {
        byte_at(self.field(j), 0)
    }

    fn word(self, j: usize) -> usize
        requires { j < 8 }
    {
        word_at(self.field(j), 0) as usize
    }

    fn long(self, j: usize) -> u64
        requires { j < 8 }
    {
        long_at(self.field(j), 0)
    }

    // Whether an answer is right by the status in field j: a refusal is the one wanted, and no answer stands beside it.
    fn is_said<T: Drop, F: FnOnce(T) -> bool>(
        self,
        j: usize,
        answer: Result<T, Refusal>,
        is_right: F,
    ) -> bool
        requires field { j < 7 }
        requires callable { F.IsAlwaysCallable is_right }
    {
        match answer {
            Ok(value) => self.byte(j) == 0 && is_right(value),
            Err(why) => self.byte(j) == number_of(why) && self.field(j + 1).is_empty(),
        }
    }

    // Whether a value is the one that the four fields from j on want: status, kind, payload, next.
    fn is_value(self, j: usize, answer: Result<Parsed<Value>, Refusal>) -> bool
        requires { j < 5 }
    {
        let kind = self.byte(j + 1);
        let payload = self.field(j + 2);
        let next = self.word(j + 3);
        self.is_said(j, answer, |got| {
            got.next == next && kind_of(got.value) == kind && same_value(got.value, payload)
        })
    }

    fn is_int(self) -> bool {
        let wanted = Parsed {
            value: self.long(3),
            next: self.word(4),
        };
        let answer = wire::checked_eat_lenenc_int(self.field(0), self.word(1));
        self.is_said(2, answer, |got| got == wanted)
    }

    fn is_str(self) -> bool {
        let wanted = Text {
            at: self.word(3),
            len: self.word(4),
        };
        let answer = wire::checked_eat_lenenc_str(self.field(0), self.word(1));
        self.is_said(2, answer, |got| got == wanted)
    }

    fn is_binary(self) -> bool {
        let unsigned = self.byte(3) != 0;
        let answer = value::deserialize_bin(self.field(0), self.word(1), self.byte(2), unsigned);
        self.is_value(4, answer)
    }

    fn is_text(self) -> bool {
        self.is_value(2, value::deserialize_text(self.field(0), self.word(1)))
    }

    // Whether a read's status, bytes used and packet are those wanted. Where there is no packet none is wanted.
    fn is_read(self, read: Decoded<usize, PacketCodec>, packet: &[u8]) -> bool {
        let wanted = self.field(3);
        let (status, len) = match read.answer {
            Ok(None) => (255, 0),
            Ok(Some(n)) => (0, n),
            Err(why) => (number_of(why), 0),
        };
        status == self.byte(1)
            && read.used == self.word(2)
            && len == wanted.len()
            && part(packet, 0, len) == wanted
    }
}

// ---- the connection

// Whether the bytes wanted were written, and fill the buffer.
fn is_put(put: Result<usize, Refusal>, out: &[u8], wanted: &[u8]) -> bool {
    put == Ok(wanted.len()) && out == wanted
}

// The codec of the connection that was opened last, and the buffers that are lent: the last for any bytes that are written.
#[derive(Drop)]
struct Connection {
    codec: PacketCodec,
    staging: Vec<u8>,
    packet: Vec<u8>,
    out: Vec<u8>,
}

impl Connection {
    // Before the first connection the codec is a closed one: no line has the limit 0.
    fn none(alloc: Global) -> Result<Self, AllocError> {
        Ok(Connection {
            codec: codec::opening(0).unwrap_or_else(|shut| shut.state),
            staging: vec![in alloc; 0; 4096]?,
            packet: vec![in alloc; 0; 2048]?,
            out: vec![in alloc; 0; 4096]?,
        })
    }

    fn opens(&mut self, limit: usize) -> bool {
        let opened = codec::opening(limit);
        let right = opened.is_ok();
        self.codec = opened.unwrap_or_else(|shut| shut.state);
        right
    }

    // Whether the number, the frame number and the unread bytes are those of the three fields from j on. A refused read ends its
    // connection, and what is unread then is not compared.
    fn is_left(&self, line: Line<'_>, j: usize) -> bool
        requires { j < 6 }
    {
        self.codec.number == line.byte(j)
            && self.codec.frame == line.byte(j + 1)
            && (self.codec.closed || part(&self.staging, 0, self.codec.unread) == line.field(j + 2))
    }

    // A line that changes the codec, and neither reads nor writes.
    fn becomes(&mut self, codec: PacketCodec, line: Line<'_>) -> bool {
        self.codec = codec;
        self.is_left(line, 0)
    }

    // Whether the bytes wanted are written into a buffer as long as they are.
    fn writes<W: FnOnce(&mut [u8]) -> Result<usize, Refusal>>(
        &mut self,
        wanted: &[u8],
        write: W,
    ) -> bool
        requires { W.IsAlwaysCallable write }
    {
        match self.out.as_mut_slice().get_mut(..wanted.len()) {
            Some(out) => is_put(write(out), out, wanted),
            None => false,
        }
    }

    fn sends(&mut self, line: Line<'_>) -> bool {
        let wanted = line.field(2);
        let Some(out) = self.out.as_mut_slice().get_mut(..wanted.len()) else {
            return false;
        };
        let sent = codec::encode(self.codec, line.field(0), out);
        self.codec = sent.next;
        line.is_said(1, sent.put, |n| is_put(Ok(n), out, wanted)) && self.is_left(line, 3)
    }

    // Lends what the limit asks for.
    fn receives(&mut self, line: Line<'_>) -> bool {
        let limit = self.codec.limit;
        let Some(packet) = self.packet.as_mut_slice().get_mut(..limit) else {
            return false;
        };
        let Some(staging) = self
            .staging
            .as_mut_slice()
            .get_mut(..limit.saturating_mul(2).saturating_add(4))
        else {
            return false;
        };
        let read = codec::decode(self.codec, line.field(0), staging, packet);
        self.codec = read.next;
        line.is_read(read, packet) && self.is_left(line, 4)
    }

    // Whether a line is answered as it should be.
    fn replays(&mut self, line: Line<'_>) -> bool {
        match line.operation() {
            0x01 => line.is_int(),
            0x02 => line.is_str(),
            0x03 => line.is_binary(),
            0x04 => line.is_text(),
            0x05 => {
                let n = line.long(0);
                self.writes(line.field(1), |out| wire::put_lenenc_int(out, 0, n))
            }
            0x06 => {
                let payload = line.field(1);
                let value = value_of(line.byte(0), payload);
                self.writes(
                    line.field(2),
                    |out| value::serialize(out, 0, payload, value),
                )
            }
            0x07 => {
                let text = line.field(0);
                let plain = line.byte(1) != 0;
                self.writes(line.field(2), |out| escape::escaped(out, 0, text, plain))
            }
            0x10 => self.opens(line.word(0)),
            0x11 => self.becomes(codec::frames_on(self.codec), line),
            0x12 => self.becomes(codec::reset_seq_id(self.codec), line),
            0x13 => self.becomes(codec::sync_seq_id(self.codec), line),
            0x14 => self.sends(line),
            0x15 => self.receives(line),
            _ => false,
        }
    }
}

// A line that can't be written is passed over: what is counted does not depend on it.
fn main(rt: HostRuntime) -> io::Result<()> {
    let list = read_front(File::open(&rt, "answers")?, LIST, rt.alloc())?;
    let n = word_at(&list, 0) as usize;
    let _ = println!(rt; "lines {n}");
    for (operation, what) in OPERATIONS {
        let lines = (0..n)
            .filter(|&k| Line::of(&list, k).operation() == operation)
            .count();
        let _ = println!(rt; "  {what} {lines}");
    }
    let mut connection = Connection::none(rt.alloc())?;
    let mut differences = 0usize;
    for k in 0..n {
        if !connection.replays(Line::of(&list, k)) {
            if differences == 0 {
                let _ = println!(rt; "first difference: line {}", k + 1);
            }
            differences = differences.saturating_add(1);
        }
    }
    let _ = println!(rt; "differences {differences}");
    Ok(())
}
