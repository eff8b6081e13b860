// A night's load, as a real server sent it in stored frames, received 64 KiB at a time into the box's buffers and read by the
// codec, then by the rows, the values and the durations. The offsets of the column `t0` are queued as signed microseconds, and the
// head of the queue is printed: a train at minus one minute stands before all that are not negative.
//
// The load is read twice. Three of its 9,000 rows are longer than the box's limit of 61,440 bytes, the longest 65,757, so at that
// limit the codec must refuse the first of them with 2, after all rows before it. At a limit of 65 KiB every row comes.
//
// The server's bytes are received out of one file, never past the end of the answer that is awaited; the client's are those
// that the codec must write for each command. host/data/night.py makes the small index, says how it is laid out, and has the same
// numbers by itself.
#![tactic(auto)]

ghost use Rattle.std.specs.Prelude.{◌≤◌};

use duration::Time;
use files::{byte_at, half_at, read_front, tail, word_at};
use frame::PacketCodec;
use refusal::{Refusal, number_of};
use row::Side;
use std::alloc::{AllocError, Global};
use std::fs::File;
use std::io;
use std::io::Read;
use value::Value;
use wire::part;

// The box's limit.
const BOX: usize = 61_440;

// A limit that the longest row fits.
const WIDE: usize = 66_560;

// How much is received at a time, and how many times for one packet: no frame of these limits needs more than two pieces.
const PIECE: usize = 65_536;

const PIECES: usize = 4;

// Room for what is left of a frame and a piece behind it.
const ROOM: usize = 133_120;

// How many bytes of the index and of the client's are read: what a longer file has behind them is not.
const FRONT: u64 = 4096;

// How many exchanges are replayed, how many packets an answer has, how many columns are kept, and how many trains are queued, at most.
const EXCHANGES: usize = 64;

const PACKETS: usize = 20_000;

const COLUMNS: usize = 4096;

const TRAINS: usize = 9216;

// How many trains are printed.
const HEAD: usize = 20;

const MINUTE_BEFORE: i64 = -60_000_000;

// ---- the connection

// Why no further packet of an answer is read.
#[derive(Clone, Copy, PartialEq, Eq)]
enum Stop {
    // The codec needs more than is to come.
    Over,
    // As many packets were read as were asked for, or as many pieces received for one as may be.
    Enough,
    Refused(Refusal),
}

// A connection's codec and the buffers that it is lent. What was received is read up to `at`, and `left` bytes of the answer are
// still to come.
#[derive(Drop)]
struct Line {
    input: File,
    codec: PacketCodec,
    received: Vec<u8>,
    at: usize,
    left: usize,
    staging: Vec<u8>,
    packet: Vec<u8>,
    out: Vec<u8>,
}

impl Line {
    // The buffers are as long as the limit asks for: staging twice as long and four bytes more.
    fn open(alloc: Global, input: File, limit: usize) -> Result<Self, AllocError>
        requires { limit ≤ 66_560 }
    {
        Ok(Line {
            input,
            codec: codec::opening(limit).unwrap_or_else(|shut| shut.state),
            received: Vec::with_capacity(alloc, ROOM)?,
            at: 0,
            left: 0,
            staging: vec![in alloc; 0; 2 * limit + 4]?,
            packet: vec![in alloc; 0; limit]?,
            out: vec![in alloc; 0; 65_536]?,
        })
    }

    fn unread(&self) -> &[u8] {
        tail(&self.received, self.at)
    }

    fn is_idle(&self) -> bool {
        let codec = self.codec;
        !codec.closed && !codec.waiting && !codec.held && codec.unread == 0 && codec.taken == 0
    }

    // The next piece of the answer, behind the unread bytes. A read that fails is the input's end, as is one that gives nothing.
    fn receive(&mut self) {
        let read = self.at.min(self.received.len());
        self.received.drain(..read);
        self.at = 0;
        let unread = self.received.len();
        let most = self.left.min(PIECE);
        let _ = (&self.input)
            .take(most as u64)
            .read_to_end(&mut self.received);
        let got = self.received.len() - unread;
        self.left = if got == 0 {
            0
        } else {
            self.left.saturating_sub(got)
        };
    }

    // The length of the answer's next packet.
    fn next_packet(&mut self) -> Result<usize, Stop> {
        for _ in 0..PIECES {
            let unread = tail(&self.received, self.at);
            let got = codec::decode(self.codec, unread, &mut self.staging, &mut self.packet);
            self.codec = got.next;
            self.at = self.at.saturating_add(got.used);
            match got.answer {
                Ok(Some(n)) => return Ok(n),
                Ok(None) if self.left == 0 => return Err(Stop::Over),
                Ok(None) => self.receive(),
                Err(why) => return Err(Stop::Refused(why)),
            }
        }
        Err(Stop::Enough)
    }

    // Whether a payload is written as the command that the client sent.
    fn writes(&mut self, payload: &[u8], command: &[u8]) -> bool {
        let sent = codec::encode(self.codec, payload, &mut self.out);
        self.codec = sent.next;
        sent.put.is_ok_and(|n| part(&self.out, 0, n) == command)
    }
}

// ---- the table

// What the next packet of an answer is.
#[derive(Clone, Copy, PartialEq, Eq)]
enum Phase {
    // One that is only counted.
    Any,
    // The number of columns.
    Count,
    Column,
    // The end of the columns.
    Gap,
    Row,
}

// A train by its offset, and the row that it stands in, from 1 on.
#[derive(Clone, Copy)]
struct Train {
    offset: i64,
    row: usize,
}

// What came over the connection. `columns` is how many the table has, and `seen` how many of them came. Each that is kept has its type,
// 1 where it is unsigned, and its place in the last row; where a table writes none, that of the table before stands there. `clock` is the
// column of the offsets. The trains stand in the queue by their offsets, and `wrong` counts what is not as it should be.
#[derive(Drop)]
struct Table {
    phase: Phase,
    columns: usize,
    seen: usize,
    types: Vec<u8>,
    signs: Vec<u8>,
    starts: Vec<usize>,
    clock: usize,
    packets: usize,
    rows: usize,
    nulls: usize,
    values: usize,
    timeless: usize,
    queue: Vec<Train>,
    wrong: usize,
}

// The place behind so many strings from a place on; the packet's end where one is missing.
fn past(packet: &[u8], from: usize, strings: usize) -> usize {
    (0..strings).fold(from, |at, _| {
        match wire::checked_eat_lenenc_str(packet, at) {
            Ok(text) => text.at.saturating_add(text.len),
            Err(_) => packet.len(),
        }
    })
}

// Whether a string stands at a place.
fn has_string(packet: &[u8], at: usize, what: &[u8]) -> bool {
    wire::checked_eat_lenenc_str(packet, at).is_ok_and(|text| part(packet, text.at, text.len)
        == what)
}

// An end of columns or rows: 0xFE, with no room for an integer of eight bytes behind it.
fn is_end(packet: &[u8]) -> bool {
    packet.len() < 9 && packet.first() == Some(&0xFE)
}

impl Table {
    fn new(alloc: Global) -> Result<Self, AllocError> {
        Ok(Table {
            phase: Phase::Any,
            columns: 0,
            seen: 0,
            types: vec![in alloc; 0; COLUMNS]?,
            signs: vec![in alloc; 0; COLUMNS]?,
            starts: vec![in alloc; 0; COLUMNS]?,
            clock: 0,
            packets: 0,
            rows: 0,
            nulls: 0,
            values: 0,
            timeless: 0,
            queue: Vec::new(alloc),
            wrong: 0,
        })
    }

    // Counts what is not as it should be.
    fn expect(&mut self, right: bool) {
        if !right {
            self.wrong = self.wrong.saturating_add(1);
        }
    }

    fn take(&mut self, packet: &[u8]) -> Result<(), AllocError> {
        self.packets = self.packets.saturating_add(1);
        match self.phase {
            Phase::Any => {}
            Phase::Count => self.take_count(packet),
            Phase::Column => self.take_column(packet),
            Phase::Gap => {
                self.expect(is_end(packet));
                self.phase = Phase::Row;
            }
            Phase::Row if is_end(packet) => self.phase = Phase::Any,
            Phase::Row => self.take_row(packet)?,
        }
        Ok(())
    }

    // Until a column is found to be the one of the offsets, that is the place behind the last.
    fn take_count(&mut self, packet: &[u8]) {
        self.columns = wire::checked_eat_lenenc_int(packet, 0).map_or(0, |n| n.value as usize);
        self.seen = 0;
        self.clock = self.columns;
        self.phase = Phase::Column;
    }

    // A column's definition: catalog, schema, table, its own name, name, its own name; 12, character set, length, type, flags.
    fn take_column(&mut self, packet: &[u8]) {
        let name = past(packet, 0, 4);
        let fixed = past(packet, name, 2);
        self.expect(byte_at(packet, fixed) == 12);
        if has_string(packet, name, b"t0") {
            self.clock = self.seen;
        }
        let flags = half_at(packet, fixed.saturating_add(8));
        // There is no room for a column past those that are kept: it is only counted.
        let _ = wire::put_u8(
            &mut self.types,
            self.seen,
            byte_at(packet, fixed.saturating_add(7)),
        );
        let _ = wire::put_u8(&mut self.signs, self.seen, u8::from(flags & 0x20 != 0));
        self.seen = self.seen.saturating_add(1);
        if self.seen == self.columns {
            self.phase = Phase::Gap;
        }
    }

    // The value of column i, NULL by its bit; a column that isn't kept is NULL too.
    fn value_at(&self, row: &[u8], i: usize) -> Result<Value, Refusal> {
        let Some(&start) = self.starts.get(i) else {
            return Ok(Value::NULL);
        };
        if row::null_bit(tail(row, 1), Side::ServerSide, i).unwrap_or(false) {
            return Ok(Value::NULL);
        }
        let unsigned = byte_at(&self.signs, i) != 0;
        Ok(value::deserialize_bin(row, start, byte_at(&self.types, i), unsigned)?.value)
    }

    // Whether column i has a value that can be read.
    fn has_value(&self, row: &[u8], i: usize) -> bool {
        self.value_at(row, i)
            .is_ok_and(|value| !matches!(value, Value::NULL))
    }

    // Every value must be there, or be NULL, and the row's bytes must all be used. Its train is queued, unless its offset is NULL.
    fn take_row(&mut self, row: &[u8]) -> Result<(), AllocError> {
        self.rows = self.rows.saturating_add(1);
        // Of a table with more columns than are kept, none is read here.
        let types = part(&self.types, 0, self.columns);
        let signs = part(&self.signs, 0, self.columns);
        let read = row::read_row(row, types, signs, &mut self.starts);
        let values = (0..self.columns)
            .filter(|&i| self.has_value(row, i))
            .count();
        self.values = self.values.saturating_add(values);
        match read {
            Ok(columns) => {
                self.nulls = self.nulls.saturating_add(columns.nulls);
                self.expect(columns.used == row.len());
                self.expect(columns.nulls.saturating_add(values) == self.columns);
            }
            Err(_) => self.expect(false),
        }
        match self.value_at(row, self.clock) {
            Ok(Value::Time(time)) => self.enqueue(time)?,
            Ok(Value::NULL) => self.timeless = self.timeless.saturating_add(1),
            _ => self.expect(false),
        }
        Ok(())
    }

    // Puts a train behind those that leave no later.
    fn enqueue(&mut self, time: Time) -> Result<(), AllocError> {
        match duration::duration_of(time) {
            Ok(offset) if self.queue.len() < TRAINS => {
                let place = self.queue.partition_point(|train| train.offset <= offset);
                let row = self.rows;
                self.queue.insert(place, Train { offset, row })?;
            }
            _ => self.expect(false),
        }
        Ok(())
    }
}

// ---- the night

#[derive(Drop)]
struct Night {
    line: Line,
    table: Table,
    exchanges: usize,
}

impl Night {
    // At most so many packets of an answer.
    fn take_answer(&mut self, most: usize) -> Result<Stop, AllocError> {
        for _ in 0..most {
            match self.line.next_packet() {
                Ok(n) => self.table.take(part(&self.line.packet, 0, n))?,
                Err(stop) => return Ok(stop),
            }
        }
        Ok(Stop::Enough)
    }

    // Command k and its answer of so many bytes, and why a packet of it is refused. Numbers start at 0; behind the login frames are
    // on, and at the login the server speaks first. At its end nothing of an answer may be left over.
    fn exchange(
        &mut self,
        k: usize,
        command: &[u8],
        answer: usize,
    ) -> Result<Option<Refusal>, AllocError> {
        if k == 1 {
            self.line.codec = codec::frames_on(self.line.codec);
        }
        self.line.codec = codec::reset_seq_id(self.line.codec);
        self.line.left = answer;
        self.take_answer(usize::from(k == 0))?;
        self.send(command);
        let stop = self.take_answer(PACKETS)?;
        if let Stop::Refused(why) = stop {
            return Ok(Some(why));
        }
        self.exchanges = self.exchanges.saturating_add(1);
        let over = [
            stop == Stop::Over,
            self.line.left == 0,
            self.line.unread().is_empty(),
            self.line.is_idle(),
            self.table.phase == Phase::Any,
        ];
        for right in over {
            self.table.expect(right);
        }
        Ok(None)
    }

    // Writes a command out of its payload; it must be the bytes that the client sent. A framed one has eleven bytes in front. The
    // answer to an execution has rows.
    fn send(&mut self, command: &[u8]) {
        let head = if self.line.codec.framed { 11 } else { 4 };
        let payload = tail(command, head);
        self.table.expect(self.line.writes(payload, command));
        self.table.phase = if payload.first() == Some(&0x17) {
            Phase::Count
        } else {
            Phase::Any
        };
    }

    // All exchanges of the connection, as many as the index says, up to one that is refused. Where the index ends within that number,
    // the bytes that are missing are 0.
    fn load(&mut self, client: &[u8], index: &[u8]) -> Result<Option<Refusal>, AllocError> {
        let n = u32::from_le_bytes([0, 1, 2, 3].map(|i| byte_at(index, i))) as usize;
        for k in 0..n.min(EXCHANGES) {
            let row = tail(index, 4 + 12 * k);
            let command = part(client, word_at(row, 0) as usize, word_at(row, 4) as usize);
            let refused = self.exchange(k, command, word_at(row, 8) as usize)?;
            if refused.is_some() {
                return Ok(refused);
            }
        }
        Ok(None)
    }
}

// ---- what is printed

// A place in the queue, from 1 on; 0 for none.
fn place_of(found: Option<usize>) -> usize {
    found.map_or(0, |i| i.saturating_add(1))
}

// A line that can't be written is passed over: what is counted does not depend on it.
fn say_queue(rt: &impl Print, queue: &[Train]) {
    let offsets = || queue.iter().map(|train| train.offset);
    // The sizes of those from 0 on and of those below are summed apart, and each of the two sums wraps at 2^64.
    let (up, down) = offsets().fold((0u64, 0u64), |(up, down), offset| {
        let size = offset.unsigned_abs();
        if offset < 0 {
            (up, down.wrapping_add(size))
        } else {
            (up.wrapping_add(size), down)
        }
    });
    let sum = i128::from(up).saturating_sub(i128::from(down));
    let least = offsets().min().unwrap_or(0);
    let greatest = offsets().max().unwrap_or(0);
    let _ = println!(rt; "sum of the offsets {sum}");
    let _ = println!(rt; "least {least}");
    let _ = println!(rt; "greatest {greatest}");
    let negative = offsets().filter(|&offset| offset < 0).count();
    let minute = offsets().filter(|&offset| offset == MINUTE_BEFORE).count();
    let last = place_of(offsets().rposition(|offset| offset == MINUTE_BEFORE));
    let first = place_of(offsets().position(|offset| 0 <= offset));
    let disorder = offsets()
        .zip(offsets().skip(1))
        .filter(|(before, behind)| behind < before)
        .count();
    let _ = println!(rt; "trains with a negative offset {negative}");
    let _ = println!(rt; "trains at exactly {MINUTE_BEFORE} {minute}");
    let _ = println!(rt; "  place of the last of them {last}");
    let _ = println!(rt; "place of the first train that is not negative {first}");
    let _ = println!(rt; "trains out of order {disorder}");
}

fn say_night(rt: &impl Print, night: &Night, refused: Option<Refusal>) {
    let table = &night.table;
    let _ = println!(rt; "exchanges {}", night.exchanges);
    if let Some(why) = refused {
        let _ = println!(rt; "then refused with {}", number_of(why));
    }
    let _ = println!(rt; "packets of the server {}", table.packets);
    let _ = println!(rt; "rows {}", table.rows);
    let _ = println!(rt; "columns {}", table.columns);
    let _ = println!(rt; "values {}", table.values);
    let _ = println!(rt; "NULLs {}", table.nulls);
    let _ = println!(rt; "trains with an offset {}", table.queue.len());
    let _ = println!(rt; "trains whose offset is NULL {}", table.timeless);
    say_queue(rt, &table.queue);
    let _ = println!(rt; "things that are not as they should be {}", table.wrong);
    let _ = println!(rt; "head of the queue");
    for train in table.queue.iter().take(HEAD) {
        let _ = println!(rt; "{}\trow {}", train.offset, train.row);
    }
}

// Reads the load at a limit.
fn run_night(rt: &HostRuntime, limit: usize) -> io::Result<()>
    requires { limit ≤ 66_560 }
{
    let input = File::open(rt, "stored-eof-binary-rows.full.s2c.bin")?;
    let client = read_front(
        File::open(rt, "stored-eof-binary-rows.full.c2s.bin")?,
        FRONT,
        rt.alloc(),
    )?;
    let index = read_front(File::open(rt, "index")?, FRONT, rt.alloc())?;
    let mut night = Night {
        line: Line::open(rt.alloc(), input, limit)?,
        table: Table::new(rt.alloc())?,
        exchanges: 0,
    };
    let refused = night.load(&client, &index)?;
    let _ = println!(rt; "limit {limit}");
    say_night(rt, &night, refused);
    Ok(())
}

fn main(rt: HostRuntime) -> io::Result<()> {
    run_night(&rt, BOX)?;
    run_night(&rt, WIDE)
}
