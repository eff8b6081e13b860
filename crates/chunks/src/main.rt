// The plain codec at work. First a fixed list of calls around every limit, each against the answer, the bytes used, the state
// and the buffer that a codec written from the paper gives (host/data/chunks.py, which also says how the file is laid out).
// Then 300 packets from one end to another, over the wrap from 255 to 0. Then real connections, as captured: each command is
// written and must be the bytes that the client sent, and each answer of the server is read to its end, by one codec.
#![tactic(auto)]

use chunk::{Decoded, Encoded, PlainPacketCodec};
use files::{byte_at, long_at, part_at, read_front, row_at, tail, word_at};
use refusal::{Refusal, number_of};
use std::alloc::{AllocError, Global};
use std::fs::File;
use std::io;
use std::rt::Files;
use wire::part;

// The limit that the captured connections are read with.
const LIMIT: usize = 61_440;

// How many bytes of the list and of a capture are read: what a longer file has behind them is not.
const LIST: u64 = 262_144;

const CAPTURE: u64 = 65_536;

// How many cases are tried and how many exchanges are replayed, at most.
const CASES: usize = 2500;

const EXCHANGES: usize = 4000;

const PACKETS: usize = 300;

const CAPTURES: [&str; 7] = [
    "binary-rows",
    "ok-err-eof",
    "ok-err-eof-tracked",
    "parameters",
    "seq-wrap",
    "session-track",
    "text-rows",
];

// ---- the list of calls

// A case: its numbers stand in the row, and the bytes that it points at in the list.
#[derive(Clone, Copy)]
struct Case<'a> {
    list: &'a [u8],
    row: &'a [u8],
}

// An answer as the list has it: 0 need more, 1 and a length, 2 and a refusal's number.
fn listed(answer: Result<Option<usize>, Refusal>) -> (u32, u64) {
    match answer {
        Ok(None) => (0, 0),
        Ok(Some(n)) => (1, n as u64),
        Err(why) => (2, u64::from(number_of(why))),
    }
}

fn state_of(bytes: &[u8]) -> PlainPacketCodec {
    PlainPacketCodec {
        limit: long_at(bytes, 0) as usize,
        taken: long_at(bytes, 8) as usize,
        len: long_at(bytes, 16) as usize,
        number: byte_at(bytes, 24),
        waiting: byte_at(bytes, 25) == 1,
        ahead: byte_at(bytes, 26),
        closed: byte_at(bytes, 27) == 1,
    }
}

impl<'a> Case<'a> {
    // The bytes that are read, or the packet that is written.
    fn bytes(self) -> &'a [u8] {
        part_at(self.list, self.row, 8, 12)
    }

    fn buffer_before(self) -> &'a [u8] {
        part_at(self.list, self.row, 16, 20)
    }

    fn buffer_after(self) -> &'a [u8] {
        part_at(self.list, self.row, 24, 20)
    }

    fn state_before(self) -> PlainPacketCodec {
        state_of(tail(self.row, 48))
    }

    fn state_after(self) -> PlainPacketCodec {
        state_of(tail(self.row, 76))
    }

    fn is_said(self, answer: Result<Option<usize>, Refusal>) -> bool {
        listed(answer) == (word_at(self.row, 28), long_at(self.row, 32))
    }

    fn is_left(self, next: PlainPacketCodec, buf: &[u8]) -> bool {
        next == self.state_after() && buf == self.buffer_after()
    }

    fn is_read(self, read: Decoded<usize, PlainPacketCodec>, buf: &[u8]) -> bool {
        self.is_said(read.answer)
            && read.used as u64 == long_at(self.row, 40)
            && self.is_left(read.next, buf)
    }

    fn is_written(self, written: Encoded<PlainPacketCodec>, buf: &[u8]) -> bool {
        self.is_said(written.put.map(Some)) && self.is_left(written.next, buf)
    }

    // An opening answers no length, and lends no buffer.
    fn is_opened(self, limit: usize) -> bool {
        match chunk::opening(limit) {
            Ok(codec) => self.is_said(Ok(Some(0))) && self.is_left(codec, b""),
            Err(shut) => self.is_said(Err(shut.why)) && self.is_left(shut.state, b""),
        }
    }

    // Whether the case is answered as it should be, on a buffer of its own length out of the larger one.
    fn is_right(self, space: &mut [u8]) -> bool {
        let Some(buf) = space.get_mut(..word_at(self.row, 20) as usize) else {
            return false;
        };
        let _ = wire::put_slice(buf, 0, self.buffer_before());
        let codec = self.state_before();
        let bytes = self.bytes();
        match word_at(self.row, 0) {
            0 => self.is_read(chunk::decode(buf, codec, bytes), buf),
            1 => {
                let also = Some(byte_at(self.row, 4));
                self.is_read(chunk::decode_with(buf, also, codec, bytes), buf)
            }
            2 => self.is_written(chunk::packet_to_chunks(buf, codec, bytes), buf),
            3 => self.is_opened(codec.limit),
            4 => self.is_left(chunk::reset_seq_id(codec), b""),
            _ => false,
        }
    }
}

// A line that can't be written is passed over: what is counted does not depend on it.
fn run_cases(rt: &(impl Files + AllocGlobal + Print)) -> io::Result<()> {
    let list = read_front(File::open(rt, "vectors")?, LIST, rt.alloc())?;
    let n = word_at(&list, 0) as usize;
    let _ = println!(rt; "cases {n}");
    let mut space = [0u8; 4096];
    let mut differences = 0usize;
    for k in 0..n.min(CASES) {
        let case = Case {
            list: &list,
            row: row_at(&list, 4, 104, k),
        };
        if !case.is_right(&mut space) {
            let _ = println!(rt; "differs: case {k}");
            differences = differences.saturating_add(1);
        }
    }
    let _ = println!(rt; "  differences {differences}");
    Ok(())
}

// ---- two ends

fn open_codec(limit: usize) -> PlainPacketCodec {
    chunk::opening(limit).unwrap_or_else(|shut| shut.state)
}

// One packet from an end to the other, both in the same state before and behind it: that state then, if it came through.
fn pass_on(codec: PlainPacketCodec, packet: &[u8]) -> Option<PlainPacketCodec> {
    let mut out = [0u8; 16];
    let mut back = [0u8; 16];
    let sent = chunk::packet_to_chunks(&mut out, codec, packet);
    let bytes = part(&out, 0, sent.put.ok()?);
    let got = chunk::decode(&mut back, codec, bytes);
    let read = part(&back, 0, got.answer.ok()??);
    (read == packet && got.used == bytes.len() && got.next == sent.next).then_some(sent.next)
}

// Packets of 0 to 9 bytes; how many came through.
fn pass_all(rt: &impl Print, first: PlainPacketCodec) -> usize {
    let mut codec = first;
    for k in 0..PACKETS {
        match pass_on(codec, &b"0123456789"[..k % 10]) {
            Some(next) => codec = next,
            None => return k,
        }
    }
    let _ = println!(rt; "the number then {}", codec.number);
    PACKETS
}

fn run_ends(rt: &impl Print) {
    let passed = pass_all(rt, open_codec(9));
    let _ = println!(rt; "packets over the wrap {passed}");
}

// ---- captured connections

// A connection's codec, the buffers that it is lent, and how many packets the server has sent.
#[derive(Drop)]
struct Connection {
    codec: PlainPacketCodec,
    out: Vec<u8>,
    packet: Vec<u8>,
    packets: usize,
}

impl Connection {
    fn open(alloc: Global) -> Result<Self, AllocError> {
        Ok(Connection {
            codec: open_codec(LIMIT),
            out: vec![in alloc; 0; 65536]?,
            packet: vec![in alloc; 0; LIMIT]?,
            packets: 0,
        })
    }

    fn is_idle(&self) -> bool {
        !self.codec.closed && !self.codec.waiting && self.codec.taken == 0
    }

    // Whether a command is written as the client sent it, out of its payload.
    fn sends(&mut self, command: &[u8]) -> bool {
        let sent = chunk::packet_to_chunks(&mut self.out, self.codec, tail(command, 4));
        self.codec = sent.next;
        sent.put.is_ok_and(|n| part(&self.out, 0, n) == command)
    }

    // At most so many packets, and what is left of the bytes behind them. Each must be the bytes behind its header: none here has
    // more than one chunk. Where the bytes end before, nothing of a packet may be left over.
    fn receives<'a>(&mut self, bytes: &'a [u8], most: usize) -> Option<&'a [u8]> {
        let mut rest = bytes;
        for _ in 0..most {
            let got = chunk::decode(&mut self.packet, self.codec, rest);
            self.codec = got.next;
            match got.answer {
                Ok(Some(n)) if part(&self.packet, 0, n) == part(rest, 4, n) => {
                    rest = rest.get(got.used..)?;
                    self.packets = self.packets.saturating_add(1);
                }
                Ok(None) if self.is_idle() && rest.is_empty() => break,
                _ => return None,
            }
        }
        Some(rest)
    }

    // A command and its answer, before which the server may send packets unasked: at the login, its greeting.
    fn exchanges(&mut self, command: &[u8], answer: &[u8], greetings: usize) -> bool {
        self.codec = chunk::reset_seq_id(self.codec);
        let Some(rest) = self.receives(answer, greetings) else {
            return false;
        };
        let sent = self.sends(command);
        self.receives(rest, 60_000).is_some() && sent
    }

    // How many of a capture's first n exchanges go as captured, up to one that does not.
    fn replays(&mut self, file: &[u8], n: usize) -> usize {
        let differs = (0..n).position(|k| {
            let row = row_at(file, 4, 16, k);
            let command = part_at(file, row, 0, 4);
            let answer = part_at(file, row, 8, 12);
            !self.exchanges(command, answer, usize::from(k == 0))
        });
        differs.unwrap_or(n)
    }
}

fn run_capture(rt: &(impl Files + AllocGlobal + Print), name: &str) -> io::Result<()> {
    let file = read_front(File::open(rt, name)?, CAPTURE, rt.alloc())?;
    let n = word_at(&file, 0) as usize;
    let within = n.min(EXCHANGES);
    let mut connection = Connection::open(rt.alloc())?;
    let done = connection.replays(&file, within);
    if done < within {
        let _ = println!(rt; "differs: exchange {done}");
    }
    let _ = println!(rt; "{name}: exchanges {done}");
    let _ = println!(rt; "  packets of the server {}", connection.packets);
    // At the limit the replay stops, whether more is to come or not.
    if done < n || done == EXCHANGES {
        let _ = println!(rt; "  not as captured");
    }
    Ok(())
}

fn main(rt: HostRuntime) -> io::Result<()> {
    run_cases(&rt)?;
    run_ends(&rt);
    for name in CAPTURES {
        run_capture(&rt, name)?;
    }
    Ok(())
}
