// Real connections in stored frames, as captured, by one codec each: each command is written and must be the bytes that the
// client sent, and each packet of an answer is read and must be the one that an independent decoder lists, by length and
// checksum. The login is plain, then frames are on; numbers start at 0 with each command and are never synchronised. Each capture
// is received twice: in pieces of 64 KiB, and in pieces of 1 to 23 bytes. host/data/stored.py says how a file is laid out.
//
// A capture with packed frames comes last: the first of them must be refused with 5, after the packets before it.
#![tactic(auto)]

use files::{part_at, read_front, row_at, tail, word_at};
use frame::PacketCodec;
use refusal::{Refusal, number_of};
use std::alloc::{AllocError, Global};
use std::fs::File;
use std::io;
use std::rt::Files;
use wire::part;

// The box's limit; staging has twice as many bytes and four more.
const LIMIT: usize = 61_440;

const STAGING: usize = 122_884;

// The largest prime below 2^32.
const PRIME: u64 = 4_294_967_291;

// How many bytes of a capture are read: what a longer file has behind them is not.
const CAPTURE: u64 = 65_536;

// How many turns are replayed, and how many calls an answer takes, at most.
const TURNS: usize = 4000;

const CALLS: usize = 60_000;

const CAPTURES: [&str; 9] = [
    "deprecate-eof-ok-err-eof",
    "deprecate-eof-rows",
    "deprecate-eof-seq-wrap",
    "deprecate-eof-session-track",
    "eof-ok-err-eof",
    "eof-rows",
    "eof-seq-wrap",
    "eof-session-track",
    "packed-rows",
];

// The bytes as digits to the base 257.
fn checksum(bytes: &[u8]) -> u32 {
    bytes.iter().fold(0, |sum: u32, &byte| {
        ((u64::from(sum) * 257 + u64::from(byte)) % PRIME) as u32
    })
}

// How an answer is received.
#[derive(Clone, Copy)]
enum Pieces {
    // Of 64 KiB.
    Large,
    // Of 1 to 23 bytes.
    Small,
}

impl Pieces {
    // How long the piece is that comes behind so many bytes.
    fn next(self, have: usize) -> usize {
        match self {
            Pieces::Large => 65_536,
            Pieces::Small => have % 23 + 1,
        }
    }
}

// Why a replay ends before its capture does.
#[derive(Clone, Copy)]
enum Stop {
    // The codec refuses something of an answer.
    Refused(Refusal),
    // A command is not written as the client sent it.
    Command,
    // A packet is not the one that is listed.
    Content,
    // An answer does not end where its bytes do, with its last packet.
    End,
}

// A connection's codec, the buffers that it is lent, how many packets and bytes the server has sent, and how many turns are over.
#[derive(Drop)]
struct Connection {
    codec: PacketCodec,
    staging: Vec<u8>,
    packet: Vec<u8>,
    out: Vec<u8>,
    packets: usize,
    bytes: usize,
    turns: usize,
}

impl Connection {
    fn open(alloc: Global) -> Result<Self, AllocError> {
        Ok(Connection {
            codec: codec::opening(LIMIT).unwrap_or_else(|shut| shut.state),
            staging: vec![in alloc; 0; STAGING]?,
            packet: vec![in alloc; 0; LIMIT]?,
            out: vec![in alloc; 0; 8192]?,
            packets: 0,
            bytes: 0,
            turns: 0,
        })
    }

    fn is_idle(&self) -> bool {
        let codec = self.codec;
        !codec.closed && !codec.waiting && !codec.held && codec.unread == 0 && codec.taken == 0
    }

    // 0: numbers from 0 on. 1: they go on, as behind the server's greeting. 2: frames on, and numbers from 0.
    fn begins(&mut self, kind: u32) {
        self.codec = match kind {
            1 => self.codec,
            2 => codec::reset_seq_id(codec::frames_on(self.codec)),
            _ => codec::reset_seq_id(self.codec),
        };
    }

    // The command's own bytes stand behind the headers: four bytes, and seven more in frames. The server's greeting has none.
    fn sends(&mut self, command: &[u8]) -> Result<(), Stop> {
        if command.is_empty() {
            return Ok(());
        }
        let head = if self.codec.framed { 11 } else { 4 };
        let sent = codec::encode(self.codec, tail(command, head), &mut self.out);
        self.codec = sent.next;
        match sent.put {
            Ok(n) if part(&self.out, 0, n) == command => Ok(()),
            _ => Err(Stop::Command),
        }
    }

    // Holds a packet of so many bytes to the one that is listed next.
    fn takes(&mut self, file: &[u8], n: usize) -> Result<(), Stop> {
        let listed = row_at(file, word_at(file, 4) as usize, 8, self.packets);
        let packet = part(&self.packet, 0, n);
        self.packets = self.packets.saturating_add(1);
        if packet.len() == word_at(listed, 0) as usize && checksum(packet) == word_at(listed, 4) {
            Ok(())
        } else {
            Err(Stop::Content)
        }
    }

    // All packets of an answer: how many of its bytes they take.
    fn receives(&mut self, file: &[u8], answer: &[u8], pieces: Pieces) -> Result<usize, Stop> {
        let mut at = 0usize;
        let mut have = 0usize;
        for _ in 0..CALLS {
            let unread = part(answer, at, have.saturating_sub(at));
            let got = codec::decode(self.codec, unread, &mut self.staging, &mut self.packet);
            self.codec = got.next;
            self.bytes = self.bytes.saturating_add(got.used);
            at = at.saturating_add(got.used);
            match got.answer {
                Ok(Some(n)) => self.takes(file, n)?,
                Ok(None) if have < answer.len() => {
                    have = have.saturating_add(pieces.next(have)).min(answer.len());
                }
                Ok(None) => break,
                Err(why) => return Err(Stop::Refused(why)),
            }
        }
        Ok(at)
    }

    // A command and its answer. The turn says how many packets the server has sent by its end.
    fn talks(&mut self, file: &[u8], turn: &[u8], pieces: Pieces) -> Result<(), Stop> {
        self.begins(word_at(turn, 0));
        self.sends(part_at(file, turn, 4, 8))?;
        let answer = part_at(file, turn, 12, 16);
        let used = self.receives(file, answer, pieces)?;
        let packets = word_at(turn, 20) as usize;
        if used != answer.len() || self.packets != packets || !self.is_idle() {
            return Err(Stop::End);
        }
        self.turns = self.turns.saturating_add(1);
        Ok(())
    }

    fn replays(&mut self, file: &[u8], pieces: Pieces) -> Result<(), Stop> {
        let n = word_at(file, 0) as usize;
        for k in 0..n.min(TURNS) {
            self.talks(file, row_at(file, 8, 24, k), pieces)?;
        }
        Ok(())
    }
}

// The greeting and the login are one exchange. A line that can't be written is passed over: what is counted does not depend on it.
fn run_pieces(
    rt: &(impl AllocGlobal + Print),
    name: &str,
    file: &[u8],
    pieces: Pieces,
) -> io::Result<()> {
    let mut connection = Connection::open(rt.alloc())?;
    let replayed = connection.replays(file, pieces);
    let exchanges = connection.turns.saturating_sub(1);
    let _ = print!(rt;
        "{name}: exchanges {exchanges}, packets {}, bytes {}, ",
        connection.packets, connection.bytes
    );
    let _ = match replayed {
        Ok(()) => println!(rt; "ok"),
        Err(Stop::Refused(why)) => println!(rt; "then refused with {}", number_of(why)),
        Err(Stop::Command) => println!(rt; "then a command differs"),
        Err(Stop::Content) => println!(rt; "of which the last differs"),
        Err(Stop::End) => println!(rt; "then an answer does not end"),
    };
    Ok(())
}

fn run_capture(rt: &(impl Files + AllocGlobal + Print), name: &str) -> io::Result<()> {
    let file = read_front(File::open(rt, name)?, CAPTURE, rt.alloc())?;
    run_pieces(rt, name, &file, Pieces::Large)?;
    run_pieces(rt, name, &file, Pieces::Small)
}

fn main(rt: HostRuntime) -> io::Result<()> {
    for name in CAPTURES {
        run_capture(&rt, name)?;
    }
    Ok(())
}
