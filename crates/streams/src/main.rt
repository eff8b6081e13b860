// The straight-through reader at work, beside the waiting one. First four thousand short streams, cut at random: packets that are
// empty or too large, chunks that were lost, come again or have any number, an end that is cut off. A stream is made out of its number
// alone, by a small generator. After each piece the packets that were marked, their parts joined, must be those that the waiting
// reader handed out, and a refusal the same once that has the whole chunk. Then packets that are longer than a buffer of 4 KiB, made
// up on the fly: nothing of them is held.
#![tactic(auto)]

ghost use Rattle.std.specs.Prelude.{◌≤◌, ◌<◌};

use chunk::{MAX_LIMIT, MAX_PAYLOAD_LEN, PlainPacketCodec};
use refusal::Refusal;
use std::alloc::{AllocError, Global};
use std::num::Saturating;
use std::{io, mem};
use stream::Stream;
use wire::part;

const SEED: usize = 1_920_717;

const STREAMS: usize = 4_000;

// No chunk of a short stream is longer: it has a header of 4 bytes and a packet of at most 80.
const CHUNK_ROOM: usize = 96;

// Long packets come in pieces of so many bytes.
const PIECE: usize = 4096;

// ---- the generator

const MODULUS: usize = 2_147_483_647;

fn mixed(x: usize) -> usize
    ensures { result < 2147483647 }
{
    let y = x % MODULUS;
    (y % 65_536 * 32_768 + y / 65_536) % MODULUS * 48_271 % MODULUS
}

// Numbers below the modulus, each out of a seed, a case, what it is for and a count.
#[derive(Clone, Copy)]
struct Draws {
    seed: usize,
    case: usize,
}

impl Draws {
    fn draw(self, what: usize, n: usize) -> usize
        ensures { result < 2147483647 }
    {
        let x = self.case % MODULUS * 48_271
            + what % MODULUS * 104_729
            + n % MODULUS * 69_621
            + self.seed % MODULUS;
        mixed(mixed(x))
    }

    fn byte(self, what: usize, n: usize) -> u8 {
        (self.draw(what, n) % 256) as u8
    }
}

// ---- a short stream

#[derive(Clone, Copy)]
struct Short<'a> {
    draws: Draws,
    // The bytes of all packets.
    pool: &'a [u8],
}

impl<'a> Short<'a> {
    fn new(pool: &'a [u8], case: usize) -> Short<'a> {
        Short {
            draws: Draws { seed: SEED, case },
            pool,
        }
    }

    fn packets(&self) -> usize {
        1 + self.draws.draw(1, 0) % 24
    }

    // The number that both readers start with.
    fn number(&self) -> u8 {
        self.draws.byte(2, 0)
    }

    // The limit of both readers.
    fn limit(&self) -> usize {
        60 + self.draws.draw(3, 0) % 5
    }

    // Most packets are within the limit; some are empty, and some too large.
    fn packet(&self, j: usize) -> &[u8] {
        let len = match self.draws.draw(4, j) % 64 {
            0 => 61 + self.draws.draw(5, j) % 20,
            1 | 2 => 0,
            _ => self.draws.draw(5, j) % 61,
        };
        part(self.pool, self.draws.draw(8, j) % 900, len)
    }

    // Most have the right number; else one was lost before the chunk, it comes again, or it has any number.
    fn number_of_chunk(&self, j: usize) -> u8 {
        let off = match self.draws.draw(6, j) % 96 {
            0 => 1,
            1 => 255,
            2 => self.draws.byte(7, j),
            _ => 0,
        };
        let right = self.number().wrapping_add((j % 256) as u8);
        right.wrapping_add(off)
    }

    // What arrives: each packet as one chunk. Every fourth stream is cut off near its end.
    fn bytes(&self, alloc: Global) -> Result<Vec<u8>, AllocError> {
        let mut bytes = Vec::new(alloc);
        for j in 0..self.packets() {
            let mut room = [0u8; CHUNK_ROOM];
            let writer = idle(1000, self.number_of_chunk(j));
            let sent = chunk::packet_to_chunks(&mut room, writer, self.packet(j));
            bytes.extend_from_slice(part(&room, 0, sent.put.unwrap_or(0)))?;
        }
        if self.draws.case % 4 == 0 {
            bytes.truncate(bytes.len() - bytes.len() / 8);
        }
        Ok(bytes)
    }

    // How long piece k is: pieces are up to 1 to 100 bytes long, and may be empty.
    fn piece_len(&self, k: usize) -> usize {
        self.draws.draw(10, k) % (2 + self.draws.draw(9, 0) % 100)
    }
}

// A codec that has read and written nothing.
fn idle(limit: usize, number: u8) -> PlainPacketCodec {
    let codec = chunk::opening(limit).unwrap_or_else(|shut| shut.state);
    PlainPacketCodec { number, ..codec }
}

// ---- what a reader has shown

// A packet, or what has come of it: a checksum of its bytes, and how many they are.
#[derive(Clone, Copy, Default, PartialEq, Eq)]
struct Packet {
    sum: u32,
    len: usize,
}

impl Packet {
    // One more byte in the checksum. The length is counted apart, for all bytes of a part at once.
    fn sum_up(&mut self, byte: u8) {
        let sum = self.sum as usize * 257 + usize::from(byte) + 1;
        self.sum = (sum % MODULUS) as u32;
    }

    fn add_all(&mut self, bytes: &[u8]) {
        for b in bytes {
            self.sum_up(*b);
        }
        self.len = self.len.saturating_add(bytes.len());
    }
}

// The bytes before `at` are used. `digest` is of all packets so far; something is `amiss` once a refusal behind the first one says anything
// else than that the reader is closed.
#[derive(Clone, Copy, Default)]
struct Shown {
    at: usize,
    packets: Saturating<usize>,
    last: Packet,
    digest: usize,
    refusal: Option<Refusal>,
    amiss: bool,
}

impl Shown {
    fn hand(&mut self, packet: Packet) {
        self.packets += 1;
        self.last = packet;
        let digest = self.digest % MODULUS * 257 + packet.sum as usize * 7;
        self.digest = mixed(digest.saturating_add(packet.len));
    }

    fn refuse(&mut self, why: Refusal) {
        match self.refusal {
            None => self.refusal = Some(why),
            Some(_) => self.amiss |= why != Refusal::Closed,
        }
    }

    // A call's answer: what it handed out.
    fn answer<T>(&mut self, used: usize, answer: Result<Option<T>, Refusal>) -> Option<T> {
        self.at = self.at.saturating_add(used);
        match answer {
            Ok(out) => out,
            Err(why) => {
                self.refuse(why);
                None
            }
        }
    }
}

trait Reader {
    // How many of the bytes that have come are used.
    fn at(&self) -> usize;

    // One call, on the unread bytes. Answers whether something was handed out: there may be more then.
    fn call(&mut self, unread: &[u8]) -> bool;
}

// Calls on the bytes that have come, until nothing more is handed out; so many there never are.
fn drain<R: Reader>(reader: &mut R, come: &[u8]) {
    for _ in 0..10_000 {
        let at = reader.at();
        if !reader.call(come.get(at..).unwrap_or_default()) {
            return;
        }
    }
}

// The straight-through reader, with what has come of the packet that has not ended.
#[derive(Drop)]
struct Straight {
    stream: Stream,
    shown: Shown,
    packet: Packet,
    parts: Saturating<usize>,
    calls: Saturating<usize>,
}

impl Straight {
    fn new(limit: usize, number: u8) -> Straight {
        let stream = stream::opening(limit).unwrap_or_else(|shut| shut.state);
        Straight {
            stream: stream::renumber(stream, number),
            shown: Shown::default(),
            packet: Packet::default(),
            parts: Saturating(0),
            calls: Saturating(0),
        }
    }
}

impl Reader for Straight {
    fn at(&self) -> usize {
        self.shown.at
    }

    fn call(&mut self, unread: &[u8]) -> bool {
        let got = stream::pass(self.stream, unread);
        self.stream = got.next;
        self.calls += 1;
        let Some(piece) = self.shown.answer(got.used, got.answer) else {
            return false;
        };
        self.parts += 1;
        self.packet.add_all(part(unread, piece.at, piece.len));
        if piece.ends {
            self.shown.hand(mem::take(&mut self.packet));
        }
        true
    }
}

// The waiting reader, whose buffer is as long as its limit.
#[derive(Drop)]
struct Waiting {
    codec: PlainPacketCodec,
    buffer: Vec<u8>,
    shown: Shown,
}

impl Waiting {
    fn new(alloc: Global, limit: usize, number: u8) -> Result<Waiting, AllocError> {
        Ok(Waiting {
            codec: idle(limit, number),
            buffer: vec![in alloc; 0; limit]?,
            shown: Shown::default(),
        })
    }
}

impl Reader for Waiting {
    fn at(&self) -> usize {
        self.shown.at
    }

    fn call(&mut self, unread: &[u8]) -> bool {
        let got = chunk::decode(&mut self.buffer, self.codec, unread);
        self.codec = got.next;
        let Some(len) = self.shown.answer(got.used, got.answer) else {
            return false;
        };
        let mut packet = Packet::default();
        packet.add_all(part(&self.buffer, 0, len));
        self.shown.hand(packet);
        true
    }
}

// ---- side by side

enum Verdict {
    Same,
    // The straight-through reader has refused sooner, as out of sync, a chunk that the waiting one has the header of and not yet the
    // whole.
    Sooner,
    Differs,
}

// Whether the bytes begin with a header, and the chunk is not whole.
fn is_begun(unread: &[u8]) -> bool {
    let Some(payload) = unread.get(4..) else {
        return false;
    };
    wire::checked_eat_u24_le(unread, 0).is_ok_and(|n| (payload.len() as u64) < n.value)
}

#[derive(Drop)]
struct Pair {
    straight: Straight,
    waiting: Waiting,
    pieces: Saturating<usize>,
    sooner: bool,
    right: bool,
}

impl Pair {
    fn new(alloc: Global, short: &Short<'_>) -> Result<Pair, AllocError> {
        Ok(Pair {
            straight: Straight::new(short.limit(), short.number()),
            waiting: Waiting::new(alloc, short.limit(), short.number())?,
            pieces: Saturating(0),
            sooner: false,
            right: true,
        })
    }

    // Both have seen the same bytes.
    fn compare(&self, come: &[u8]) -> Verdict {
        let a = self.straight.shown;
        let b = self.waiting.shown;
        if a.packets != b.packets || a.digest != b.digest || a.amiss || b.amiss {
            return Verdict::Differs;
        }
        if a.refusal == b.refusal {
            return Verdict::Same;
        }
        let unread = come.get(b.at..).unwrap_or_default();
        if a.refusal == Some(Refusal::OutOfSync) && b.refusal.is_none() && is_begun(unread) {
            return Verdict::Sooner;
        }
        Verdict::Differs
    }

    fn take(&mut self, come: &[u8]) {
        drain(&mut self.straight, come);
        drain(&mut self.waiting, come);
        self.pieces += 1;
        match self.compare(come) {
            Verdict::Same => (),
            Verdict::Sooner => self.sooner = true,
            Verdict::Differs => self.right = false,
        }
    }

    // All pieces, and one that is empty at the end. So many there never are: that would differ.
    fn serve(&mut self, short: &Short<'_>, bytes: &[u8]) {
        let mut got = 0;
        for k in 0..10_000 {
            let ended = got == bytes.len();
            got = bytes.len().min(got.saturating_add(short.piece_len(k)));
            self.take(part(bytes, 0, got));
            if ended {
                return;
            }
        }
        self.right = false;
    }
}

// ---- what all short streams come to

#[derive(Default, Drop)]
struct Counts {
    written: Saturating<usize>,
    pieces: Saturating<usize>,
    calls: Saturating<usize>,
    parts: Saturating<usize>,
    packets: Saturating<usize>,
    // Streams refused as too large, with 2, and as out of sync, with 3.
    large: Saturating<usize>,
    wrong: Saturating<usize>,
    sooner: Saturating<usize>,
    differences: Saturating<usize>,
}

impl Counts {
    // A line that can't be written is passed over: what is counted does not depend on it.
    fn add_stream(&mut self, rt: &(impl Print + AllocGlobal), short: &Short<'_>) -> io::Result<()> {
        let bytes = short.bytes(rt.alloc())?;
        let mut pair = Pair::new(rt.alloc(), short)?;
        pair.serve(short, &bytes);
        let straight = &pair.straight;
        let refusal = straight.shown.refusal;
        let large = refusal == Some(Refusal::TooLarge);
        let wrong = refusal == Some(Refusal::OutOfSync);
        self.written += short.packets();
        self.pieces += pair.pieces;
        self.calls += straight.calls;
        self.parts += straight.parts;
        self.packets += straight.shown.packets;
        self.large += usize::from(large);
        self.wrong += usize::from(wrong);
        self.sooner += usize::from(pair.sooner);
        if pair.right {
            return Ok(());
        }
        self.differences += 1;
        let _ = println!(rt; "differs: stream {}", short.draws.case);
        Ok(())
    }
}

fn run_short(rt: &(impl Print + AllocGlobal)) -> io::Result<()> {
    let draws = Draws {
        seed: SEED,
        case: 0,
    };
    let pool: Vec<u8> = (0..1024).map(|i| draws.byte(11, i)).collect(rt.alloc())?;
    let mut counts = Counts::default();
    for case in 0..STREAMS {
        counts.add_stream(rt, &Short::new(&pool, case))?;
    }
    let _ = println!(rt; "seed {SEED}");
    let _ = println!(rt; "streams {STREAMS}");
    let _ = println!(rt; "packets written {}", counts.written);
    let _ = println!(rt; "pieces {}", counts.pieces);
    let _ = println!(rt; "calls {}", counts.calls);
    let _ = println!(rt; "parts {}", counts.parts);
    let _ = println!(rt; "packets marked {}", counts.packets);
    let _ = println!(rt; "refused with 2 {}", counts.large);
    let _ = println!(rt; "refused with 3 {}", counts.wrong);
    let _ = println!(rt;
        "  of these sooner than the waiting reader {}",
        counts.sooner
    );
    let _ = println!(rt; "differences {}", counts.differences);
    Ok(())
}

// ---- long packets

// A packet of `len` bytes.
#[derive(Clone, Copy)]
struct Long {
    len: u32,
}

impl Long {
    // The last chunk is shorter than a full one, and may be empty.
    fn chunks(self) -> usize
        ensures { result ≤ 257 }
    {
        self.len as usize / MAX_PAYLOAD_LEN + 1
    }

    // How many bytes all chunks have.
    fn size(self) -> usize {
        self.len as usize + 4 * self.chunks()
    }

    // Byte i of the packet.
    fn byte(i: usize) -> u8 {
        ((i % 251 + i / 65_536) % 256) as u8
    }

    // Byte p of the chunks: of a header, three bytes of length and the number, or of the packet.
    fn stream_byte(self, p: usize) -> u8 {
        let chunk = p / (MAX_PAYLOAD_LEN + 4);
        let i = p % (MAX_PAYLOAD_LEN + 4);
        if 4 <= i {
            return Long::byte(chunk * MAX_PAYLOAD_LEN + i - 4);
        }
        let len = if chunk + 1 < self.chunks() {
            MAX_PAYLOAD_LEN
        } else {
            self.len as usize % MAX_PAYLOAD_LEN
        };
        let header = (chunk % 256 * 0x100_0000 + len) as u32;
        header.to_le_bytes()[i]
    }

    // The checksum and the length of the packet, by itself.
    fn packet(self) -> Packet {
        let len = self.len as usize;
        let mut packet = Packet { sum: 0, len };
        for i in 0..len {
            packet.sum_up(Long::byte(i));
        }
        packet
    }

    // The chunks, straight through, piece by piece.
    fn pass(self, alloc: Global) -> Result<Straight, AllocError> {
        let mut straight = Straight::new(MAX_LIMIT, 0);
        for p in (0..self.size()).step_by(PIECE) {
            let end = self.size().min(p.saturating_add(PIECE));
            let piece: Vec<u8> = (p..end).map(|p| self.stream_byte(p)).collect(alloc)?;
            straight.shown.at = 0;
            drain(&mut straight, &piece);
        }
        Ok(straight)
    }

    fn run(self, rt: &(impl Print + AllocGlobal)) -> io::Result<()> {
        let straight = self.pass(rt.alloc())?;
        let last = straight.shown.last;
        let _ = println!(rt; "a packet of {}", self.len);
        let _ = println!(rt; "  chunks {}", self.chunks());
        let _ = println!(rt; "  packets marked {}", straight.shown.packets);
        let _ = println!(rt; "  length {}", last.len);
        let _ = println!(rt; "  parts {}", straight.parts);
        let _ = println!(rt; "  checksum {}", last.sum);
        let _ = println!(rt; "  differences {}", usize::from(last != self.packet()));
        Ok(())
    }
}

fn main(rt: HostRuntime) -> io::Result<()> {
    run_short(&rt)?;
    // "chunks of M, M and the rest"; and one that ends with an empty chunk
    Long { len: 41_943_040 }.run(&rt)?;
    Long { len: 33_554_430 }.run(&rt)
}
