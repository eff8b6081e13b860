// Demand 3 of docs/STATEMENTS.md at work: sixteen thousand lines that lose, repeat and move chunks, each against what the paper says. A
// line is made out of its number alone, by a small generator: the packets, the number to start with, what arrives and how it is cut.
// Every packet is one chunk here. Anything that differs is printed; the counts are reckoned apart in host/data/lines.py, whose generator
// is this one.
#![tactic(auto)]

ghost use Rattle.std.specs.Prelude.{◌<◌};

use chunk::PlainPacketCodec;
use refusal::Refusal;
use std::alloc::{AllocError, Global};
use std::io;
use std::num::Saturating;
use wire::part;

const SEED: usize = 1;

const LINES: usize = 16_000;

// No chunk is longer: it has a header of 4 bytes and a packet of at most 60.
const CHUNK_ROOM: usize = 64;

// ---- the generator

const MODULUS: usize = 2_147_483_647;

fn mixed(x: usize) -> usize
    ensures { result < 2147483647 }
{
    let y = x % MODULUS;
    (y % 65_536 * 32_768 + y / 65_536) % MODULUS * 48_271 % MODULUS
}

// Numbers below the modulus, each out of a seed, a case, what it is for and a count.
#[derive(Clone, Copy)]
struct Draws {
    seed: usize,
    case: usize,
}

impl Draws {
    fn draw(self, what: usize, n: usize) -> usize
        ensures { result < 2147483647 }
    {
        let x = self.case % MODULUS * 48_271
            + what % MODULUS * 104_729
            + n % MODULUS * 69_621
            + self.seed % MODULUS;
        mixed(mixed(x))
    }

    fn byte(self, what: usize, n: usize) -> u8 {
        (self.draw(what, n) % 256) as u8
    }
}

// ---- a line

#[derive(Clone, Copy)]
struct Line<'a> {
    draws: Draws,
    // The bytes of all packets.
    pool: &'a [u8],
    // How many packets are written.
    packets: usize,
    // How many chunks come in their places.
    in_place: usize,
}

impl<'a> Line<'a> {
    // Every sixteenth line is a long one, of up to 300 packets, so that a number comes again. In half of those few chunks come in their
    // places, so that one from far behind can come next.
    fn new(pool: &'a [u8], case: usize) -> Line<'a> {
        let draws = Draws { seed: SEED, case };
        let packets = match case % 16 {
            0 => 200 + draws.draw(1, 0) % 101,
            _ => 1 + draws.draw(1, 0) % 24,
        };
        let in_place = match case % 32 {
            0 => draws.draw(6, 0) % 40,
            _ => draws.draw(6, 0) % (packets + 1),
        };
        Line {
            draws,
            pool,
            packets,
            in_place,
        }
    }

    // The number that both ends start with.
    fn number(&self) -> u8 {
        self.draws.byte(2, 0)
    }

    // The reader's limit: no packet is longer.
    fn limit(&self) -> usize {
        60 + self.draws.draw(3, 0) % 5
    }

    fn packet(&self, j: usize) -> &[u8] {
        let place = self.draws.draw(5, j) % 960;
        part(self.pool, place, self.draws.draw(4, j) % 61)
    }

    // Any of the packets: there is always one.
    fn any(&self, what: usize, n: usize) -> usize {
        self.draws.draw(what, n) % self.packets.max(1)
    }

    // The chunk that comes out of its place, behind those that come in theirs: the next one itself, the one behind it or before it, one
    // that has nearly its number, or any. None where that is the next one, was not written, or is 256 places off or more.
    fn misplaced(&self) -> Option<usize> {
        let next = self.in_place;
        let chunk = match self.draws.draw(7, 0) % 6 {
            0 => next,
            1 => next.saturating_add(1),
            2 => next.saturating_sub(1),
            3 => next.saturating_add(255),
            4 => next.checked_sub(255).unwrap_or(next),
            _ => self.any(8, 0),
        };
        let off = chunk != next && chunk < self.packets && chunk.abs_diff(next) < 256;
        off.then_some(chunk)
    }

    // How long piece k is: pieces are up to 1 to 100 bytes long, and may be empty.
    fn piece_len(&self, k: usize) -> usize {
        self.draws.draw(12, k) % (2 + self.draws.draw(11, 0) % 100)
    }

    // All packets, each as one chunk. The writer's limit is its own.
    fn write(&self, alloc: Global) -> Result<Written, AllocError> {
        let mut codec = idle(1000, self.number());
        let mut chunks = Vec::with_capacity(alloc, self.packets)?;
        for j in 0..self.packets {
            let mut room = [0u8; CHUNK_ROOM];
            let sent = chunk::packet_to_chunks(&mut room, codec, self.packet(j));
            let len = sent.put.unwrap_or(0);
            codec = sent.next;
            chunks.push(Chunk { room, len })?;
        }
        Ok(Written { codec, chunks })
    }

    // The chunks that come in their places, a misplaced one, and behind it some more, whatever they are.
    fn arrive(&self, alloc: Global, written: &Written) -> Result<Arrived, AllocError> {
        let mut bytes = Vec::new(alloc);
        for j in 0..self.in_place {
            bytes.extend_from_slice(written.chunk(j))?;
        }
        let Some(misplaced) = self.misplaced() else {
            return Ok(Arrived { bytes, due: None });
        };
        bytes.extend_from_slice(written.chunk(misplaced))?;
        let due = Some(bytes.len());
        for n in 0..self.draws.draw(9, 0) % 8 {
            let j = self.any(10, self.in_place.saturating_add(1 + n));
            bytes.extend_from_slice(written.chunk(j))?;
        }
        Ok(Arrived { bytes, due })
    }
}

// A codec that has read and written nothing.
fn idle(limit: usize, number: u8) -> PlainPacketCodec {
    let codec = chunk::opening(limit).unwrap_or_else(|shut| shut.state);
    PlainPacketCodec { number, ..codec }
}

// A chunk, at the front of its room.
#[derive(Clone, Copy)]
struct Chunk {
    room: [u8; CHUNK_ROOM],
    len: usize,
}

impl Chunk {
    fn bytes(&self) -> &[u8] {
        part(&self.room, 0, self.len)
    }
}

// The writer behind its last packet, and what it made of each; nothing where it refused one.
#[derive(Drop)]
struct Written {
    codec: PlainPacketCodec,
    chunks: Vec<Chunk>,
}

impl Written {
    fn chunk(&self, j: usize) -> &[u8] {
        match self.chunks.get(j) {
            Some(chunk) => chunk.bytes(),
            None => &[],
        }
    }

    // Whether each chunk is as long as its packet and a header.
    fn is_right(&self, line: &Line<'_>) -> bool {
        let mut chunks = self.chunks.iter().enumerate();
        chunks.all(|(j, chunk)| chunk.bytes().len() == line.packet(j).len() + 4)
    }
}

// What comes to the reader's end, and how many bytes of it end with the misplaced chunk, where there is one.
#[derive(Drop)]
struct Arrived {
    bytes: Vec<u8>,
    due: Option<usize>,
}

// ---- the host

// The bytes before `at` are used; `right` while all is as it should be.
#[derive(Drop)]
struct Host<'a> {
    line: Line<'a>,
    codec: PlainPacketCodec,
    buffer: [u8; CHUNK_ROOM],
    at: usize,
    handed: usize,
    refusals: usize,
    right: bool,
}

impl<'a> Host<'a> {
    fn new(line: Line<'a>) -> Host<'a> {
        Host {
            line,
            codec: idle(line.limit(), line.number()),
            buffer: [0; CHUNK_ROOM],
            at: 0,
            handed: 0,
            refusals: 0,
            right: true,
        }
    }

    // One call, on the unread bytes. Answers whether it handed out a packet: there may be more then.
    fn call(&mut self, unread: &[u8]) -> bool {
        let got = chunk::decode(&mut self.buffer, self.codec, unread);
        self.codec = got.next;
        self.at = self.at.saturating_add(got.used);
        match got.answer {
            Ok(None) => false,
            Ok(Some(n)) => {
                self.hand(n);
                true
            }
            Err(why) => {
                self.refuse(why);
                false
            }
        }
    }

    // A packet is the next one that was written, and comes before any refusal.
    fn hand(&mut self, n: usize) {
        let same = part(&self.buffer, 0, n) == self.line.packet(self.handed);
        self.right &= same && self.refusals == 0;
        self.handed = self.handed.saturating_add(1);
    }

    // The first refusal says that the chunk is out of sync, each later one that the codec is closed.
    fn refuse(&mut self, why: Refusal) {
        let expected = match self.refusals {
            0 => Refusal::OutOfSync,
            _ => Refusal::Closed,
        };
        self.right &= why == expected;
        self.refusals = self.refusals.saturating_add(1);
    }

    // Calls on the bytes that have come, until there is no packet left; so many there never are.
    fn drain(&mut self, come: &[u8]) {
        for _ in 0..400 {
            if !self.call(come.get(self.at..).unwrap_or_default()) {
                return;
            }
        }
    }

    // All pieces, and one that is empty at the end; so many there never are. A misplaced chunk is refused when it is complete, not before
    // and not later.
    fn serve(&mut self, arrived: &Arrived) {
        let size = arrived.bytes.len();
        let mut got = 0;
        for k in 0..60_000 {
            let ended = got == size;
            got = size.min(got.saturating_add(self.line.piece_len(k)));
            self.drain(part(&arrived.bytes, 0, got));
            let is_due = arrived.due.is_some_and(|due| due <= got);
            self.right &= is_due == (0 < self.refusals);
            if ended {
                return;
            }
        }
    }

    // Exactly the packets before the misplaced chunk; or all that came, every byte used, and a number that is behind the writer's by the
    // chunks missing at the end.
    fn is_right(&self, written: &Written, arrived: &Arrived) -> bool {
        if !written.is_right(&self.line) || !self.right || self.handed != self.line.in_place {
            return false;
        }
        if arrived.due.is_some() {
            return 0 < self.refusals;
        }
        let missing = self.line.packets.saturating_sub(self.line.in_place);
        let behind = written.codec.number.wrapping_sub(self.codec.number);
        self.at == arrived.bytes.len() && usize::from(behind) == missing % 256
    }
}

// ---- what all lines come to

#[derive(Default, Drop)]
struct Counts {
    written: Saturating<usize>,
    handed: Saturating<usize>,
    misplaced: Saturating<usize>,
    refusals: Saturating<usize>,
    differences: Saturating<usize>,
}

impl Counts {
    // A line that can't be written is passed over: what is counted does not depend on it.
    fn add_line(&mut self, rt: &(impl Print + AllocGlobal), line: Line<'_>) -> io::Result<()> {
        let written = line.write(rt.alloc())?;
        let arrived = line.arrive(rt.alloc(), &written)?;
        let mut host = Host::new(line);
        host.serve(&arrived);
        self.written += line.packets;
        self.handed += host.handed;
        self.misplaced += usize::from(arrived.due.is_some());
        self.refusals += host.refusals;
        if host.is_right(&written, &arrived) {
            return Ok(());
        }
        self.differences += 1;
        let _ = println!(rt; "differs: line {}", line.draws.case);
        Ok(())
    }
}

fn main(rt: HostRuntime) -> io::Result<()> {
    let draws = Draws {
        seed: SEED,
        case: 0,
    };
    let pool: Vec<u8> = (0..1024).map(|i| draws.byte(13, i)).collect(rt.alloc())?;
    let mut counts = Counts::default();
    for case in 0..LINES {
        counts.add_line(&rt, Line::new(&pool, case))?;
    }
    let _ = println!(rt; "lines {LINES}");
    let _ = println!(rt; "packets written {}", counts.written);
    let _ = println!(rt; "packets handed out {}", counts.handed);
    let _ = println!(rt; "lines with a chunk out of its place {}", counts.misplaced);
    let _ = println!(rt; "refusals {}", counts.refusals);
    let _ = println!(rt; "differences {}", counts.differences);
    Ok(())
}
