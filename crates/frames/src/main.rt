// One codec at work, with frames off and on. First a fixed list of operations, each against the answer, the bytes used, the lent
// buffers and the whole state that a codec written from the paper gives (host/data/frames.py, which also says how the file is laid
// out). Then a million frames with nothing in them, read in one call.
#![tactic(auto)]

use files::{byte_at, long_at, part_at, read_front, row_at, tail, word_at};
use frame::PacketCodec;
use refusal::{Refusal, number_of};
use std::fs::File;
use std::io;
use std::rt::Files;
use wire::part;

// How many bytes of the list are read: what a longer file has behind them is not.
const LIST: u64 = 786_432;

// How many operations a file may hold.
const MOST: usize = 10_000;

// The kinds of operations, each at its number.
const KINDS: [&str; 6] = [
    "  opening",
    "  frames_on",
    "  reset_seq_id",
    "  sync_seq_id",
    "  encode",
    "  decode",
];

// The answers that are no success, each at its number. Only frames bring 4 and 5.
const ANSWERS: [&str; 8] = [
    "need more",
    "refused: 1 bad limit",
    "  2 too large",
    "  3 out of sync",
    "  4 bad frame header",
    "  5 packed",
    "  6 no room",
    "  7 closed",
];

// An answer's byte in the file where it is neither need more, 0, nor a refusal, its number.
const DONE: u8 = 0xFF;

fn open_codec(limit: usize) -> PacketCodec {
    codec::opening(limit).unwrap_or_else(|shut| shut.state)
}

// ---- an operation

// An operation: its numbers stand in the row, and the bytes that it points at in the list.
#[derive(Clone, Copy)]
struct Operation<'a> {
    list: &'a [u8],
    row: &'a [u8],
}

// An answer's byte in the list, and the length answered.
fn listed(answer: Result<Option<usize>, Refusal>) -> (u8, u64) {
    match answer {
        Ok(None) => (0, 0),
        Ok(Some(n)) => (DONE, n as u64),
        Err(why) => (number_of(why), 0),
    }
}

impl<'a> Operation<'a> {
    fn of(list: &'a [u8], k: usize) -> Self {
        let row = row_at(list, 8, 72, k);
        Operation { list, row }
    }

    fn byte(self, at: usize) -> u8 {
        byte_at(self.row, at)
    }

    fn word(self, at: usize) -> usize {
        word_at(self.row, at) as usize
    }

    fn long(self, at: usize) -> usize {
        long_at(self.row, at) as usize
    }

    fn part(self, at: usize, len: usize) -> &'a [u8] {
        part_at(self.list, self.row, at, len)
    }

    // What a lent buffer holds before.
    fn filler(self) -> &'a [u8] {
        part(self.list, word_at(self.list, 4) as usize, self.word(16))
    }

    // The state after.
    fn state(self) -> PacketCodec {
        PacketCodec {
            limit: self.long(40),
            taken: self.word(48),
            len: self.word(52),
            unread: self.word(56),
            size: self.word(60),
            number: self.byte(64),
            waiting: self.byte(65) == 1,
            ahead: self.byte(66),
            closed: self.byte(67) == 1,
            frame: self.byte(68),
            held: self.byte(69) == 1,
            coming: self.byte(70),
            framed: self.byte(71) == 1,
        }
    }

    fn is_said(self, answer: Result<Option<usize>, Refusal>) -> bool {
        listed(answer) == (self.byte(1), u64::from(word_at(self.row, 28)))
    }

    // The codec after the operation, and whether it answered as it should.
    fn answered(
        self,
        codec: PacketCodec,
        staging: &mut [u8],
        buf: &mut [u8],
    ) -> (PacketCodec, bool) {
        match self.byte(0) {
            0 => match codec::opening(self.long(32)) {
                Ok(codec) => (codec, self.is_said(Ok(Some(0)))),
                Err(shut) => (shut.state, self.is_said(Err(shut.why))),
            },
            1 => (codec::frames_on(codec), true),
            2 => (codec::reset_seq_id(codec), true),
            3 => (codec::sync_seq_id(codec), true),
            4 => {
                let sent = codec::encode(codec, self.part(4, 8), buf);
                (sent.next, self.is_said(sent.put.map(Some)))
            }
            5 => {
                let got = codec::decode(codec, self.part(4, 8), staging, buf);
                (
                    got.next,
                    got.used == self.long(32) && self.is_said(got.answer),
                )
            }
            _ => (codec, false),
        }
    }

    // Runs the operation on buffers of its own lengths, out of the larger ones: whether the answer, the state, the lent buffer in its
    // whole length and the unread bytes of staging are as they should be.
    fn is_right(self, codec: &mut PacketCodec, staging: &mut [u8], space: &mut [u8]) -> bool {
        let Some(lent) = staging.get_mut(..self.word(12)) else {
            return false;
        };
        let Some(buf) = space.get_mut(..self.word(16)) else {
            return false;
        };
        let _ = wire::put_slice(buf, 0, self.filler());
        let (next, answered) = self.answered(*codec, lent, buf);
        *codec = next;
        answered
            && next == self.state()
            && &*buf == self.part(20, 16)
            && part(staging, 0, self.word(56)) == self.part(24, 56)
    }
}

// ---- the list

// How many of a list's operations have each number at a place, by its name. A line that can't be written is passed over: what is counted
// does not depend on it.
fn say_counts(rt: &impl Print, list: &[u8], n: usize, at: usize, names: &[&str]) {
    for (number, name) in names.iter().enumerate() {
        let count = (0..n)
            .filter(|&k| usize::from(Operation::of(list, k).byte(at)) == number)
            .count();
        let _ = println!(rt; "{name} {count}");
    }
}

fn run_operations(rt: &(impl Files + AllocGlobal + Print)) -> io::Result<()> {
    let list = read_front(File::open(rt, "vectors")?, LIST, rt.alloc())?;
    let n = word_at(&list, 0) as usize;
    let _ = println!(rt; "operations {n}");
    if MOST < n {
        let _ = println!(rt; "too many");
        return Ok(());
    }
    say_counts(rt, &list, n, 0, &KINDS);
    say_counts(rt, &list, n, 1, &ANSWERS);
    let mut staging = [0u8; 1024];
    let mut space = [0u8; 1024];
    let mut codec = open_codec(0);
    let mut differences = 0usize;
    for k in 0..n {
        if !Operation::of(&list, k).is_right(&mut codec, &mut staging, &mut space) {
            let _ = println!(rt; "differs: operation {k}");
            differences = differences.saturating_add(1);
        }
    }
    let _ = println!(rt; "{differences} differ");
    Ok(())
}

// ---- a million frames with nothing in them

fn run_empty_frames(rt: &(impl AllocGlobal + Print)) -> io::Result<()> {
    let mut bytes = Vec::with_capacity(rt.alloc(), 7_000_000)?;
    // A header of seven bytes has two lengths, and the frame's number between them.
    for k in 0..1_000_000u32 {
        bytes.extend_from_slice(&[0, 0, 0, (k % 256) as u8, 0, 0, 0])?;
    }
    let mut staging = [0u8; 4];
    let mut space = [0u8; 4];
    let codec = codec::frames_on(open_codec(9));
    let got = codec::decode(codec, &bytes, &mut staging, &mut space);
    let _ = match got.answer {
        Ok(None) => println!(rt; "empty frames in one call, bytes used {}", got.used),
        Ok(Some(n)) => println!(rt; "empty frames: a packet of {n}"),
        Err(why) => println!(rt; "empty frames: refused {}", number_of(why)),
    };
    let _ = println!(rt; "the frame number then {}", got.next.frame);
    Ok(())
}

fn main(rt: HostRuntime) -> io::Result<()> {
    run_operations(&rt)?;
    run_empty_frames(&rt)
}
