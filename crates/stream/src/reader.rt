// What `pass` is made of: a header, from kept bytes and lent ones, and the payload behind it.
ghost use Rattle.std.specs.Prelude.{◌≡◌, ◌+◌, ◌<◌, ◌≤◌, ◌++◌, length, slice_index};
ghost use Rattle.refusal.specs.Number.{number};
ghost use Rattle.wire.specs.Le.{le_at};
ghost use Rattle.chunk.specs.Chunks.{largest};
ghost use Rattle.stream.specs.Stream.{closed, kept, keeping, begun, ended, done_of, refuse, payload, numbered, headed, header};

use crate::{Piece, Stream};
use chunk::inner::exceeds;
use chunk::{Decoded, MAX_PAYLOAD_LEN};
use refusal::Refusal;
use wire::inner::le;

pub(crate) fn close(mut st: Stream) -> Stream
    ensures { result ≡ closed st }
{
    st.closed = true;
    st
}

pub(crate) fn refuse(why: Refusal, st: Stream) -> Decoded<Piece, Stream>
    ensures { done_of result ≡ refuse (number why) st }
{
    Decoded {
        answer: Err(why),
        used: 0,
        next: st,
    }
}

// Behind the header of a chunk.
#[tactic(auto, unfolding(chunk::specs::Chunks::next))]
fn begin(st: Stream, len: usize, num: u8) -> Stream
    requires { st.taken + len < 0x1_0000_0000_0000_0000 }
    ensures { result ≡ begun largest st len num }
{
    Stream {
        taken: st.taken + len,
        left: len,
        got: 0,
        first: 0,
        second: 0,
        third: 0,
        number: num.wrapping_add(1),
        full: len == MAX_PAYLOAD_LEN,
        ..st
    }
}

// At the end of a chunk. Behind a full one the packet goes on.
fn end(st: Stream) -> Stream
    ensures { result ≡ ended st }
{
    Stream {
        taken: if st.full { st.taken } else { 0 },
        left: 0,
        full: false,
        ..st
    }
}

// Payload of which n bytes are lent from a place on: none of them is looked at.
#[tactic(auto, unfolding(crate::specs::Stream::payload))]
pub(crate) fn payload(st: Stream, at: usize, n: usize) -> Decoded<Piece, Stream>
    requires { at + n < 0x8000_0000_0000_0000 }
    ensures { done_of result ≡ payload st at n }
{
    if n < st.left {
        return Decoded {
            answer: Ok(Some(Piece {
                at,
                len: n,
                ends: false,
            })),
            used: at + n,
            next: Stream {
                left: st.left - n,
                ..st
            },
        };
    }
    Decoded {
        answer: Ok(Some(Piece {
            at,
            len: st.left,
            ends: !st.full,
        })),
        used: at + st.left,
        next: end(st),
    }
}

#[tactic(auto, unfolding(crate::specs::Stream::numbered))]
fn numbered(st: Stream, len: usize, num: u8, at: usize, n: usize) -> Decoded<Piece, Stream>
    requires { (st.taken + len < 0x1_0000_0000_0000_0000) × (at + n < 0x8000_0000_0000_0000) }
    ensures { done_of result ≡ numbered largest st len num at n }
{
    if num != st.number {
        return refuse(Refusal::OutOfSync, close(st));
    }
    payload(begin(st, len, num), at, n)
}

// A header that is complete: its length, then its number.
#[tactic(auto, unfolding(crate::specs::Stream::headed))]
fn headed(st: Stream, len: usize, num: u8, at: usize, n: usize) -> Decoded<Piece, Stream>
    requires { at + n < 0x8000_0000_0000_0000 }
    ensures { done_of result ≡ headed largest st len num at n }
{
    if len != 0 && exceeds(st.taken, len, st.limit) {
        return refuse(Refusal::TooLarge, close(st));
    }
    numbered(st, len, num, at, n)
}

// How many bytes of a header are kept: three at the most, whatever a state says.
fn kept_len(st: Stream) -> usize
    ensures { result ≡ length (kept st) }
{
    (st.got as usize).min(3)
}

// Byte i of a header: a kept one, or a lent one behind them; 0 where it has not come.
fn byte(st: Stream, src: &[u8], i: usize) -> u8
    ensures { result ≡ slice_index (kept st ++ src.now) i }
{
    let got = kept_len(st);
    if i < got {
        return [st.first, st.second, st.third][i];
    }
    src.get(i - got).copied().unwrap_or(0)
}

// All that is there of a header, kept for the next call.
fn keep(st: Stream, src: &[u8]) -> Stream
    requires { length (kept st) + length src.now < 4 }
    ensures { result ≡ keeping st (kept st ++ src.now) }
{
    Stream {
        got: (kept_len(st) + src.len()) as u8,
        first: byte(st, src, 0),
        second: byte(st, src, 1),
        third: byte(st, src, 2),
        ..st
    }
}

// The length in a header. Most come whole, and are read at once.
#[tactic(auto, using(crate::proofs::Header::three_bytes))]
fn header_len(st: Stream, src: &[u8]) -> usize
    requires { 4 ≤ length (kept st) + length src.now }
    ensures { result ≡ le_at (kept st ++ src.now) 0 3 }
{
    if kept_len(st) == 0 {
        return le(src, 0, 3) as usize;
    }
    let length = [byte(st, src, 0), byte(st, src, 1), byte(st, src, 2)];
    le(&length, 0, 3) as usize
}

// Between two chunks.
#[tactic(auto, unfolding(crate::specs::Stream::header))]
pub(crate) fn header(st: Stream, src: &[u8]) -> Decoded<Piece, Stream>
    ensures { done_of result ≡ header largest st src.now (kept st ++ src.now) }
{
    let at = 4 - kept_len(st);
    if src.len() < at {
        return Decoded {
            answer: Ok(None),
            used: src.len(),
            next: keep(st, src),
        };
    }
    let num = src[at - 1];
    headed(st, header_len(st, src), num, at, src.len() - at)
}
