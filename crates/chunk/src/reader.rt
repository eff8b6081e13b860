// What `decode_with` is made of: one chunk, by the five steps of "Plain chunks".
ghost use Rattle.std.specs.Prelude.{◌≡◌, ◌+◌, ◌<◌, ◌≤◌, false, length, if◌then◌else◌, slice_index};
ghost use Rattle.wire.specs.Le.{le_at};
ghost use Rattle.chunk.specs.Chunks.{largest};
ghost use Rattle.chunk.specs.Read.{closed, holding, past, accepted, turned_of, took, chunk_at, headed, turn_of};

use crate::inner::exceeds;
use crate::{Decoded, MAX_PAYLOAD_LEN, PlainPacketCodec, Turn};
use refusal::Refusal;
use wire::inner::{copy, le};

pub(crate) fn close(mut st: PlainPacketCodec) -> PlainPacketCodec
    ensures { result ≡ closed st }
{
    st.closed = true;
    st
}

fn hold(st: PlainPacketCodec, len: usize, number: u8) -> PlainPacketCodec
    ensures { result ≡ holding st len number }
{
    PlainPacketCodec {
        len,
        waiting: true,
        ahead: number,
        ..st
    }
}

#[tactic(auto, unfolding(crate::specs::Chunks::next))]
fn pass(st: PlainPacketCodec, number: u8, taken: usize) -> PlainPacketCodec
    ensures { result ≡ past st number taken }
{
    PlainPacketCodec {
        taken,
        len: 0,
        number: number.wrapping_add(1),
        waiting: false,
        ahead: 0,
        ..st
    }
}

// Nothing is taken; most refusals close the state.
fn stop(answer: Result<Option<usize>, Refusal>, st: PlainPacketCodec, closes: bool) -> Turn
    ensures { result ≡ record { more = false; decoded = record { answer = answer; used = 0; next = (if closes then closed st else st) } } }
{
    let next = if closes { close(st) } else { st };
    Turn {
        more: false,
        decoded: Decoded {
            answer,
            used: 0,
            next,
        },
    }
}

fn accepts(x: Option<u8>, want: u8, number: u8) -> bool
    ensures { result ≡ accepted x want number }
{
    number == want || x == Some(number)
}

// A whole chunk that fits: its bytes go behind those that the packet has so far.
#[tactic(auto, using(crate::proofs::Reading::took_put, crate::specs::ReadLaws::took_more_lem, crate::specs::ReadLaws::took_last_lem))]
fn take_chunk(dst: &mut [u8], st: PlainPacketCodec, len: usize, number: u8, src: &[u8]) -> Turn
    requires { (len + 4 ≤ length src.now) × (st.taken + len ≤ length dst.old) }
    ensures { turned_of result dst.new ≡ took largest st len number src.now dst.old }
{
    let used = len + 4;
    copy(dst, st.taken, &src[4..used]);
    let taken = st.taken + len;
    if len == MAX_PAYLOAD_LEN {
        return Turn {
            more: true,
            decoded: Decoded {
                answer: Ok(None),
                used,
                next: pass(st, number, taken),
            },
        };
    }
    Turn {
        more: false,
        decoded: Decoded {
            answer: Ok(Some(taken)),
            used,
            next: pass(st, number, 0),
        },
    }
}

// Steps 4 and 5: a chunk whose header says len and number.
fn chunk(
    dst: &mut [u8],
    x: Option<u8>,
    st: PlainPacketCodec,
    len: usize,
    number: u8,
    src: &[u8],
) -> Turn
    ensures { turned_of result dst.new ≡ chunk_at largest x st len number src.now dst.old }
{
    if exceeds(4, len, src.len()) {
        return stop(Ok(None), st, false);
    }
    if !accepts(x, st.number, number) {
        return stop(Err(Refusal::OutOfSync), st, true);
    }
    if exceeds(st.taken, len, dst.len()) {
        return stop(Err(Refusal::NoRoom), st, false);
    }
    take_chunk(dst, st, len, number, src)
}

// Steps 2 and 3: a chunk whose header is there and not remembered.
fn headed_chunk(dst: &mut [u8], x: Option<u8>, st: PlainPacketCodec, src: &[u8]) -> Turn
    requires { 4 ≤ length src.now }
    ensures { turned_of result dst.new ≡ headed largest x st (le_at src.now 0 3) (slice_index src.now 3) src.now dst.old }
{
    let len = le(src, 0, 3) as usize;
    let number = src[3];
    if len == 0 {
        return chunk(dst, x, st, 0, number, src);
    }
    if exceeds(st.taken, len, st.limit) {
        return stop(Err(Refusal::TooLarge), st, true);
    }
    chunk(dst, x, hold(st, len, number), len, number, src)
}

// At most one chunk.
pub(crate) fn turn(dst: &mut [u8], x: Option<u8>, st: PlainPacketCodec, src: &[u8]) -> Turn
    ensures { turned_of result dst.new ≡ turn_of largest x st src.now dst.old }
{
    if st.waiting {
        return chunk(dst, x, st, st.len, st.ahead, src);
    }
    if src.len() < 4 {
        return stop(Ok(None), st, false);
    }
    headed_chunk(dst, x, st, src)
}
