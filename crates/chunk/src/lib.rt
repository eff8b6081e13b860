// Plain packet framing: a packet to numbered chunks, and chunks back to packets, from `packet_to_chunks`, `ChunkDecoder` and
// `PlainPacketCodec` of mysql_common's proto/codec/mod.rs, their names kept.
//
// The codec's state goes in by value and comes back; bytes are lent. Open one with `opening`. `decode` takes whole chunks from
// the front of the unread bytes and copies their payloads into the packet buffer, until a packet is whole, more bytes are
// needed or a chunk is refused; the caller then drops the bytes used, and lends the same buffer until the packet is whole.
// `packet_to_chunks` writes a packet's chunks to the front of a lent buffer. One number serves both ways.
#![tactic(auto)]

ghost use Rattle.std.specs.Prelude.{◌≡◌, None};
ghost use Rattle.chunk.specs.Chunks.{largest};
ghost use Rattle.chunk.specs.Read.{opening, opened_said, done_of, read, renumbered};
ghost use Rattle.chunk.specs.Write.{write, sent_of};

use inner::{chunks_len, put_chunks};
use reader::{close, turn};
use refusal::Refusal;
use writer::unsent;

pub mod inner;
mod reader;
mod writer;

// The largest payload of a chunk, M.
pub const MAX_PAYLOAD_LEN: usize = 16_777_215;

// The largest limit that an opening takes.
pub const MAX_LIMIT: usize = 1_073_741_824;

// The state of one end. The four small fields stand together, so that it is copied without padding, and `waiting` and `ahead`
// apart, so that they are not read as one number right after they were written as two. With `waiting`, the header of a chunk of
// `len` bytes with the number `ahead` is remembered, and its chunk not taken yet; `taken` counts the bytes of the current packet.
#[derive(Clone, Copy, PartialEq, Eq)]
pub struct PlainPacketCodec {
    pub limit: usize,
    pub taken: usize,
    pub len: usize,
    pub waiting: bool,
    pub number: u8,
    pub closed: bool,
    pub ahead: u8,
}

// An opening that was refused, and the closed state to go on with.
#[derive(Clone, Copy, PartialEq, Eq)]
pub struct Shut<S> {
    pub why: Refusal,
    pub state: S,
}

// What a reader answers: what is whole, or that more bytes are needed; with the bytes used and the state then. Of a packet
// it is how many bytes it has at the packet buffer's front.
#[derive(Clone, Copy, PartialEq, Eq)]
pub struct Decoded<T, S> {
    pub answer: Result<Option<T>, Refusal>,
    pub used: usize,
    pub next: S,
}

// One chunk: with `more`, the packet goes on behind it.
#[derive(Clone, Copy)]
pub struct Turn {
    pub more: bool,
    pub decoded: Decoded<usize, PlainPacketCodec>,
}

// What a writer answers, the bytes written or why nothing was, and the state then.
#[derive(Clone, Copy, PartialEq, Eq)]
pub struct Encoded<S> {
    pub put: Result<usize, Refusal>,
    pub next: S,
}

// Opens a codec for packets of at most `limit` bytes.
#[tactic(auto, unfolding(crate::specs::Read::opening))]
pub fn opening(limit: usize) -> Result<PlainPacketCodec, Shut<PlainPacketCodec>>
    ensures { opened_said result ≡ opening limit }
{
    let codec = PlainPacketCodec {
        limit,
        taken: 0,
        len: 0,
        number: 0,
        waiting: false,
        ahead: 0,
        closed: false,
    };
    if limit == 0 || MAX_LIMIT < limit {
        return Err(Shut {
            why: Refusal::BadLimit,
            state: close(codec),
        });
    }
    Ok(codec)
}

// Reads chunks from the front of src into dst, until a packet is whole, more bytes are needed or a chunk is refused.
pub fn decode(
    dst: &mut [u8],
    codec: PlainPacketCodec,
    src: &[u8],
) -> Decoded<usize, PlainPacketCodec>
    ensures { done_of result dst.new ≡ read largest None codec src.now dst.old }
{
    decode_with(dst, None, codec, src)
}

// The same, with a second number that is accepted besides the expected one.
pub fn decode_with(
    dst: &mut [u8],
    x: Option<u8>,
    codec: PlainPacketCodec,
    src: &[u8],
) -> Decoded<usize, PlainPacketCodec>
    ensures { done_of result dst.new ≡ read largest x codec src.now dst.old }
{
    if codec.closed {
        return Decoded {
            answer: Err(Refusal::Closed),
            used: 0,
            next: codec,
        };
    }
    let mut at: usize = 0;
    let mut st = codec;
    loop {
        let t = turn(dst, x, st, &src[at..]);
        let r = t.decoded;
        let answer = r.answer;
        let next = r.next;
        at += r.used;
        if t.more {
            st = next;
        } else {
            return Decoded {
                answer,
                used: at,
                next,
            };
        }
    }
}

// Writes a packet as chunks to the front of dst.
pub fn packet_to_chunks(
    dst: &mut [u8],
    codec: PlainPacketCodec,
    packet: &[u8],
) -> Encoded<PlainPacketCodec>
    ensures { sent_of result dst.new ≡ write largest codec packet.now dst.old }
{
    if codec.closed {
        return unsent(Refusal::Closed, codec);
    }
    if codec.limit < packet.len() {
        return unsent(Refusal::TooLarge, codec);
    }
    let n = chunks_len(packet.len());
    if dst.len() < n {
        return unsent(Refusal::NoRoom, codec);
    }
    let number = put_chunks(dst, 0, codec.number, packet);
    let mut next = codec;
    next.number = number;
    Encoded { put: Ok(n), next }
}

// The next chunk has the number 0.
pub fn reset_seq_id(mut codec: PlainPacketCodec) -> PlainPacketCodec
    ensures { result ≡ renumbered codec 0 }
{
    codec.number = 0;
    codec
}
