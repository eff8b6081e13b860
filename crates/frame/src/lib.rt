// Stored frames: the chunk stream of a connection behind seven-byte headers, from `compress` (its stored half), `CompDecoder` and
// `CompPacketCodec` of mysql_common's proto/codec/mod.rs. Packed payloads are refused.
//
// The codec's state goes in by value and comes back; bytes are lent. The unread chunk bytes stand at the front of a staging buffer,
// which the caller keeps and lends at each call: `unread` says how many. What stands behind them is nobody's.
#![tactic(auto)]

ghost use Rattle.std.specs.Prelude.{◌≡◌, ◌<◌, true, length};
ghost use Rattle.chunk.specs.Chunks.{largest};
ghost use Rattle.frame.specs.Read.{done_of, read_framed};
ghost use Rattle.frame.specs.Write.{sent_of, write_framed};

use chunk::inner::{chunks_len, put_chunks};
use chunk::{Decoded, Encoded, MAX_PAYLOAD_LEN};
use reader::{round, stop};
use refusal::Refusal;
use writer::{put_frames, renumber, unsent};

pub mod inner;
mod reader;
mod shift;
mod writer;

// The state of one end of a connection, flat, so that it is copied without padding: first the plain codec's fields, with `unread`
// and `size` between them, and then the frames': `frame` is the next frame's number; with `held`, the header of a frame of `size`
// bytes with the number `coming` is remembered; `framed` says whether frames are on.
#[derive(Clone, Copy, PartialEq, Eq)]
pub struct PacketCodec {
    pub limit: usize,
    pub taken: usize,
    pub len: usize,
    pub unread: usize,
    pub size: usize,
    pub number: u8,
    pub waiting: bool,
    pub ahead: u8,
    pub closed: bool,
    pub frame: u8,
    pub held: bool,
    pub coming: u8,
    pub framed: bool,
}

// Reads frames from the front of src and chunks out of them into dst, until a packet is whole, more bytes are needed or something
// is refused. The unread chunk bytes are at staging's front, before and after. A call that is refused before all else changes no
// byte of staging, those behind the unread ones included.
#[tactic(auto, unfolding(crate::specs::Read::read_framed))]
pub fn decode_framed(
    staging: &mut [u8],
    dst: &mut [u8],
    codec: PacketCodec,
    src: &[u8],
) -> Decoded<usize, PacketCodec>
    ensures { (done_of result staging.new dst.new ≡ read_framed largest codec src.now staging.old dst.old)
        × (codec.closed ≡ true → staging.new ≡ staging.old)
        × (length staging.old < codec.unread → staging.new ≡ staging.old) }
{
    if codec.closed {
        return stop(Err(Refusal::Closed), codec);
    }
    if staging.len() < codec.unread {
        return stop(Err(Refusal::NoRoom), codec);
    }
    let mut at = 0;
    let mut st = codec;
    // Each round uses as many bytes as its frame has; it ends with the first one that uses none.
    loop {
        let r = round(staging, dst, st, &src[at..]);
        if r.used == 0 {
            return Decoded { used: at, ..r };
        }
        at += r.used;
        st = r.next;
    }
}

// Writes a packet as the frames of its chunks to the front of dst.
#[tactic(auto, using(crate::proofs::Writing::piece_is, crate::proofs::Writing::piece_fits, crate::proofs::Writing::ceil_is, crate::proofs::Writing::total_is, crate::proofs::Writing::packet_put), unfolding(crate::specs::Write::write_framed, chunk::specs::Chunks::needed))]
pub fn encode_framed(dst: &mut [u8], codec: PacketCodec, packet: &[u8]) -> Encoded<PacketCodec>
    ensures { sent_of result dst.new ≡ write_framed largest codec packet.now dst.old }
{
    let limit = codec.limit;
    if codec.closed || limit == 0 {
        return unsent(Refusal::Closed, codec);
    }
    if limit < packet.len() {
        return unsent(Refusal::TooLarge, codec);
    }
    let n = chunks_len(packet.len());
    let piece = limit.min(MAX_PAYLOAD_LEN);
    let count = n.div_ceil(piece);
    if dst.len() < n || (dst.len() - n) / 7 < count {
        return unsent(Refusal::NoRoom, codec);
    }
    put_chunks(dst, 7 * count, codec.number, packet);
    let number = put_frames(dst, codec.frame, n, piece, count);
    Encoded {
        put: Ok(n + 7 * count),
        next: renumber(codec, number),
    }
}
