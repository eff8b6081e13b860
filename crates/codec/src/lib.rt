// One codec for a connection: plain chunks, or stored frames once they are turned on, from `PacketCodec` of mysql_common's
// proto/codec/mod.rs, its names kept.
//
// Open one with `opening`, and turn frames on with `frames_on` once both ends have agreed to them. `decode` reads packets and
// `encode` writes them; one number serves both ways. Before each command call `reset_seq_id`, and between commands, with frames
// on, `sync_seq_id`. The staging buffer is the caller's and is lent at each call of `decode`: with 2 * limit + 4 bytes of it and
// limit bytes of packet buffer there is always room. With frames off it is ignored, and may be empty.
//
// Each entry takes the codec by value and gives it back. Those of `lent`, which end in `_in`, do the same to a codec that is lent.
#![tactic(auto)]

ghost use Rattle.std.specs.Prelude.{◌≡◌};
ghost use Rattle.chunk.specs.Read.{opened_said};
ghost use Rattle.frame.specs.Codec.{renumbered};
ghost use Rattle.codec.specs.Connection.{unframed, opening, frames_on, synced, Reading, Writing};

use chunk::{Decoded, Encoded, PlainPacketCodec, Shut};
use frame::inner::{plain_of, with_plain};
use frame::{PacketCodec, decode_framed, encode_framed};

pub mod lent;

pub use lent::Got;

// A plain state with frames off.
fn unframed(st: PlainPacketCodec) -> PacketCodec
    ensures { result ≡ unframed st }
{
    PacketCodec {
        limit: st.limit,
        taken: st.taken,
        len: st.len,
        unread: 0,
        size: 0,
        number: st.number,
        waiting: st.waiting,
        ahead: st.ahead,
        closed: st.closed,
        frame: 0,
        held: false,
        coming: 0,
        framed: false,
    }
}

// Opens a codec for packets of at most `limit` bytes, with frames off.
#[tactic(auto, unfolding(crate::specs::Connection::opening))]
pub fn opening(limit: usize) -> Result<PacketCodec, Shut<PacketCodec>>
    ensures { opened_said result ≡ opening limit }
{
    match chunk::opening(limit) {
        Ok(st) => Ok(unframed(st)),
        Err(Shut { why, state }) => Err(Shut {
            why,
            state: unframed(state),
        }),
    }
}

// Turns frames on. On again does nothing.
#[tactic(auto, unfolding(crate::specs::Connection::frames_on))]
pub fn frames_on(codec: PacketCodec) -> PacketCodec
    ensures { result ≡ frames_on codec }
{
    if codec.framed {
        return codec;
    }
    PacketCodec {
        framed: true,
        ..unframed(plain_of(codec))
    }
}

// The next chunk and the next frame have the number 0.
pub fn reset_seq_id(mut codec: PacketCodec) -> PacketCodec
    ensures { result ≡ renumbered codec 0 }
{
    codec.number = 0;
    codec.frame = 0;
    codec
}

// The next chunk has the number of the next frame, if frames are on and nothing is unread.
#[tactic(auto, unfolding(crate::specs::Connection::synced))]
pub fn sync_seq_id(mut codec: PacketCodec) -> PacketCodec
    ensures { result ≡ synced codec }
{
    if codec.framed && codec.unread == 0 {
        codec.number = codec.frame;
    }
    codec
}

// Reads a packet out of src into dst, by way of staging where frames are on.
#[tactic(auto, unfolding(crate::specs::Connection::read_packet, crate::specs::Connection::read_plain, frame::specs::Codec::unread_of))]
pub fn decode(
    codec: PacketCodec,
    src: &[u8],
    staging: &mut [u8],
    dst: &mut [u8],
) -> Decoded<usize, PacketCodec>
    ensures { Reading codec src.now staging.old dst.old result.answer result.used result.next staging.new dst.new }
{
    if codec.framed {
        return decode_framed(staging, dst, codec, src);
    }
    let Decoded { answer, used, next } = chunk::decode(dst, plain_of(codec), src);
    Decoded {
        answer,
        used,
        next: with_plain(codec, next, codec.unread),
    }
}

// Writes a packet to the front of dst, as chunks or as frames.
#[tactic(auto, unfolding(crate::specs::Connection::write_packet, crate::specs::Connection::write_plain))]
pub fn encode(codec: PacketCodec, packet: &[u8], dst: &mut [u8]) -> Encoded<PacketCodec>
    ensures { Writing codec packet.now dst.old result.put result.next dst.new }
{
    if codec.framed {
        return encode_framed(dst, codec, packet);
    }
    let Encoded { put, next } = chunk::packet_to_chunks(dst, plain_of(codec), packet);
    Encoded {
        put,
        next: with_plain(codec, next, codec.unread),
    }
}
