// The codec lent and changed in place: each entry does to it what the one of its name, without `_in`, gives back by value.
ghost use Rattle.std.specs.Prelude.{◌≡◌};
ghost use Rattle.frame.specs.Codec.{renumbered};
ghost use Rattle.codec.specs.Connection.{frames_on, synced, Reading, Writing};

use crate::{decode, encode, frames_on, reset_seq_id, sync_seq_id};
use chunk::{Decoded, Encoded};
use frame::PacketCodec;
use refusal::Refusal;

// What reading answers: of a whole packet how many bytes it has at the packet buffer's front, or nothing where more bytes are
// needed; and the bytes used.
#[derive(Clone, Copy, PartialEq, Eq)]
pub struct Got {
    pub answer: Result<Option<usize>, Refusal>,
    pub used: usize,
}

// Turns frames on. On again does nothing.
pub fn frames_on_in(codec: &mut PacketCodec)
    ensures { codec.new ≡ frames_on codec.old }
{
    *codec = frames_on(*codec);
}

// The next chunk and the next frame have the number 0.
pub fn reset_seq_id_in(codec: &mut PacketCodec)
    ensures { codec.new ≡ renumbered codec.old 0 }
{
    *codec = reset_seq_id(*codec);
}

// The next chunk has the number of the next frame, if frames are on and nothing is unread.
pub fn sync_seq_id_in(codec: &mut PacketCodec)
    ensures { codec.new ≡ synced codec.old }
{
    *codec = sync_seq_id(*codec);
}

// Reads a packet out of src into dst, by way of staging where frames are on.
pub fn decode_in(codec: &mut PacketCodec, src: &[u8], staging: &mut [u8], dst: &mut [u8]) -> Got
    ensures { Reading codec.old src.now staging.old dst.old result.answer result.used codec.new staging.new dst.new }
{
    let Decoded { answer, used, next } = decode(*codec, src, staging, dst);
    *codec = next;
    Got { answer, used }
}

// Writes a packet to the front of dst, as chunks or as frames.
pub fn encode_in(codec: &mut PacketCodec, packet: &[u8], dst: &mut [u8]) -> Result<usize, Refusal>
    ensures { Writing codec.old packet.now dst.old result codec.new dst.new }
{
    let Encoded { put, next } = encode(*codec, packet, dst);
    *codec = next;
    put
}
