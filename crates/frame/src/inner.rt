// What the room of the codec builds on too and no host calls.
ghost use Rattle.std.specs.Prelude.{◌≡◌};
ghost use Rattle.frame.specs.Codec.{plain_of, with_plain};

use crate::PacketCodec;
use chunk::PlainPacketCodec;

// The plain state in a codec.
pub fn plain_of(codec: PacketCodec) -> PlainPacketCodec
    ensures { result ≡ plain_of codec }
{
    PlainPacketCodec {
        limit: codec.limit,
        taken: codec.taken,
        len: codec.len,
        number: codec.number,
        waiting: codec.waiting,
        ahead: codec.ahead,
        closed: codec.closed,
    }
}

// A codec with another plain state, and so many unread bytes.
pub fn with_plain(codec: PacketCodec, st: PlainPacketCodec, unread: usize) -> PacketCodec
    ensures { result ≡ with_plain codec st unread }
{
    PacketCodec {
        limit: st.limit,
        taken: st.taken,
        len: st.len,
        unread,
        number: st.number,
        waiting: st.waiting,
        ahead: st.ahead,
        closed: st.closed,
        ..codec
    }
}
