// What `packet_to_chunks` is made of.
ghost use Rattle.std.specs.Prelude.{◌≡◌, ◌+◌, ◌≤◌, length, Err};
ghost use Rattle.wire.specs.Room.{patch};
ghost use Rattle.chunk.specs.Chunks.{chunk};
ghost use Rattle.chunk.specs.declared.Encoded.{Encoded};

use crate::{Encoded, PlainPacketCodec};
use refusal::Refusal;
use wire::inner::{copy, put_le};

// A chunk at a place of dst.
#[tactic(auto, using(crate::proofs::Writing::chunk_put))]
pub(crate) fn put_chunk(dst: &mut [u8], at: usize, number: u8, part: &[u8])
    requires { at + (length part.now + 4) ≤ length dst.old }
    ensures { dst.new ≡ patch dst.old at (chunk number part.now) }
{
    put_le(dst, at, 3, part.len() as u64);
    dst[at + 3] = number;
    copy(dst, at + 4, part);
}

// Nothing was written.
pub(crate) fn unsent(r: Refusal, next: PlainPacketCodec) -> Encoded<PlainPacketCodec>
    ensures { result ≡ record { put = Err r; next = next } }
{
    Encoded { put: Err(r), next }
}
