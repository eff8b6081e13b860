// What `encode_framed` is made of. The chunk stream is written into dst as far from its front as all headers are long, and each
// piece then moves left to its place behind its header. One frame, the common case, moves nothing.
ghost use Rattle.std.specs.Prelude.{◌≡◌, ◌+◌, ◌*◌, ◌<◌, ◌≤◌, length, take, drop, Err};
ghost use Rattle.wire.specs.Room.{patch};
ghost use Rattle.frame.specs.Frames.{frame, ceil, frames, frames_after};
ghost use Rattle.frame.specs.Codec.{renumbered};

use crate::PacketCodec;
use crate::shift::shift_left;
use chunk::Encoded;
use refusal::Refusal;
use wire::inner::put_le;

// The n bytes from a place on become a frame at a place before it.
fn put_frame(dst: &mut [u8], at: usize, number: u8, from: usize, n: usize)
    requires { (at + 7 ≤ from) × (from + n ≤ length dst.old) }
    ensures { dst.new ≡ patch dst.old at (frame number (take n (drop from dst.old))) }
{
    put_le(dst, at, 3, n as u64);
    dst[at + 3] = number;
    put_le(dst, at + 4, 3, 0);
    shift_left(dst, at + 7, from, n);
}

// The total bytes that stand 7 * count bytes behind dst's front become count frames at its front. The answer is the number
// after them.
pub(crate) fn put_frames(dst: &mut [u8], first: u8, total: usize, piece: usize, count: usize) -> u8
    requires { (0 < piece) × (0 < total) × (count ≡ ceil total piece) × (total + 7 * count ≤ length dst.old) }
    ensures { (result ≡ frames_after piece first total)
        × (dst.new ≡ patch dst.old 0 (frames piece first (take total (drop (7 * count) dst.old)))) }
{
    let mut left = total;
    let mut out: usize = 0;
    let mut from = 7 * count;
    let mut number = first;
    // By pieces: it ends on the bytes that are left, and the last piece, which may be shorter, is put behind it.
    while piece < left {
        put_frame(dst, out, number, from, piece);
        out += piece + 7;
        from += piece;
        left -= piece;
        number = number.wrapping_add(1);
    }
    put_frame(dst, out, number, from, left);
    number.wrapping_add(1)
}

// Both numbers are number.
pub(crate) fn renumber(mut codec: PacketCodec, number: u8) -> PacketCodec
    ensures { result ≡ renumbered codec number }
{
    codec.number = number;
    codec.frame = number;
    codec
}

// Nothing was written.
pub(crate) fn unsent(r: Refusal, next: PacketCodec) -> Encoded<PacketCodec>
    ensures { result ≡ record { put = Err r; next = next } }
{
    Encoded { put: Err(r), next }
}
