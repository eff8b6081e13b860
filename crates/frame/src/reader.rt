// What `decode_framed` is made of: one round, which is the plain reader on the unread bytes and then at most one frame.
ghost use Rattle.std.specs.Prelude.{◌≡◌, ◌+◌, ◌<◌, ◌≤◌, true, false, length, slice_index};
ghost use Rattle.wire.specs.Le.{le_at};
ghost use Rattle.chunk.specs.Chunks.{largest, next};
ghost use Rattle.chunk.specs.Read.{answer_said};
ghost use Rattle.frame.specs.Codec.{with_frame, closed, holding_frame, unread_of, last_number};
ghost use Rattle.frame.specs.Read.{done_of, Steps, took, body_at, headed, frame_at, drained, asks, lap_at};

use crate::PacketCodec;
use crate::inner::{plain_of, with_plain};
use crate::shift::shift_left;
use chunk::{Decoded, decode_with};
use refusal::Refusal;
use wire::inner::{copy, has, le};

fn close(mut codec: PacketCodec) -> PacketCodec
    ensures { result ≡ closed codec }
{
    codec.closed = true;
    codec
}

fn hold(mut codec: PacketCodec, len: usize, number: u8) -> PacketCodec
    ensures { result ≡ holding_frame codec len number }
{
    codec.size = len;
    codec.held = true;
    codec.coming = number;
    codec
}

// A frame later, with so many unread bytes.
#[tactic(auto, unfolding(chunk::specs::Chunks::next))]
fn pass(mut codec: PacketCodec, unread: usize) -> PacketCodec
    ensures { result ≡ with_frame codec unread (next codec.frame) false 0 0 }
{
    codec.unread = unread;
    codec.size = 0;
    codec.frame = codec.frame.wrapping_add(1);
    codec.held = false;
    codec.coming = 0;
    codec
}

// Nothing is taken.
pub(crate) fn stop(
    answer: Result<Option<usize>, Refusal>,
    next: PacketCodec,
) -> Decoded<usize, PacketCodec>
    ensures { result ≡ record { answer = answer; used = 0; next = next } }
{
    Decoded {
        answer,
        used: 0,
        next,
    }
}

// A whole frame of len bytes that fits: its bytes go behind the unread ones.
#[tactic(auto, unfolding(crate::specs::Read::took, crate::specs::Codec::unread_of))]
fn take_frame(
    staging: &mut [u8],
    codec: PacketCodec,
    len: usize,
    src: &[u8],
) -> Decoded<usize, PacketCodec>
    requires { (len + 7 ≤ length src.now) × (codec.unread + len ≤ length staging.old) }
    ensures { Steps result staging.new (took codec len src.now (unread_of codec staging.old)) }
{
    let used = len + 7;
    copy(staging, codec.unread, &src[7..used]);
    Decoded {
        answer: Ok(None),
        used,
        next: pass(codec, codec.unread + len),
    }
}

// A frame whose header says len and number: wait for all of it, then 3, then 6.
#[tactic(auto, unfolding(crate::specs::Read::body_at, crate::specs::Codec::unread_of))]
fn body(
    staging: &mut [u8],
    codec: PacketCodec,
    len: usize,
    number: u8,
    src: &[u8],
) -> Decoded<usize, PacketCodec>
    requires { codec.unread ≤ length staging.old }
    ensures { Steps result staging.new (body_at codec len number src.now (unread_of codec staging.old) (length staging.old)) }
{
    if !has(src, 7, len) {
        return stop(Ok(None), codec);
    }
    if number != codec.frame {
        return stop(Err(Refusal::OutOfSync), close(codec));
    }
    if staging.len() - codec.unread < len {
        return stop(Err(Refusal::NoRoom), codec);
    }
    take_frame(staging, codec, len, src)
}

// A frame whose header is there and not remembered: 2, 4, 5, and then it is remembered.
#[tactic(auto, unfolding(crate::specs::Read::headed, crate::specs::Codec::unread_of))]
fn header(staging: &mut [u8], codec: PacketCodec, src: &[u8]) -> Decoded<usize, PacketCodec>
    requires { (codec.unread ≤ length staging.old) × (7 ≤ length src.now) }
    ensures { Steps result staging.new (headed codec (le_at src.now 0 3) (slice_index src.now 3) (le_at src.now 4 3) src.now (unread_of codec staging.old) (length staging.old)) }
{
    let len = le(src, 0, 3) as usize;
    let number = src[3];
    let plain = le(src, 4, 3) as usize;
    if codec.limit < len || codec.limit < plain {
        return stop(Err(Refusal::TooLarge), close(codec));
    }
    match (len, plain) {
        (0, 0) => body(staging, codec, 0, number, src),
        (0, _) => stop(Err(Refusal::BadFrameHeader), close(codec)),
        (_, 0) => body(staging, hold(codec, len, number), len, number, src),
        _ => stop(Err(Refusal::Packed), close(codec)),
    }
}

// At most one frame.
#[tactic(auto, unfolding(crate::specs::Read::frame_at, crate::specs::Read::frame_from))]
fn frame(staging: &mut [u8], codec: PacketCodec, src: &[u8]) -> Decoded<usize, PacketCodec>
    requires { codec.unread ≤ length staging.old }
    ensures { Steps result staging.new (frame_at codec src.now (unread_of codec staging.old) (length staging.old)) }
{
    if codec.held {
        return body(staging, codec, codec.size, codec.coming, src);
    }
    if src.len() < 7 {
        return stop(Ok(None), codec);
    }
    header(staging, codec, src)
}

// The number of the last frame taken.
fn last_number(k: u8) -> u8
    ensures { result ≡ last_number k }
{
    k.wrapping_sub(1)
}

// The plain reader on the unread bytes; what it leaves goes to staging's front.
fn drain(staging: &mut [u8], dst: &mut [u8], codec: PacketCodec) -> Decoded<usize, PacketCodec>
    requires { codec.unread ≤ length staging.old }
    ensures { done_of result staging.new dst.new ≡ drained largest codec (unread_of codec staging.old) dst.old }
{
    let unread = codec.unread;
    let last = last_number(codec.frame);
    let Decoded { answer, used, next } = decode_with(
        dst,
        Some(last),
        plain_of(codec),
        &staging[..unread],
    );
    let left = unread - used;
    shift_left(staging, 0, used, left);
    Decoded {
        answer,
        used: 0,
        next: with_plain(codec, next, left),
    }
}

// Whether the plain reader wants more.
fn wants(answer: Result<Option<usize>, Refusal>) -> bool
    ensures { result ≡ asks (answer_said answer) }
{
    matches!(answer, Ok(None))
}

// One round. Bytes are used only where a frame was taken, and then the reader goes round again.
#[tactic(auto, using(crate::proofs::Rounds::round_empty, crate::specs::ReadLaws::drained_less), unfolding(crate::specs::Read::lap_at))]
pub(crate) fn round(
    staging: &mut [u8],
    dst: &mut [u8],
    codec: PacketCodec,
    src: &[u8],
) -> Decoded<usize, PacketCodec>
    requires { codec.unread ≤ length staging.old }
    ensures { done_of result staging.new dst.new ≡ (lap_at largest codec src.now (unread_of codec staging.old) (length staging.old) dst.old).done }
{
    if codec.unread == 0 && !codec.closed {
        return frame(staging, codec, src);
    }
    let d = drain(staging, dst, codec);
    if wants(d.answer) {
        return frame(staging, d.next, src);
    }
    d
}
