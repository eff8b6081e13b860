// The loader's face: the entries for C, on numbers and byte slices. Each is a thin layer over one proved function of a room.
//
// A `&[u8]` is a pointer and a length to C. An entry answers a status, 0 for done, the number of a refusal, or 255 for "need
// more", and writes what it gives to lent numbers, which a refusal leaves untouched (but the bytes used by `mk_read` and
// `mk_stream_read`, which are written on every answer). The header host/include/mishkeldur.h says it all to a C programmer.
//
// The codec of a connection lives in a byte slice of `mk_state_size()` bytes that the caller keeps. Any content is some codec: one
// that no opening has made is most likely a closed one, and never anything worse.
#![tactic(auto)]

ghost use Rattle.refusal.specs.Said.{said_of};
ghost use Rattle.std.specs.Prelude.{◌≡◌, ◌≤◌, length};
ghost use Rattle.frame.specs.Codec.{renumbered};
ghost use Rattle.codec.specs.Connection.{frames_on, synced};
ghost use Rattle.mishkeldur.specs.Face.{status, holds, flag};
ghost use Rattle.mishkeldur.specs.State.{state_size, Opens, Changes, Looks, Reads, Writes};

use frame::PacketCodec;
use refusal::{Refusal, number_of};
use state::{load, store, whole, whole_frame};
use wire::inner::copy;

mod answers;
mod damage;
mod literals;
mod packing;
mod records;
mod state;
mod streams;
mod values;

// How many bytes a state is lent in.
const STATE_SIZE: usize = 128;

// "Need more" as a status.
pub(crate) const NEED_MORE: u8 = 255;

// A flag from C: 0 is no, any other number is yes.
pub(crate) fn flag(n: u8) -> bool
    ensures { result ≡ flag n }
{
    n != 0
}

// What a room answered, as a status; a value goes to its lent place, and a refusal leaves that as it was.
pub(crate) fn give<T: Copy>(answer: Result<T, Refusal>, place: &mut T) -> u8
    ensures { (result ≡ status (said_of answer)) × (place.new ≡ holds (said_of answer) (λ x. x) place.old) }
{
    match answer {
        Ok(x) => {
            *place = x;
            0
        }
        Err(r) => number_of(r),
    }
}

// How many bytes a state takes.
#[unsafe(no_mangle)]
pub extern "C" fn mk_state_size() -> usize
    ensures { result ≡ state_size }
{
    STATE_SIZE
}

// Opens a codec for packets of at most `limit` bytes, with frames off. A refused opening writes a closed one.
#[unsafe(no_mangle)]
pub extern "C" fn mk_open(state: &mut [u8], limit: usize) -> u8
    ensures { Opens state.old limit result state.new }
{
    if state.len() < STATE_SIZE {
        return number_of(Refusal::NoRoom);
    }
    let (codec, status) = match codec::opening(limit) {
        Ok(codec) => (codec, 0),
        Err(shut) => (shut.state, number_of(shut.why)),
    };
    store(state, codec);
    status
}

// What changes a codec between packets.
fn change_codec<F: FnOnce(PacketCodec) -> PacketCodec>(state: &mut [u8], change: F) -> u8
    requires { F.IsAlwaysCallable change }
    ensures { (f : _) → ((c d : _) → F.post change c d → d ≡ f c) → Changes f state.old result state.new }
{
    if state.len() < STATE_SIZE {
        return number_of(Refusal::NoRoom);
    }
    let codec = load(state);
    store(state, change(codec));
    0
}

// Turns frames on. On again does nothing.
#[unsafe(no_mangle)]
pub extern "C" fn mk_frames_on(state: &mut [u8]) -> u8
    ensures { Changes frames_on state.old result state.new }
{
    change_codec(state, codec::frames_on)
}

// The next chunk and the next frame have the number 0.
#[unsafe(no_mangle)]
pub extern "C" fn mk_reset_seq_id(state: &mut [u8]) -> u8
    ensures { Changes (λ c. renumbered c 0) state.old result state.new }
{
    change_codec(state, codec::reset_seq_id)
}

// The next chunk has the number of the next frame, if frames are on and nothing is unread.
#[unsafe(no_mangle)]
pub extern "C" fn mk_sync_seq_id(state: &mut [u8]) -> u8
    ensures { Changes synced state.old result state.new }
{
    change_codec(state, codec::sync_seq_id)
}

// The numbers of a state, for who looks: those of the next chunk and the next frame, how many bytes of staging are unread,
// and as 0 or 1 whether frames are on and whether it is closed.
#[unsafe(no_mangle)]
pub extern "C" fn mk_look(
    state: &[u8],
    number: &mut u8,
    frame: &mut u8,
    unread: &mut usize,
    framed: &mut u8,
    closed: &mut u8,
) -> u8
    ensures { Looks state.now result
        number.old frame.old unread.old framed.old closed.old
        number.new frame.new unread.new framed.new closed.new }
{
    if state.len() < STATE_SIZE {
        return number_of(Refusal::NoRoom);
    }
    let codec = load(state);
    *number = codec.number;
    *frame = codec.frame;
    *unread = codec.unread;
    *framed = codec.framed as u8;
    *closed = codec.closed as u8;
    0
}

// Reads by way of the codec.
fn read_codec(
    state: &mut [u8],
    src: &[u8],
    staging: &mut [u8],
    packet: &mut [u8],
    used: &mut usize,
    len: &mut usize,
) -> u8
    requires { 128 ≤ length state.old }
    ensures { Reads state.old src.now staging.old packet.old len.old result
        state.new staging.new packet.new used.new len.new }
{
    let codec = load(state);
    if codec.closed {
        *used = 0;
        return number_of(Refusal::Closed);
    }
    let d = codec::decode(codec, src, staging, packet);
    *used = d.used;
    store(state, d.next);
    match d.answer {
        Ok(None) => NEED_MORE,
        Ok(Some(n)) => {
            *len = n;
            0
        }
        Err(r) => number_of(r),
    }
}

// Reads a packet out of src into the packet buffer, by way of staging where frames are on: 0 and its length, or 255 for more. Where a
// whole packet is there and nothing is begun, it is read at once, and of the state no more than its numbers are touched.
#[unsafe(no_mangle)]
pub extern "C" fn mk_read(
    state: &mut [u8],
    src: &[u8],
    staging: &mut [u8],
    packet: &mut [u8],
    used: &mut usize,
    len: &mut usize,
) -> u8
    ensures { Reads state.old src.now staging.old packet.old len.old result
        state.new staging.new packet.new used.new len.new }
{
    if state.len() < STATE_SIZE {
        *used = 0;
        return number_of(Refusal::NoRoom);
    }
    if let Some(n) = whole(state, src, packet.len()) {
        copy(packet, 0, &src[4..n]);
        state[1] = state[1].wrapping_add(1);
        *used = n;
        *len = n - 4;
        return 0;
    }
    if let Some(n) = whole_frame(state, src, staging.len(), packet.len()) {
        copy(packet, 0, &src[11..n]);
        state[1] = state[1].wrapping_add(1);
        state[4] = state[4].wrapping_add(1);
        *used = n;
        *len = n - 11;
        return 0;
    }
    read_codec(state, src, staging, packet, used, len)
}

// Writes a packet to the front of dst, as chunks or as frames, and says how many bytes that took.
#[unsafe(no_mangle)]
pub extern "C" fn mk_write(
    state: &mut [u8],
    packet: &[u8],
    dst: &mut [u8],
    written: &mut usize,
) -> u8
    ensures { Writes state.old packet.now dst.old written.old result
        state.new dst.new written.new }
{
    if state.len() < STATE_SIZE {
        return number_of(Refusal::NoRoom);
    }
    let codec = load(state);
    let e = codec::encode(codec, packet, dst);
    match e.put {
        Ok(n) => {
            store(state, e.next);
            *written = n;
            0
        }
        Err(r) => number_of(r),
    }
}
