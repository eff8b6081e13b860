// A codec in a lent byte slice. Every content of the slice is some codec, so nothing is asked of it but its length.
ghost use Rattle.std.specs.Prelude.{◌≡◌, ℕ, ◌+◌, ◌≤◌, true, length, if◌then◌else◌, Some};
ghost use Rattle.wire.specs.Le.{le_bytes};
ghost use Rattle.wire.specs.Room.{patch};
ghost use Rattle.mishkeldur.specs.State.{mark, codec_of, keeping};
ghost use Rattle.mishkeldur.specs.Whole.{Idle, Chunk, Whole, IdleFramed, Header, WholeFrame};

use chunk::MAX_PAYLOAD_LEN;
use frame::PacketCodec;
use wire::inner::{le, put_le};

// The first byte of an open state. That of a closed one is 0.
const MARK: u8 = 0x4B;

// The first byte by whether the codec is closed.
fn mark_of(closed: bool) -> u8
    ensures { result ≡ (if closed then 0 else mark) }
{
    if closed { 0 } else { MARK }
}

// A count as eight bytes. Most calls change none of the counts, and what stands there already is not written again.
#[tactic(auto, using(crate::proofs::StoreLaws::stands))]
pub(crate) fn put_count(state: &mut [u8], at: usize, v: u64)
    requires { at + 8 ≤ length state.old }
    ensures { state.new ≡ patch state.old at (le_bytes 8 v) }
{
    if le(state, at, 8) != v {
        put_le(state, at, 8, v);
    }
}

// The codec that the bytes of a state mean. The counts stand in another order than in the record, so that no two of them are moved as one
// right after they were written apart.
#[tactic(auto, using(crate::proofs::StoreLaws::loaded))]
pub(crate) fn load(state: &[u8]) -> PacketCodec
    requires { 48 ≤ length state.now }
    ensures { result ≡ codec_of state.now }
{
    PacketCodec {
        limit: le(state, 8, 8) as usize,
        taken: le(state, 24, 8) as usize,
        len: le(state, 40, 8) as usize,
        unread: le(state, 16, 8) as usize,
        size: le(state, 32, 8) as usize,
        number: state[1],
        waiting: state[2] == 1,
        ahead: state[3],
        closed: state[0] != MARK,
        frame: state[4],
        held: state[5] == 1,
        coming: state[6],
        framed: state[7] == 1,
    }
}

// Whether the bytes of a state are those of an open codec that has begun nothing, in a mode: 1 is frames on.
fn idle(state: &[u8], mode: u8) -> bool
    requires { 48 ≤ length state.now }
    ensures { result ≡ true → Idle mode state.now }
{
    state[0] == MARK
        && state[2] == 0
        && state[3] == 0
        && state[5] == 0
        && state[7] == mode
        && le(state, 24, 8) == 0
        && le(state, 40, 8) == 0
}

// Whether len bytes of a packet stand at a place of src, as its one chunk with the state's number, and may be taken.
fn one_chunk(state: &[u8], src: &[u8], at: usize, room: usize, len: usize) -> bool
    requires { (48 ≤ length state.now) × (at + 4 + len ≤ length src.now) }
    ensures { result ≡ true → Chunk state.now src.now at room len }
{
    le(src, at, 3) == len as u64
        && src[at + 3] == state[1]
        && len as u64 <= le(state, 8, 8)
        && len <= room
        && len != MAX_PAYLOAD_LEN
}

// The common case, told without taking the codec apart: how many bytes the chunk at the front of src takes, where nothing is begun and
// it is a whole packet that may be taken. `None` tells nothing.
pub(crate) fn whole(state: &[u8], src: &[u8], room: usize) -> Option<usize>
    requires { 48 ≤ length state.now }
    ensures { (n : ℕ) → result ≡ Some n → Whole state.now src.now room n }
{
    if src.len() < 4 || !idle(state, 0) {
        return None;
    }
    let len = le(src, 0, 3) as usize;
    if src.len() - 4 < len || !one_chunk(state, src, 0, room, len) {
        return None;
    }
    Some(len + 4)
}

// The same with frames on, no frame remembered and nothing unread.
fn idle_framed(state: &[u8]) -> bool
    requires { 48 ≤ length state.now }
    ensures { result ≡ true → IdleFramed state.now }
{
    idle(state, 1) && state[6] == 0 && le(state, 16, 8) == 0 && le(state, 32, 8) == 0
}

// Whether src begins with the header of a stored frame that has the next frame's number, and whose bytes may be taken.
fn stored_frame(state: &[u8], src: &[u8], staging: usize, size: usize) -> bool
    requires { (48 ≤ length state.now) × (7 ≤ length src.now) }
    ensures { result ≡ true → Header state.now src.now staging size }
{
    src[3] == state[4] && le(src, 4, 3) == 0 && size as u64 <= le(state, 8, 8) && size <= staging
}

// The same with frames on: how many bytes a frame takes that holds just such a chunk.
pub(crate) fn whole_frame(state: &[u8], src: &[u8], staging: usize, room: usize) -> Option<usize>
    requires { 48 ≤ length state.now }
    ensures { (n : ℕ) → result ≡ Some n → WholeFrame state.now src.now staging room n }
{
    if src.len() < 11 || !idle_framed(state) {
        return None;
    }
    let size = le(src, 0, 3) as usize;
    if size < 4 || src.len() - 7 < size || !stored_frame(state, src, staging, size) {
        return None;
    }
    if !one_chunk(state, src, 7, room, size - 4) {
        return None;
    }
    Some(size + 7)
}

// A codec as the bytes of a state. What lies past them stays.
#[tactic(auto, using(crate::proofs::StoreLaws::stored))]
pub(crate) fn store(state: &mut [u8], codec: PacketCodec)
    requires { 48 ≤ length state.old }
    ensures { state.new ≡ keeping state.old codec }
{
    state[0] = mark_of(codec.closed);
    state[1] = codec.number;
    state[2] = codec.waiting as u8;
    state[3] = codec.ahead;
    state[4] = codec.frame;
    state[5] = codec.held as u8;
    state[6] = codec.coming;
    state[7] = codec.framed as u8;
    put_count(state, 8, codec.limit as u64);
    put_count(state, 16, codec.unread as u64);
    put_count(state, 24, codec.taken as u64);
    put_count(state, 32, codec.size as u64);
    put_count(state, 40, codec.len as u64);
}
