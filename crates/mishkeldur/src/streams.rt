// Packets longer than any buffer: the straight-through reader, its state in a lent byte slice. Any content is some state.
ghost use Rattle.std.specs.Prelude.{◌≡◌, ◌≤◌, length};
ghost use Rattle.mishkeldur.specs.Streams.{shut, stream_of, holding, OpensStream, Renumbers, Passes};

use crate::NEED_MORE;
use crate::state::put_count;
use refusal::{Refusal, number_of};
use stream::Stream;
use wire::inner::le;

// How many bytes a stream's state is lent in.
const STREAM_SIZE: usize = 64;

// The first byte of a stream's state. The codec's is another, so that neither takes the other's for its own.
const MARK: u8 = 0x53;

#[tactic(auto, unfolding(crate::specs::Streams::shut))]
fn is_shut(first: u8, closed: u8) -> bool
    ensures { result ≡ shut first closed }
{
    first != MARK || closed != 0
}

// What the bytes of a state mean.
#[tactic(auto, using(crate::proofs::PassLaws::stream_loaded))]
fn load(state: &[u8]) -> Stream
    requires { 32 ≤ length state.now }
    ensures { result ≡ stream_of state.now }
{
    Stream {
        limit: le(state, 8, 8) as usize,
        taken: le(state, 16, 8) as usize,
        left: le(state, 24, 8) as usize,
        got: state[4],
        first: state[5],
        second: state[6],
        third: state[7],
        number: state[2],
        full: state[3] == 1,
        closed: is_shut(state[0], state[1]),
    }
}

// A state as bytes. What lies past them stays.
#[tactic(auto, using(crate::proofs::PassLaws::stream_stored))]
fn store(state: &mut [u8], stream: Stream)
    requires { 32 ≤ length state.old }
    ensures { state.new ≡ holding state.old stream }
{
    state[0] = MARK;
    state[1] = stream.closed as u8;
    state[2] = stream.number;
    state[3] = stream.full as u8;
    state[4] = stream.got;
    state[5] = stream.first;
    state[6] = stream.second;
    state[7] = stream.third;
    put_count(state, 8, stream.limit as u64);
    put_count(state, 16, stream.taken as u64);
    put_count(state, 24, stream.left as u64);
}

// Opens a stream of packets of at most `limit` bytes each. A refused opening writes a closed one.
#[unsafe(no_mangle)]
pub extern "C" fn mk_stream_open(state: &mut [u8], limit: usize) -> u8
    ensures { OpensStream state.old limit result state.new }
{
    if state.len() < STREAM_SIZE {
        return number_of(Refusal::NoRoom);
    }
    let (stream, status) = match stream::opening(limit) {
        Ok(stream) => (stream, 0),
        Err(shut) => (shut.state, number_of(shut.why)),
    };
    store(state, stream);
    status
}

// The next chunk has this number.
#[unsafe(no_mangle)]
pub extern "C" fn mk_stream_seq_id(state: &mut [u8], number: u8) -> u8
    ensures { Renumbers state.old number result state.new }
{
    if state.len() < STREAM_SIZE {
        return number_of(Refusal::NoRoom);
    }
    let stream = load(state);
    store(state, stream::renumber(stream, number));
    0
}

// Takes lent bytes up to one chunk's end: 0 and the payload among them, by its place and length, and whether a packet ends with it; or
// 255 for more.
#[unsafe(no_mangle)]
pub extern "C" fn mk_stream_read(
    state: &mut [u8],
    src: &[u8],
    used: &mut usize,
    place: &mut usize,
    len: &mut usize,
    ends: &mut u8,
) -> u8
    ensures { Passes state.old src.now place.old len.old ends.old result
        state.new used.new place.new len.new ends.new }
{
    if state.len() < STREAM_SIZE {
        *used = 0;
        return number_of(Refusal::NoRoom);
    }
    let stream = load(state);
    if stream.closed {
        *used = 0;
        return number_of(Refusal::Closed);
    }
    let d = stream::pass(stream, src);
    *used = d.used;
    store(state, d.next);
    match d.answer {
        Ok(None) => NEED_MORE,
        Ok(Some(p)) => {
            *place = p.at;
            *len = p.len;
            *ends = p.ends as u8;
            0
        }
        Err(r) => number_of(r),
    }
}
