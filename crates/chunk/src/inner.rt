// What the room of frames builds on too and no host calls. What has a `requires` leans on a test that its caller has made.
ghost use Rattle.std.specs.Prelude.{◌≡◌, ◌+◌, ◌<◌, ◌≤◌, length, nat_lt};
ghost use Rattle.wire.specs.Room.{patch};
ghost use Rattle.chunk.specs.Chunks.{largest, chunks, needed, after};

use crate::MAX_PAYLOAD_LEN;
use crate::writer::put_chunk;

// Whether a + b is above most, with no sum that could wrap.
pub fn exceeds(a: usize, b: usize, most: usize) -> bool
    ensures { result ≡ nat_lt most (a + b) }
{
    most < a || most - a < b
}

// How many bytes the chunks of a packet of n bytes are. No slice is longer than half of what a usize holds, so nothing wraps.
#[tactic(auto, unfolding(crate::specs::Chunks::needed))]
pub fn chunks_len(n: usize) -> usize
    requires { n < 0x8000_0000_0000_0000 }
    ensures { result ≡ needed largest n }
{
    n + 4 * (n / MAX_PAYLOAD_LEN + 1)
}

// The chunks of a packet from a place on, numbered from `first`. The answer is the number after them.
pub fn put_chunks(dst: &mut [u8], from: usize, first: u8, packet: &[u8]) -> u8
    requires { from + needed largest (length packet.now) ≤ length dst.old }
    ensures { (result ≡ after largest first (length packet.now))
        × (dst.new ≡ patch dst.old from (chunks largest first packet.now)) }
{
    let mut at: usize = 0;
    let mut out = from;
    let mut number = first;
    while MAX_PAYLOAD_LEN <= packet.len() - at {
        let end = at + MAX_PAYLOAD_LEN;
        put_chunk(dst, out, number, &packet[at..end]);
        at = end;
        out += MAX_PAYLOAD_LEN + 4;
        number = number.wrapping_add(1);
    }
    put_chunk(dst, out, number, &packet[at..]);
    number.wrapping_add(1)
}
