// The straight-through reader of plain chunks (request W7): for packets that are longer than any buffer. `pass` takes lent bytes up to
// one chunk's end and hands back the payload among them as a part of the same bytes, marked if a packet ends there. Nothing is
// copied and nothing is waited for; the state is numbers only. Until a packet's last part is marked, its bytes are not vouched for.
#![tactic(auto)]

ghost use Rattle.std.specs.Prelude.{◌≡◌};
ghost use Rattle.chunk.specs.Chunks.{largest};
ghost use Rattle.chunk.specs.Read.{opened_said};
ghost use Rattle.stream.specs.Stream.{opening, done_of, pass, renumbered};

use chunk::{Decoded, MAX_LIMIT, Shut};
use reader::{close, header, payload, refuse};
use refusal::Refusal;

mod reader;

// The state of the reader. `taken` counts the bytes of the current packet up to its current chunk's end, `left` those of the chunk
// that are to come; `full`: that chunk has M bytes. Of a header that came in part, `got` bytes are kept: first, second and third.
#[derive(Clone, Copy, PartialEq, Eq)]
pub struct Stream {
    pub limit: usize,
    pub taken: usize,
    pub left: usize,
    pub got: u8,
    pub first: u8,
    pub second: u8,
    pub third: u8,
    pub number: u8,
    pub full: bool,
    pub closed: bool,
}

// A part of the lent bytes, and whether a packet ends with it.
#[derive(Clone, Copy, PartialEq, Eq)]
pub struct Piece {
    pub at: usize,
    pub len: usize,
    pub ends: bool,
}

// Opens a stream of packets of at most `limit` bytes each.
#[tactic(auto, unfolding(crate::specs::Stream::opening))]
pub fn opening(limit: usize) -> Result<Stream, Shut<Stream>>
    ensures { opened_said result ≡ opening limit }
{
    let stream = Stream {
        limit,
        taken: 0,
        left: 0,
        got: 0,
        first: 0,
        second: 0,
        third: 0,
        number: 0,
        full: false,
        closed: false,
    };
    if limit == 0 || MAX_LIMIT < limit {
        return Err(Shut {
            why: Refusal::BadLimit,
            state: close(stream),
        });
    }
    Ok(stream)
}

// The next chunk has this number.
pub fn renumber(mut stream: Stream, number: u8) -> Stream
    ensures { result ≡ renumbered stream number }
{
    stream.number = number;
    stream
}

// Takes lent bytes up to one chunk's end, header bytes included. Unless all are used the rest is to be lent again.
#[tactic(auto, unfolding(crate::specs::Stream::pass))]
pub fn pass(stream: Stream, src: &[u8]) -> Decoded<Piece, Stream>
    ensures { done_of result ≡ pass largest stream src.now }
{
    if stream.closed {
        return refuse(Refusal::Closed, stream);
    }
    if src.is_empty() {
        return Decoded {
            answer: Ok(None),
            used: 0,
            next: stream,
        };
    }
    if stream.left == 0 {
        return header(stream, src);
    }
    payload(stream, 0, src.len())
}
