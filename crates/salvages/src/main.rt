// The salvage of damaged captures at work. First the reports of the captures that W12 speaks of. Then every damage to a short
// stream, whose numbers go over 255: each byte changed to each other value, each byte lost, each byte doubled. The stretches of each
// must lie end to end from its first byte to its end, and chunk's reader must find in each good one as many packets as the report
// says, and use all its bytes.
#![tactic(auto)]

ghost use Rattle.std.specs.Prelude.{◌<◌, length};

use chunk::PlainPacketCodec;
use std::alloc::{AllocError, Global};
use std::io;
use wire::part;

const LIMIT: usize = 61_440;

// ---- a report

// A capture's report in the list, four numbers for each stretch: as many as are counted without it.
fn report<'a>(capture: &[u8], list: &'a mut [usize]) -> Option<&'a [[usize; 4]]> {
    let asked = salvage::stretches(LIMIT, capture).ok()?;
    let n = salvage::salvage(LIMIT, capture, list).ok()?;
    let (stretches, _) = list.as_chunks();
    stretches.get(..n).filter(|_| asked == n)
}

// What a codec leaves of a good stretch when it has handed out so many packets, all of them into one buffer.
fn behind_packets<'a>(buf: &mut [u8], stretch: &'a [u8], packets: usize) -> Option<&'a [u8]> {
    let first = chunk::opening(LIMIT).ok()?;
    let mut got = chunk::Decoded {
        answer: Ok(None),
        used: 0,
        next: PlainPacketCodec {
            number: *stretch.get(3)?,
            ..first
        },
    };
    let mut rest = stretch;
    for _ in 0..packets {
        got = chunk::decode(buf, got.next, rest);
        if !matches!(got.answer, Ok(Some(_))) {
            return None;
        }
        rest = rest.get(got.used..)?;
    }
    Some(rest)
}

// ---- what was found

// What was found over all captures of a kind.
#[derive(Clone, Copy, Default)]
struct Tally {
    wrong: bool,
    captures: usize,
    stretches: usize,
    packets: usize,
    lost: usize,
}

impl Tally {
    // A capture and its report. Each stretch has a byte or more and begins where the one before it ended, the last ends with the capture,
    // and a good one is read. All captures share the list and the buffer.
    fn add(&mut self, list: &mut [usize], buf: &mut [u8], capture: &[u8]) {
        self.captures = self.captures.saturating_add(1);
        let Some(stretches) = report(capture, list) else {
            self.wrong = true;
            return;
        };
        let mut at = 0usize;
        for &[good, offset, bytes, last] in stretches {
            let here = part(capture, offset, bytes);
            self.wrong |= offset != at || bytes == 0 || here.len() != bytes;
            at = offset.saturating_add(bytes);
            self.stretches = self.stretches.saturating_add(1);
            if good == 1 {
                self.packets = self.packets.saturating_add(last);
                self.wrong |= behind_packets(buf, here, last).is_none_or(|rest| !rest.is_empty());
            } else {
                self.lost = self.lost.saturating_add(bytes);
            }
        }
        self.wrong |= at != capture.len();
    }

    // A line that can't be written is passed over: what is counted does not depend on it.
    fn say(self, rt: &impl Print, what: &str) {
        let Tally {
            wrong,
            captures,
            stretches,
            packets,
            lost,
        } = self;
        let verdict = if wrong { "WRONG" } else { "right" };
        let _ = print!(rt;
            "{what}: captures {captures}, stretches {stretches}, packets {packets}, "
        );
        let _ = println!(rt; "bytes lost {lost}: {verdict}");
    }
}

// A capture that W12 speaks of, with its report.
fn example(rt: &impl Print, what: &str, capture: &[u8]) {
    let mut list = [0; 256];
    for [good, offset, bytes, last] in report(capture, &mut list).unwrap_or_default() {
        let kind = if *good == 1 { "good" } else { "lost" };
        let _ = println!(rt; "{kind} {offset} {bytes} {last}");
    }
    let mut tally = Tally::default();
    tally.add(&mut list, &mut [0; LIMIT], capture);
    tally.say(rt, what);
}

// ---- damages

// A stream with other bytes in place of the one at a place.
fn damaged(alloc: Global, stream: &[u8], at: usize, bytes: &[u8]) -> Result<Vec<u8>, AllocError>
    requires { at < length stream.now }
{
    [&stream[..at], bytes, &stream[at + 1..]].concat(alloc)
}

fn run_damages(rt: &(impl AllocGlobal + Print), stream: &[u8]) -> io::Result<()> {
    let alloc = rt.alloc();
    let mut list = [0; 256];
    let mut buf = [0; LIMIT];
    let mut changed = Tally::default();
    let mut lost = Tally::default();
    let mut doubled = Tally::default();
    for at in 0..stream.len() {
        let byte = stream[at];
        let mut capture = Vec::from_slice(alloc, stream)?;
        for by in 1..=255 {
            if let Some(here) = capture.get_mut(at) {
                *here = byte.wrapping_add(by);
            }
            changed.add(&mut list, &mut buf, &capture);
        }
        lost.add(&mut list, &mut buf, &damaged(alloc, stream, at, b"")?);
        doubled.add(
            &mut list,
            &mut buf,
            &damaged(alloc, stream, at, &[byte, byte])?,
        );
    }
    changed.say(rt, "each byte changed");
    lost.say(rt, "each byte lost");
    doubled.say(rt, "each byte doubled");
    Ok(())
}

fn main(rt: HostRuntime) -> io::Result<()> {
    let worked = b"\x01\0\0\0A\xFF\xFF\xFF\xFF\xFF\x01\0\0\x01B\x01\0\0\x02C\x01\0\0\x03D";
    example(&rt, "the worked one", worked);
    let out_of_sync = b"\0\0\0\0\0\0\0\x01\0\0\0\x03\0\0\0\x04\0\0\0\x05\0\0\0\x06";
    example(&rt, "out of sync", out_of_sync);
    let cut = b"\xFF\0\0\0\x01\0\0\x07A\x01\0\0\x08B\x01\0\0\x09C";
    example(&rt, "a cut end", cut);
    let stream =
        b"\x03\0\0\xFDabc\0\0\0\xFE\x01\0\0\xFFd\x05\0\0\0\0\0\0\0\x01\0\0\0\x01\x02\0\0\x02jk\x04\0\0\x03lmno";
    run_damages(&rt, stream)
}
