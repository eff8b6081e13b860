// The report of a damaged capture of plain chunks. Standard input is the capture, of which at most 65,536 bytes are read. Each
// line of standard output is a stretch, its fields parted by tabs: `good`, offset, bytes, packets; or `lost`, offset, bytes, and
// the number of the refusal that began it. Of a longer capture the first 65,536 bytes are reported, and standard error says so.
#![tactic(auto)]

use files::read_full;
use refusal::number_of;
use std::io::Read;

const LIMIT: usize = 61_440;

// How many bytes of a capture are reported.
const MOST: usize = 65_536;

// A line that can't be written is passed over, and the report goes on.
fn report(rt: &(impl Eprint + Print), capture: &[u8]) {
    // 13 times the stretches are at most twice the bytes and 22 (salvage's law `few`), so here there are 10,084 at the most.
    let mut list = [0; 40_960];
    let n = match salvage::salvage(LIMIT, capture, &mut list) {
        Ok(n) => n,
        Err(why) => {
            let _ = eprintln!(rt; "captures: no report, refusal {}", number_of(why));
            return;
        }
    };
    for [good, offset, bytes, last] in list.as_chunks::<4>().0.iter().take(n) {
        let kind = if *good == 1 { "good" } else { "lost" };
        let _ = println!(rt; "{kind}\t{offset}\t{bytes}\t{last}");
    }
}

// Whether there is a byte behind those that were read.
fn goes_on(input: &mut impl Read) -> bool {
    let (more, _) = read_full(input, &mut [0]);
    more == 1
}

fn main(rt: HostRuntime) {
    let mut input = rt.reader();
    let mut buffer = [0; MOST];
    // A read that fails ends the capture.
    let (size, _) = read_full(&mut input, &mut buffer);
    if size == MOST && goes_on(&mut input) {
        let _ = eprintln!(rt; "captures: only the first 65,536 bytes are reported");
    }
    report(&rt, &buffer[..size]);
}
