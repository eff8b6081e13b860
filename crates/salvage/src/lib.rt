// Damaged captures of plain chunks: which stretches of one can be read, and which are lost.
//
// `salvage` reads a capture from its first byte, takes whole chunks until it comes to a bad place, looks behind that for the next
// place from which three whole chunks follow, and goes on from there. It writes each stretch to a lent list as four numbers: 1 for
// good or 0 for lost, the offset, the bytes, and the packets or the refusal's number (8 for a cut end). All of them are
// written, or none and 6. `stretches` answers how many there are. Payloads are passed over, and each byte of a lost stretch is
// looked at a few times at the most, so both take time by the capture's length alone.
#![tactic(auto)]

ghost use Rattle.refusal.specs.Said.{said_of};
ghost use Rattle.std.specs.Prelude.{◌≡◌, ◌+◌, ◌*◌, ◌<◌, ◌≤◌, length, drop};
ghost use Rattle.std.specs.Int.{from_bool};
ghost use Rattle.wire.specs.Room.{patch};
ghost use Rattle.salvage.specs.Salvage.{chunk_at, runs, run_said, why_of, given, starts_at, to_start, stretches, numbers, counted, Salvages};
ghost use Rattle.salvage.specs.SalvageLaws.{round_of, round_said, shown, some, four};

use chunk::MAX_PAYLOAD_LEN;
use refusal::{Refusal, number_of};
use wire::inner::le;

// What is read on from a start: packets and bytes, and why it ends, if not at the capture's end.
#[derive(Clone, Copy)]
struct Run {
    packets: usize,
    bytes: usize,
    why: Option<Refusal>,
}

impl Run {
    // The refusal's number, or 0 at the capture's end.
    fn number(self) -> u8
        ensures { result ≡ why_of self.why }
    {
        self.why.map_or(0, number_of)
    }
}

// A run, and the bytes that are lost behind it.
#[derive(Clone, Copy)]
struct Round {
    run: Run,
    lost: usize,
}

// A capture, or what is left of one from a place on, and the limit of its payloads.
#[derive(Clone, Copy)]
struct Capture<'a> {
    bytes: &'a [u8],
    limit: usize,
}

impl<'a> Capture<'a> {
    // What is left behind so many bytes.
    fn after(self, n: usize) -> Capture<'a>
        requires { n ≤ length self.bytes.now }
        ensures bytes { result.bytes.now ≡ drop n self.entry.bytes.now }
        ensures limit { result.limit ≡ self.entry.limit }
    {
        Capture {
            bytes: &self.bytes[n..],
            limit: self.limit,
        }
    }

    // The bytes of the chunk in front. Its payload is not looked at.
    #[tactic(auto, using(crate::proofs::Steps::chunk_rules))]
    fn chunk(self, expected: u8) -> Result<usize, Refusal>
        ensures { said_of result ≡ chunk_at self.entry.limit expected self.entry.bytes.now }
    {
        let [_, _, _, number, payload @ ..] = self.bytes else {
            return Err(Refusal::Short);
        };
        let len = le(self.bytes, 0, 3) as usize;
        if self.limit < len {
            return Err(Refusal::TooLarge);
        }
        if payload.len() < len {
            return Err(Refusal::Short);
        }
        if *number != expected {
            return Err(Refusal::OutOfSync);
        }
        Ok(len + 4)
    }

    // The number of the chunk in front, as it stands there. Where its header is cut no number matters.
    fn number(self) -> u8
        ensures { result ≡ given self.entry.bytes.now }
    {
        self.bytes.get(3).copied().unwrap_or(0)
    }

    // Chunks from the front on, `most` of them at the most, until one is bad or the capture ends.
    #[tactic(auto, using(crate::proofs::Steps::run_rules))]
    fn run(self, most: usize) -> Run
        ensures { run_said result ≡ runs most self.entry.limit (given self.entry.bytes.now) self.entry.bytes.now }
    {
        let mut run = Run {
            packets: 0,
            bytes: 0,
            why: None,
        };
        let mut expected = self.number();
        for _ in 0..most {
            match self.after(run.bytes).chunk(expected) {
                Ok(n) => {
                    run.bytes += n;
                }
                Err(_) if run.bytes == self.bytes.len() => {
                    return run;
                }
                Err(why) => {
                    run.why = Some(why);
                    return run;
                }
            }
            run.packets += 1;
            expected = expected.wrapping_add(1);
        }
        run
    }

    // Whether three whole chunks follow.
    #[tactic(auto, using(crate::proofs::RunLaws::start_counts))]
    fn starts(self) -> bool
        ensures { result ≡ starts_at self.entry.limit self.entry.bytes.now }
    {
        self.run(3).packets == 3
    }

    // How many bytes come before the first start, or all of them.
    #[tactic(auto, using(crate::proofs::Steps::search_rules))]
    fn to_start(self) -> usize
        ensures { result ≡ to_start self.entry.limit self.entry.bytes.now }
    {
        for at in 0..self.bytes.len() {
            if self.after(at).starts() {
                return at;
            }
        }
        self.bytes.len()
    }

    // From a start to the next one.
    #[tactic(auto, using(crate::proofs::Steps::round_rules))]
    fn round(self) -> Round
        ensures { round_said result ≡ round_of self.entry.limit self.entry.bytes.now }
    {
        let run = self.run(self.bytes.len());
        let lost = match run.why {
            None => 0,
            Some(_) => 1 + self.after(run.bytes + 1).to_start(),
        };
        Round { run, lost }
    }

    // How many stretches there are.
    #[tactic(auto, using(crate::proofs::Steps::count_rules))]
    fn count(self) -> usize
        ensures { result ≡ length (stretches self.entry.limit self.entry.bytes.now) }
    {
        let mut n = 0;
        let mut at = 0;
        // each turn goes on by a round's bytes
        while at < self.bytes.len() {
            let round = self.after(at).round();
            n += round.stretches();
            at += round.run.bytes + round.lost;
        }
        n
    }

    // All stretches, where the list has room for them.
    #[tactic(auto, using(crate::proofs::Steps::write_rules))]
    fn write(self, out: &mut [usize])
        requires { 4 * length (stretches self.limit self.bytes.now) ≤ length out.old }
        ensures { out.new ≡ patch out.old 0 (numbers (stretches self.entry.limit self.entry.bytes.now)) }
    {
        let mut i = 0;
        let mut at = 0;
        // each turn goes on by a round's bytes
        while at < self.bytes.len() {
            let round = self.after(at).round();
            i = round.put(out, i, at);
            at += round.run.bytes + round.lost;
        }
    }
}

impl Round {
    // How many stretches it has: one of zero bytes does not count.
    #[tactic(auto, unfolding(crate::specs::SalvageLaws::some))]
    fn stretches(self) -> usize
        ensures { result ≡ some self.run.bytes + some self.lost }
    {
        usize::from(0 < self.run.bytes) + usize::from(0 < self.lost)
    }

    // Its stretches in the list, and the place behind them.
    #[tactic(auto, using(crate::proofs::PutLaws::numbers_length))]
    fn put(self, out: &mut [usize], i: usize, at: usize) -> usize
        requires { (i + length (numbers (shown at (round_said self))) ≤ length out.old) × (at + self.run.bytes < 0x8000_0000_0000_0000) }
        ensures { (result ≡ i + length (numbers (shown at (round_said self))))
            × (out.new ≡ patch out.old i (numbers (shown at (round_said self)))) }
    {
        let good = Stretch {
            good: true,
            offset: at,
            bytes: self.run.bytes,
            last: self.run.packets,
        };
        let lost = Stretch {
            good: false,
            offset: at + self.run.bytes,
            bytes: self.lost,
            last: usize::from(self.run.number()),
        };
        let next = good.put(out, i);
        lost.put(out, next)
    }
}

// A stretch as the list has it: its place, and its packets or the refusal's number.
#[derive(Clone, Copy)]
struct Stretch {
    good: bool,
    offset: usize,
    bytes: usize,
    last: usize,
}

impl Stretch {
    // Its numbers in the list, and the place behind them. A stretch of zero bytes is not written.
    #[tactic(auto, using(crate::proofs::Steps::put_rules))]
    fn put(self, out: &mut [usize], i: usize) -> usize
        requires { i + length (four (from_bool self.good) self.offset self.bytes self.last) ≤ length out.old }
        ensures { (result ≡ i + length (four (from_bool self.good) self.offset self.bytes self.last))
            × (out.new ≡ patch out.old i (four (from_bool self.good) self.offset self.bytes self.last)) }
    {
        if self.bytes == 0 {
            return i;
        }
        out[i..i + 4].copy_from_slice(&[
            usize::from(self.good),
            self.offset,
            self.bytes,
            self.last,
        ]);
        i + 4
    }
}

// ---- the entries

// How many stretches a capture has, for a caller who asks before it lends the list: each one takes four numbers.
#[tactic(auto, unfolding(crate::specs::Salvage::counted))]
pub fn stretches(limit: usize, capture: &[u8]) -> Result<usize, Refusal>
    ensures { said_of result ≡ counted limit capture.now }
{
    if limit == 0 || MAX_PAYLOAD_LEN <= limit {
        return Err(Refusal::BadLimit);
    }
    let whole = Capture {
        bytes: capture,
        limit,
    };
    Ok(whole.count())
}

// Writes the stretches of a capture to the front of the list, and answers how many they are.
#[tactic(auto, using(crate::proofs::EndLaws::salvage_refused))]
pub fn salvage(limit: usize, capture: &[u8], out: &mut [usize]) -> Result<usize, Refusal>
    ensures { Salvages limit capture.now out.old result out.new }
{
    let n = stretches(limit, capture)?;
    if out.len() / 4 < n {
        return Err(Refusal::NoRoom);
    }
    let whole = Capture {
        bytes: capture,
        limit,
    };
    whole.write(out);
    Ok(n)
}
