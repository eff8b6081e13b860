// The planner and the judge at work. First every way to cut some hundreds of short lists, each judged twice, by the judge and by
// a plain re-count that is written apart here, and the fewest groups of those accepted against the planner's. Then proposals that
// nobody would make. Then the edges: exactly the limit and one over, 8,192 rows and 8,193, sums near 2^64, a list one short.
// Whatever differs is printed by its name.
#![tactic(auto)]

ghost use Rattle.std.specs.Prelude.{◌≡◌, ◌<◌, ◌≤◌, length};

use pack::MAX_ROWS;
use refusal::Refusal::{self, NoRoom, RowTooLong, TooManyRows};
use std::array;
use std::fmt::Debug;

// How many rows the short lists have at most.
const ROWS: usize = 12;

// What a list holds before the planner is asked: no end comes near it.
const MARK: u64 = 0x7654_3210_0000;

// An answer that is not the one that was due. A line that can't be written is passed over, here and below: what is counted does not
// depend on it.
fn expect<T: Copy + PartialEq + Debug>(rt: &impl Print, what: &str, got: T, due: T) {
    if got != due {
        let _ = println!(rt; "differs: {what} {got:?}");
    }
}

// ---- a case

// Rows, what every statement has before them, and how long it may be.
#[derive(Clone, Copy)]
struct Case<'a> {
    rows: &'a [u32],
    overhead: u64,
    limit: u64,
}

fn given(rows: &[u32], overhead: u64, limit: u64) -> Case<'_>
    ensures { result.rows.now ≡ rows.now }
{
    Case {
        rows,
        overhead,
        limit,
    }
}

impl<'a> Case<'a> {
    fn judge(self, proposal: &[u64]) -> Result<bool, Refusal> {
        pack::judge(self.rows, self.overhead, self.limit, proposal)
    }

    fn plan(self, ends: &mut [u64]) -> Result<usize, Refusal> {
        pack::plan(self.rows, self.overhead, self.limit, ends)
    }

    // How many groups the planner makes, with room for as many as there can be.
    fn groups(self) -> Result<usize, Refusal> {
        self.plan(&mut [MARK; MAX_ROWS])
    }

    // What the judge says of the rows in one group, of 8,192 at the most.
    fn whole(self) -> Result<bool, Refusal> {
        self.judge(&[self.rows.len().min(MAX_ROWS) as u64])
    }

    // ---- the re-count: it adds a group up, and then looks. No sum that it is asked for comes near the end of its type.

    fn is_group(self, group: &[u32]) -> bool {
        let between = group.len().saturating_sub(1) as u64;
        let bytes = group
            .iter()
            .fold(between, |sum, row| sum.saturating_add(u64::from(*row)));
        !group.is_empty() && bytes.saturating_add(self.overhead) <= self.limit
    }

    fn recount(self, proposal: &[u64]) -> bool {
        let mut from = 0;
        for end in proposal {
            let to = *end as usize;
            let group = self.rows.get(from..to);
            if !group.is_some_and(|group| self.is_group(group)) {
                return false;
            }
            from = to;
        }
        from == self.rows.len()
    }

    // Whether the re-count accepts a proposal. The judge must say the same.
    fn accepts(self, rt: &impl Print, proposal: &[u64]) -> bool {
        let right = self.recount(proposal);
        expect(rt, "the judge", self.judge(proposal), Ok(right));
        right
    }

    // ---- every way to cut

    // The fewest groups of all accepted cuts. Each row has a bit, and that of the last is set, since it always ends a group.
    fn fewest(self, rt: &impl Print) -> Option<usize>
        requires { length self.rows.now ≤ 12 }
    {
        let mut least: Option<usize> = None;
        let mut list = [MARK; ROWS];
        let all = 1u64 << self.rows.len();
        for bits in all / 2..all {
            let ends = cut(&mut list, bits);
            if self.accepts(rt, ends) {
                let n = ends.len();
                least = Some(least.unwrap_or(n).min(n));
            }
        }
        least
    }

    // A list that is one short for n groups gives 6, and is as it was.
    fn one_short(self, rt: &impl Print, list: &mut [u64], n: usize) {
        if let Some((_, short)) = list.get_mut(..n).unwrap_or_default().split_last_mut() {
            let said = self.plan(short);
            expect(rt, "a list one short", said, Err(NoRoom));
            let kept = list.iter().all(|end| *end == MARK);
            expect(rt, "its numbers", kept, true);
        }
    }

    // Every cut, and the plan: how many groups that has. There is none where a row is too long.
    fn try_cuts(self, rt: &impl Print) -> usize
        requires { length self.rows.now ≤ 12 }
    {
        let least = self.fewest(rt).ok_or(RowTooLong);
        let mut ends = [MARK; ROWS];
        let planned = self.plan(&mut ends);
        expect(rt, "the fewest groups", planned, least);
        let Ok(n) = planned else {
            return 0;
        };
        let right = self.accepts(rt, ends.get(..n).unwrap_or_default());
        expect(rt, "the plan", right, true);
        self.one_short(rt, &mut [MARK; ROWS], n);
        n
    }
}

// The ends that a number's bits stand for, in the front of a list that is lent: a group ends behind each row whose bit is set.
fn cut(list: &mut [u64; ROWS], bits: u64) -> &[u64] {
    let mut n = 0usize;
    for row in 0..ROWS as u64 {
        if bits >> row & 1 == 1 {
            if let Some(end) = list.get_mut(n) {
                *end = row + 1;
            }
            n = n.saturating_add(1);
        }
    }
    list.get(..n).unwrap_or_default()
}

// ---- short lists, each made out of its number by a small generator

fn draw(s: u16, n: u16, sides: u16) -> u16
    requires { 0 < sides }
    ensures { result < sides }
{
    let x = (u64::from(s) * 48_271 + u64::from(n) * 69_621 + 1) % 2_147_483_647;
    let y = (x % 65_536 * 32_768 + x / 65_536) % 2_147_483_647 * 48_271 % 2_147_483_647;
    (y / 64 % u64::from(sides)) as u16
}

fn drawn_rows(s: u16) -> [u32; ROWS] {
    array::from_fn(|i| u32::from(draw(s, 100 + i as u16, 13)))
}

fn drawn_case(rows: &[u32; ROWS], s: u16) -> Case<'_>
    ensures { length result.rows.now ≤ 12 }
{
    let overhead = u64::from(draw(s, 1, 9));
    let limit = 10 + u64::from(draw(s, 2, 40));
    given(&rows[..usize::from(s % 13)], overhead, limit)
}

fn run_cuts(rt: &impl Print) {
    let mut groups = 0usize;
    for s in 0..650 {
        let rows = drawn_rows(s);
        groups = groups.saturating_add(drawn_case(&rows, s).try_cuts(rt));
    }
    let _ = println!(rt; "650 lists, all cuts of each: groups {groups}");
}

// ---- proposals that nobody would make

fn odd_end(s: u16, k: u8, rows: usize) -> u64 {
    let k = u16::from(k);
    match draw(s, k + 200, 8) {
        0 => 0,
        1 => rows as u64,
        2 => u64::MAX,
        _ => u64::from(k + draw(s, k + 300, 4)),
    }
}

fn run_odd(rt: &impl Print) {
    let mut accepted = 0usize;
    for s in 0..4000 {
        let rows = drawn_rows(s);
        let case = drawn_case(&rows, s);
        let ends = [0, 1, 2].map(|k| odd_end(s, k, case.rows.len()));
        if case.accepts(rt, &ends[..usize::from(draw(s, 3, 4))]) {
            accepted = accepted.saturating_add(1);
        }
    }
    let _ = println!(rt; "4000 odd proposals: accepted {accepted}");
}

// ---- the edges

fn run_edges(rt: &impl Print) {
    // Rows of one byte each, and all but the last of them.
    let ones = [1; MAX_ROWS + 1];
    let most = &ones[..MAX_ROWS];
    // With the largest limit these take 2^45 - 1 bytes together, and then there is room for one alone.
    let tall = &[u32::MAX; MAX_ROWS];
    let exact = 0xFFFF_E000_0000_0000;
    let alone = 0xFFFF_FFFF_0000_0000;
    let top = u64::MAX;
    let planned = [
        ("two rows at the limit", given(&[3, 4], 2, 10), Ok(1)),
        ("two rows one over", given(&[3, 4], 2, 9), Ok(2)),
        ("a row at the limit", given(&[5], 2, 7), Ok(1)),
        ("a row one over", given(&[5], 2, 6), Err(RowTooLong)),
        ("empty rows at the limit", given(&[0, 0, 0], 0, 2), Ok(1)),
        ("empty rows one over", given(&[0, 0, 0], 0, 1), Ok(2)),
        ("empty rows and no room", given(&[0, 0, 0], 0, 0), Ok(3)),
        ("8,192 rows", given(most, 0, 16_383), Ok(1)),
        ("8,192 rows one over", given(most, 0, 16_382), Ok(2)),
        ("8,193 rows", given(&ones, 0, top), Err(TooManyRows)),
        ("tall rows", given(tall, 0, top), Ok(1)),
        ("tall rows exactly", given(tall, exact, top), Ok(1)),
        ("tall one over", given(tall, exact + 1, top), Ok(2)),
        ("each alone", given(tall, alone, top), Ok(8192)),
        ("too long", given(tall, alone + 1, top), Err(RowTooLong)),
        ("no room at all", given(tall, top, top), Err(RowTooLong)),
    ];
    let judged = [
        ("two rows judged", given(&[3, 4], 2, 10), Ok(true)),
        ("two judged one over", given(&[3, 4], 2, 9), Ok(false)),
        ("8,192 judged", given(most, 0, 16_383), Ok(true)),
        ("8,192 judged over", given(most, 0, 16_382), Ok(false)),
        ("8,193 judged", given(&ones, 0, top), Err(TooManyRows)),
        ("tall judged", given(tall, exact, top), Ok(true)),
        ("tall judged over", given(tall, exact + 1, top), Ok(false)),
        ("no room judged", given(tall, top, top), Ok(false)),
    ];
    for (what, case, due) in planned {
        expect(rt, what, case.groups(), due);
    }
    for (what, case, due) in judged {
        expect(rt, what, case.whole(), due);
    }
    given(tall, alone, top).one_short(rt, &mut [MARK; MAX_ROWS], 8192);
    let _ = println!(rt; "edges: {}", planned.len() + judged.len() + 1);
}

fn main(rt: HostRuntime) {
    run_cuts(&rt);
    run_odd(&rt);
    run_edges(&rt);
}
