// Rows packed into statements: a planner, and a judge who trusts nobody.
//
// A statement has a fixed overhead, its rows, and one separator byte between two of them; a limit says how long it may be.
// `plan` proposes where to cut, and `judge` accepts or rejects any proposal, whoever wrote it: a list of numbers, each the row
// after a group's last. The planner lets a row join the group while it fits, and no accepted proposal has fewer groups.
#![tactic(auto)]

ghost use Rattle.refusal.specs.Said.{said_of};
ghost use Rattle.std.specs.Prelude.{◌≡◌, ◌+◌, ◌≤◌, ◌<◌, false, length, drop, SomeIff};
ghost use Rattle.wire.specs.Room.{patch};
ghost use Rattle.pack.specs.Pack.{size, grouped, accepts, judged, plan, too_long, Plans};
ghost use Rattle.pack.specs.WalkLaws.{groups_of};

use refusal::Refusal;

// The most rows that either of the two looks at.
pub const MAX_ROWS: usize = 8192;

// What every statement has before its rows, and how long it may be.
#[derive(Clone, Copy)]
struct Statement {
    overhead: u64,
    limit: u64,
}

impl Statement {
    // So many bytes and some more, where they fit.
    fn within(self, used: u64, more: u64) -> Option<u64>
        ensures { SomeIff result (used + more ≤ self.limit) (used + more) }
    {
        used.checked_add(more).filter(|bytes| *bytes <= self.limit)
    }

    // The bytes of a group of one row, if that fits into a statement.
    fn opened(self, row: u32) -> Option<u64>
        ensures { SomeIff result (self.overhead + row ≤ self.limit) (self.overhead + row) }
    {
        self.within(self.overhead, u64::from(row))
    }

    // The bytes of a group that a row joins, if it fits into it: a separator stands before it. The open group fits, so one test of
    // the room that is left will do.
    fn joined(self, used: u64, row: u32) -> Option<u64>
        requires { used ≤ self.limit }
        ensures { SomeIff result (used + 1 + row ≤ self.limit) (used + 1 + row) }
    {
        let more = u64::from(row) + 1;
        if more <= self.limit - used {
            Some(used + more)
        } else {
            None
        }
    }

    // ---- the judge

    // The bytes of a group, if it has rows and they fit into one statement. The rows behind the first are added up by `within`: `joined` says the
    // same, and with it here the judge took two and a half times as long on one list of 1,000 rows.
    fn group_bytes(self, group: &[u32]) -> Option<u64>
        ensures { SomeIff result ((0 < length group.now) × (size self.overhead group.now ≤ self.limit)) (size self.overhead group.now) }
    {
        let (first, others) = group.split_first()?;
        let mut used = self.opened(*first)?;
        for row in others {
            used = self.within(used, u64::from(*row) + 1)?;
        }
        Some(used)
    }

    // Whether the next group, which begins with row `at` and is said to end before row `end`, is one.
    #[tactic(auto, using(crate::proofs::Groups::group))]
    fn is_group(self, rows: &[u32], at: usize, end: usize) -> bool
        requires { at ≤ length rows.now }
        ensures { result ≡ grouped self.overhead self.limit at (drop at rows.now) end }
    {
        at < end && end <= rows.len() && self.group_bytes(&rows[at..end]).is_some()
    }

    // Whether a proposal's groups are groups, and have all the rows.
    #[tactic(auto, using(crate::proofs::Groups::proposal))]
    fn accepts(self, rows: &[u32], proposal: &[u64]) -> bool
        ensures { result ≡ accepts self.overhead self.limit 0 rows.now proposal.now }
    {
        let mut at = 0;
        for end in proposal {
            let end = *end as usize;
            if !self.is_group(rows, at, end) {
                return false;
            }
            at = end;
        }
        at == rows.len()
    }

    // ---- the planner

    // The first walk: how many groups there are, or 16 for a row that fits into none.
    #[tactic(auto, using(crate::proofs::Groups::first))]
    fn count_groups(self, rows: &[u32]) -> Result<usize, Refusal>
        requires { 0 < length rows.now }
        ensures { said_of result ≡ groups_of self.overhead self.limit rows.now }
    {
        let mut used = self.opened(rows[0]).ok_or(Refusal::RowTooLong)?;
        let mut ended = 0;
        for row in &rows[1..] {
            let alone = self.opened(*row).ok_or(Refusal::RowTooLong)?;
            // No branch: where a group ends can't be foretold.
            let joined = self.joined(used, *row);
            ended += usize::from(joined.is_none());
            used = joined.unwrap_or(alone);
        }
        Ok(ended + 1)
    }

    // The second walk: each group's end, where there is room for all of them.
    #[tactic(auto, using(crate::proofs::Groups::second))]
    fn put_ends(self, rows: &[u32], ends: &mut [u64])
        requires { (0 < length rows.now) × (too_long self.overhead self.limit rows.now ≡ false)
            × (length (plan self.overhead self.limit rows.now) ≤ length ends.old) }
        ensures { ends.new ≡ patch ends.old 0 (plan self.overhead self.limit rows.now) }
    {
        let mut used = self.overhead + u64::from(rows[0]);
        let mut n = 0;
        for i in 1..rows.len() {
            used = match self.joined(used, rows[i]) {
                Some(more) => more,
                None => {
                    ends[n] = i as u64;
                    n += 1;
                    self.overhead + u64::from(rows[i])
                }
            };
        }
        ends[n] = rows.len() as u64;
    }
}

// ---- the entries

// Whether every row is in exactly one group, no group is empty and every group fits; 17 for more than 8,192 rows.
#[tactic(auto, unfolding(crate::specs::Pack::judged))]
pub fn judge(rows: &[u32], overhead: u64, limit: u64, proposal: &[u64]) -> Result<bool, Refusal>
    ensures { said_of result ≡ judged overhead limit rows.now proposal.now }
{
    if MAX_ROWS < rows.len() {
        return Err(Refusal::TooManyRows);
    }
    let statement = Statement { overhead, limit };
    Ok(statement.accepts(rows, proposal))
}

// Where to cut: each group's end in the front of the list, and how many there are; or 17, 16 or 6, and the list is as it was.
#[tactic(auto, using(crate::proofs::Groups::planner))]
pub fn plan(rows: &[u32], overhead: u64, limit: u64, ends: &mut [u64]) -> Result<usize, Refusal>
    ensures { Plans overhead limit rows.now ends.old result ends.new }
{
    if MAX_ROWS < rows.len() {
        return Err(Refusal::TooManyRows);
    }
    if rows.is_empty() {
        return Ok(0);
    }
    let statement = Statement { overhead, limit };
    let n = statement.count_groups(rows)?;
    if ends.len() < n {
        return Err(Refusal::NoRoom);
    }
    statement.put_ends(rows, ends);
    Ok(n)
}
