// Rows packed into statements.
ghost use Rattle.std.specs.Prelude.{◌≡◌};
ghost use Rattle.pack.specs.Pack.{judged, plan, planned, leaves};
ghost use Rattle.mishkeldur.specs.Face.{status, holds, flag_no};

use crate::give;

// Where to cut: each group's end in the front of the list, and how many groups there are.
#[unsafe(no_mangle)]
pub extern "C" fn mk_plan(
    rows: &[u32],
    overhead: u64,
    limit: u64,
    ends: &mut [u64],
    groups: &mut usize,
) -> u8
    ensures { (result ≡ status (planned overhead limit rows.now ends.old))
        × (ends.new ≡ leaves (planned overhead limit rows.now ends.old)
        (plan overhead limit rows.now) ends.old)
        × (groups.new ≡ holds (planned overhead limit rows.now ends.old) (λ n. n) groups.old) }
{
    give(pack::plan(rows, overhead, limit, ends), groups)
}

// Whether a proposal is accepted, whoever made it, as 0 or 1.
#[unsafe(no_mangle)]
pub extern "C" fn mk_judge(
    rows: &[u32],
    overhead: u64,
    limit: u64,
    proposal: &[u64],
    accepted: &mut u8,
) -> u8
    ensures { (result ≡ status (judged overhead limit rows.now proposal.now))
        × (accepted.new ≡ holds (judged overhead limit rows.now proposal.now) (λ b. flag_no b) accepted.old) }
{
    give(
        pack::judge(rows, overhead, limit, proposal).map(u8::from),
        accepted,
    )
}
