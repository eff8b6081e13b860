// Moving bytes inside one slice.
ghost use Rattle.std.specs.Prelude.{◌≡◌, ◌+◌, ◌≤◌, length, take, drop};
ghost use Rattle.wire.specs.Room.{patch};

// The n bytes from a place on go to a place that lies no further behind. The library's `copy_within` copies each byte even where it
// stands there already, which is the common case of both callers.
#[tactic(auto, using(crate::proofs::Moves::moved, crate::proofs::Moves::patch_same))]
pub(crate) fn shift_left(s: &mut [u8], to: usize, from: usize, n: usize)
    requires { (to ≤ from) × (from + n ≤ length s.old) }
    ensures { s.new ≡ patch s.old to (take n (drop from s.old)) }
{
    if to != from {
        s.copy_within(from..from + n, to);
    }
}
