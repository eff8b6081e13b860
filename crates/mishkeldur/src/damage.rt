// Damaged captures.
ghost use Rattle.std.specs.Prelude.{◌≡◌};
ghost use Rattle.salvage.specs.Salvage.{stretches, numbers, counted, salvaged, left_in};
ghost use Rattle.mishkeldur.specs.Face.{status, holds};

use crate::give;

// How many stretches a damaged capture has.
#[unsafe(no_mangle)]
pub extern "C" fn mk_stretches(limit: usize, capture: &[u8], count: &mut usize) -> u8
    ensures { (result ≡ status (counted limit capture.now))
        × (count.new ≡ holds (counted limit capture.now) (λ n. n) count.old) }
{
    give(salvage::stretches(limit, capture), count)
}

// The stretches of a damaged capture, four numbers each, and how many there are.
#[unsafe(no_mangle)]
pub extern "C" fn mk_salvage(
    limit: usize,
    capture: &[u8],
    out: &mut [usize],
    count: &mut usize,
) -> u8
    ensures { (result ≡ status (salvaged limit capture.now out.old))
        × (out.new ≡ left_in (salvaged limit capture.now out.old)
        (numbers (stretches limit capture.now)) out.old)
        × (count.new ≡ holds (salvaged limit capture.now out.old) (λ n. n) count.old) }
{
    give(salvage::salvage(limit, capture, out), count)
}
