// Other programs' quotes.
ghost use Rattle.std.specs.Prelude.{◌≡◌};
ghost use Rattle.literal.specs.Checked.{checked, counted, answered, leaves, said};
ghost use Rattle.mishkeldur.specs.Face.{flag};
ghost use Rattle.mishkeldur.specs.Literals.{Judges};

use crate::flag;
use literal::Bad;
use refusal::{Refusal, number_of};

// What the checker answered, as a status: the number of bytes meant where it is 0, the place where it is a bad literal.
fn answer_status(a: Result<usize, Bad>, len: &mut usize, place: &mut usize) -> u8
    ensures { Judges (said a) len.old place.old result len.new place.new }
{
    match a {
        Ok(n) => {
            *len = n;
            0
        }
        Err(bad) => {
            if bad.why == Refusal::BadLiteral {
                *place = bad.place;
            }
            number_of(bad.why)
        }
    }
}

// How many bytes a literal means, by the server's mode NO_BACKSLASH_ESCAPES; or the place where it is none.
#[unsafe(no_mangle)]
pub extern "C" fn mk_literal_len(
    input: &[u8],
    no_backslash_escape: u8,
    len: &mut usize,
    place: &mut usize,
) -> u8
    ensures { Judges (counted (checked (flag no_backslash_escape) input.now))
        len.old place.old result len.new place.new }
{
    answer_status(
        literal::checked_len(input, flag(no_backslash_escape)),
        len,
        place,
    )
}

// The same, with the bytes meant at the front of dst.
#[unsafe(no_mangle)]
pub extern "C" fn mk_literal(
    dst: &mut [u8],
    input: &[u8],
    no_backslash_escape: u8,
    len: &mut usize,
    place: &mut usize,
) -> u8
    ensures { Judges (answered (checked (flag no_backslash_escape) input.now) dst.old)
        len.old place.old result len.new place.new
        × (dst.new ≡ leaves (checked (flag no_backslash_escape) input.now) dst.old) }
{
    answer_status(
        literal::checked(dst, input, flag(no_backslash_escape)),
        len,
        place,
    )
}
