// What other rooms build on and no host calls: a float's bits as a number, and the step over a value that has its length in front.
ghost use Rattle.refusal.specs.Said.{said_of};
ghost use Rattle.std.specs.Prelude.{◌≡◌};
ghost use Rattle.std.specs.Float.{binary32, binary64};
ghost use Rattle.std.specs.Float.Ieee.{to_bits};
ghost use Rattle.value.specs.Read.{end_in};
ghost use Rattle.value.specs.Steps.{led_body};

use refusal::Refusal;

// `to_bits` is not defined at a NaN: one that a caller made has the quiet pattern.
#[tactic(auto, using(crate::proofs::NumberLaws::nan_single))]
pub fn single_bits(x: f32) -> u32
    ensures { result ≡ to_bits binary32 x }
{
    if x.is_nan() { 0x7FC0_0000 } else { x.to_bits() }
}

#[tactic(auto, using(crate::proofs::NumberLaws::nan_double))]
pub fn double_bits(x: f64) -> u64
    ensures { result ≡ to_bits binary64 x }
{
    if x.is_nan() {
        0x7FF8_0000_0000_0000
    } else {
        x.to_bits()
    }
}

// The place behind the value at a place, by its type's step where that is no size.
#[tactic(auto, using(wire::specs::LenEncLaws::str_within, wire::specs::LenEncLaws::byte_str_within))]
pub fn skip_led(s: &[u8], at: usize, step: u8) -> Result<usize, Refusal>
    ensures { said_of result ≡ end_in (led_body step s.now at) }
{
    let body = match step {
        9 => wire::checked_eat_u8_str(s, at)?,
        10 => wire::checked_eat_lenenc_str(s, at)?,
        _ => return Err(Refusal::BadType),
    };
    Ok(body.at + body.len)
}
