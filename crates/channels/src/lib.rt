// A colour channel as a byte and as a float from 0 to 1.
#![tactic(auto)]

ghost use Rattle.std.specs.Prelude.{◌≡◌, true, cond};
ghost use Rattle.std.specs.Float.Ieee as Ieee;
ghost use Rattle.floats.specs.Num.{zero32};
ghost use Rattle.channels.specs.Channel.{unit_of, byte_of, round_byte_of, held_of};

// v / 255
// Kept: sampler::part_weight divides by 256; one function for both would take the divisor and say less. (2a)
#[tactic(auto, unfolding(crate::specs::Channel::unit_of))]
pub fn to_unit(v: u8) -> f32
    ensures { result ≡ unit_of v }
{
    v as f32 / 255.0
}

// x where it is above 0, else 0: one instruction.
// Kept: with x.max(0.0) std might leave -0.0, which held_of makes 0; floats::max gives the first of two zeros (4d)
fn from_zero(x: f32) -> f32
    ensures { result ≡ cond (Ieee.lt zero32 x) x zero32 }
{
    floats::max(0.0, x)
}

// x within 0 and top, a NaN 0.
// Kept: floats::min and no y.min(top), of which std leaves open which of two equal numbers it is (4c, 4d)
fn held(x: f32, top: f32) -> f32
    requires { Ieee.lt zero32 top ≡ true }
    ensures { result ≡ held_of x top }
{
    floats::min(top, from_zero(x))
}

// (v.clamp(0.0, 1.0) * 255.0 + 0.5) as u8
// Kept: with floats::clamp and std's saturating_f32_to_u8 it took 6.9 ns a float for 2.1, and the bar is 1.65 of the Rust's 1.35 (4d)
// Kept: rounded_byte shares held and whole_part with it; what is left of the two differs (2e)
pub fn to_byte(v: f32) -> u8
    ensures { result ≡ byte_of v }
{
    let t = held(v, 1.0) * 255.0 + 0.5;
    rounding::whole_part::<8>(t) as u8
}

// x.round().clamp(0.0, 255.0) as u8: half of the whole part of 2x, and one.
// Kept: with rounding::round, floats::clamp and std's saturating_f32_to_u8 it took 13.7 ns a float for 8.6, four a linear sample, whose bar is 0.55 (4d)
pub fn rounded_byte(x: f32) -> u8
    ensures { result ≡ round_byte_of x }
{
    let t = held(x, 255.0) * 2.0;
    ((rounding::whole_part::<9>(t) + 1) / 2) as u8
}
