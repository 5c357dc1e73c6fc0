// f32 to whole numbers: floor, ceil and round as floats.
#![tactic(auto)]

ghost use Rattle.std.specs.Prelude.{◌≡◌, ◌^◌, ◌<◌, ◌≤◌};
ghost use Rattle.std.specs.Float.Ieee as Ieee;
ghost use Rattle.rounding.specs.Rounding.{floor_of, ceil_of, round_of, Part};

// From 2^23 on an f32 has no place for a fraction, so a sum with it is rounded to a whole number.
// Kept: with std's floor a float takes 4.0 ns where this takes 2.6 and the Rust's 3.3: it would miss the bar of 1.0. (4d)
pub fn floor(x: f32) -> f32
    ensures { result ≡ floor_of x }
{
    if x > 0.0 {
        if x < 8388608.0 {
            let near = (x + 8388608.0) - 8388608.0;
            let past = if near > x { 1.0 } else { 0.0 };
            return near - past;
        }
        return x;
    }
    if x < 0.0 {
        let y = -x;
        if y < 8388608.0 {
            let near = (y + 8388608.0) - 8388608.0;
            let short = if near < y { 1.0 } else { 0.0 };
            return -(near + short);
        }
    }
    x
}

// Kept: one line by floor, as plain as x.ceil() and with floor's speed. (4d)
pub fn ceil(x: f32) -> f32
    ensures { result ≡ ceil_of x }
{
    -floor(-x)
}

// Kept: it says by round_of what std says in its own words, once for those who call it. (4d)
pub fn round(x: f32) -> f32
    ensures { result ≡ round_of x }
{
    x.round()
}

// The whole part of a t from 0 up to 2^W, by the last bits of a sum with 2^23.
// Kept: over 1,024 floats it takes 2.7 ns each where std's truncating_f32_to_u64 takes 5.8 and saturating_f32_to_u32 8.7: to_byte, all of which takes 2.1, would miss its bar. (4d)
pub fn whole_part<const W: u32>(t: f32) -> u32
    requires width { W ≤ 22 }
    requires part { Part W t }
    ensures value { result ≡ Ieee.to_unsigned W t }
    ensures few { result < 2 ^ W }
{
    let size = 1u32 << W;
    let r = t + 8388608.0;
    let up = if r - 8388608.0 > t { size - 1 } else { 0 };
    (f32::to_bits(r) % size + up) % size
}
