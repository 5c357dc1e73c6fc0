// The alphas of a block of four by four texels that has them apart: explicit and interpolated (texture.rs).
#![tactic(auto)]

ghost use Rattle.std.specs.Prelude.{◌≡◌, ◌+◌, ◌*◌, ◌/◌, ◌%◌, ◌^◌, ◌≤◌, ◌<◌, get_or};
ghost use Rattle.lists.specs.Lists.{tab};
ghost use Rattle.alpha_blocks.specs.AlphaBlocks.{mixed, ThreeBits, selector, explicit_alpha, alpha_palette, alpha_selectors, interpolated_alpha};

use std::array;
use texels::*;

// k n-ths of the way from a to b, rounded down.
pub fn mix(k: u32, n: u32, a: u8, b: u8) -> u8
    // Kept: a type for k n-ths would be made anew at each of fifteen calls, (Share { k: 1, n: 7 }).mix(a0, a1) for mix(1, 7, a0, a1). (5a)
    requires { (0 < n) × (n ≤ 8) × (k ≤ n) }
    ensures { result ≡ mixed k n a b }
{
    (((n - k) * u32::from(a) + k * u32::from(b)) / n) as u8
}

// The i-th of a run of selectors of K bits, the lowest bits first.
pub fn selector<const K: usize>(bits: u32, i: usize) -> u32
    requires { (K ≤ 8) × (K * i < 32) }
    ensures { (result ≡ selector K bits i) × (result < 2 ^ K) }
{
    (bits >> (K * i)) % (1 << K)
}

// The low half of a byte is the first of its two.
pub fn explicit_alpha_block(block: &[u8; 8]) -> [u8; 16]
    ensures { result ≡ explicit_alpha block.now 0 }
{
    array::from_fn(|i| expand::<4>(u32::from(block[i / 2]) >> (4 * (i % 2))))
}

fn alpha_palette(a0: u8, a1: u8) -> [u8; 8]
    ensures { result ≡ alpha_palette a0 a1 }
{
    if a0 > a1 {
        [
            a0,
            a1,
            // Kept: in the order of the definition; array::from_fn would tell the two ends from these by a match on i. (3f)
            mix(1, 7, a0, a1),
            mix(2, 7, a0, a1),
            mix(3, 7, a0, a1),
            mix(4, 7, a0, a1),
            mix(5, 7, a0, a1),
            mix(6, 7, a0, a1),
        ]
    } else {
        [
            a0,
            a1,
            // Kept: as the six above, with 0 and 255 to tell besides. (3f)
            mix(1, 5, a0, a1),
            mix(2, 5, a0, a1),
            mix(3, 5, a0, a1),
            mix(4, 5, a0, a1),
            0,
            255,
        ]
    }
}

// Three bytes, the low one first.
fn three_bytes(a: u8, b: u8, c: u8) -> u32
    ensures { (result ≡ a + b * 256 + c * 65536) × (result < 16777216) }
{
    u32::from_le_bytes([a, b, c, 0])
}

// The i-th of sixteen selectors, from two halves of eight.
fn half_selector(low: u32, high: u32, i: usize) -> u8
    requires { (low < 16777216) × (i < 16) }
    ensures { result ≡ selector 3 (high * 16777216 + low) i }
{
    if i < 8 {
        return selector::<3>(low, i) as u8;
    }
    selector::<3>(high, i - 8) as u8
}

// The one reader of an alpha block's sixteen selectors of three bits, from its last six bytes.
fn alpha_selectors(block: &[u8; 8]) -> [u8; 16]
    ensures { result ≡ alpha_selectors block.now 2 }
{
    let [_, _, a, b, c, d, e, f] = *block;
    let low = three_bytes(a, b, c);
    let high = three_bytes(d, e, f);
    array::from_fn(|i| half_selector(low, high, i))
}

fn chosen_alphas(palette: [u8; 8], selectors: [u8; 16]) -> [u8; 16]
    requires { ThreeBits selectors }
    ensures { result ≡ tab 16 (λ i. get_or palette (get_or selectors i 0) 0) }
{
    array::from_fn(|i| palette[usize::from(selectors[i])])
}

pub fn interpolated_alpha_block(block: &[u8; 8]) -> [u8; 16]
    ensures { result ≡ interpolated_alpha block.now 0 }
{
    chosen_alphas(alpha_palette(block[0], block[1]), alpha_selectors(block))
}
