// The colours of a block of four by four texels, DXT and ATC, and DXT1's alphas, which stand among them (texture.rs; DXT3 and DXT5 by 2026-14).
#![tactic(auto)]

ghost use Rattle.std.specs.Prelude.{◌≡◌, true, cond, ltb, ◌+◌, ◌≤◌, ◌<◌, [], get_or};
ghost use Rattle.lists.specs.Lists.{tab};
ghost use Rattle.texels.specs.Texels.{half};
ghost use Rattle.alpha_blocks.specs.AlphaBlocks.{selector, word};
ghost use Rattle.colour_blocks.specs.ColourBlocks.{mixed3, dxt_palette, less_quarter3, atc_palette, chosen, dxt, atc, dxt1_alpha_of, dxt1_alpha};

use alpha_blocks::*;
use std::array;
use texels::*;

fn mix3(k: u32, n: u32, a: [u8; 3], b: [u8; 3]) -> [u8; 3]
    // Kept: as alpha_blocks::mix. (5a)
    requires { (0 < n) × (n ≤ 8) × (k ≤ n) }
    ensures { result ≡ mixed3 k n a b }
{
    array::from_fn(|i| mix(k, n, a[i], b[i]))
}

// Each channel less a quarter of another, at least 0.
fn lowered3(a: [u8; 3], b: [u8; 3]) -> [u8; 3]
    ensures { result ≡ less_quarter3 a b }
{
    array::from_fn(|i| a[i].saturating_sub(b[i] / 4))
}

// The eight bytes of a block's colours: two endpoints, then sixteen selectors of two bits.
#[derive(Clone, Copy, Debug, PartialEq, Eq, Hash)]
struct Colours {
    c0: u32,
    c1: u32,
    bits: u32,
}

impl From<&[u8; 8]> for Colours {
    ghost from_gives = { λ block r. (r.c0 ≡ half block.now 0) × (r.c1 ≡ half block.now 2) × (r.bits ≡ word block.now 4) };

    fn from(block: &[u8; 8]) -> Self {
        let [a, b, c, d, e, f, g, h] = *block;
        Colours {
            c0: u32::from(u16::from_le_bytes([a, b])),
            c1: u32::from(u16::from_le_bytes([c, d])),
            bits: u32::from_le_bytes([e, f, g, h]),
        }
    }
}

impl Colours {
    // Whether there are four colours, and not three and black.
    fn has_four(self, always: bool) -> bool
        ensures { result ≡ cond always true (ltb self.c1 self.c0) }
    {
        always || self.c0 > self.c1
    }

    fn dxt_palette(self, always: bool) -> [[u8; 3]; 4]
        ensures { result ≡ dxt_palette always self.c0 self.c1 }
    {
        let e0 = colour::<6>(self.c0);
        let e1 = colour::<6>(self.c1);
        if self.has_four(always) {
            [e0, e1, mix3(1, 3, e0, e1), mix3(2, 3, e0, e1)]
        } else {
            [e0, e1, mix3(1, 2, e0, e1), [0, 0, 0]]
        }
    }

    fn atc_palette(self) -> [[u8; 3]; 4]
        ensures { result ≡ atc_palette self.c0 self.c1 }
    {
        let e0 = colour::<5>(self.c0);
        let e1 = colour::<6>(self.c1);
        if self.c0 < 32768 {
            [e0, mix3(3, 8, e0, e1), mix3(5, 8, e0, e1), e1]
        } else {
            [[0, 0, 0], lowered3(e0, e1), e0, e1]
        }
    }

    // Each texel's colour, by its selector.
    fn chosen(self, palette: [[u8; 3]; 4]) -> [[u8; 3]; 16]
        ensures { result ≡ chosen palette self.bits }
    {
        let bits = self.bits;
        array::from_fn(
            |i: usize| -> [u8; 3]
                requires { i < 16 }
                ensures { result ≡ get_or palette (selector 2 bits i) [] }
            { palette[selector::<2>(bits, i) as usize] },
        )
    }

    #[tactic(auto, unfolding(crate::specs::ColourBlocks::dxt1_alpha_of))]
    fn dxt1_alpha(self, sel: u32) -> u8
        ensures { result ≡ dxt1_alpha_of self.c0 self.c1 sel }
    {
        if self.c0 <= self.c1 && sel == 3 {
            0
        } else {
            255
        }
    }

    fn dxt1_alphas(self) -> [u8; 16]
        ensures { result ≡ tab 16 (λ i. dxt1_alpha_of self.c0 self.c1 (selector 2 self.bits i)) }
    {
        array::from_fn(|i| self.dxt1_alpha(selector::<2>(self.bits, i)))
    }
}

// Kept: two lines each, the palette and the choice from it; one function would take the palette's maker as a closure. (2b)
#[tactic(auto, unfolding(crate::specs::ColourBlocks::dxt))]
pub fn dxt_rgb_block(always: bool, block: &[u8; 8]) -> [[u8; 3]; 16]
    ensures { result ≡ dxt always block.now 0 }
{
    let colours = Colours::from(block);
    colours.chosen(colours.dxt_palette(always))
}

// Kept: as dxt_rgb_block. (2b)
#[tactic(auto, unfolding(crate::specs::ColourBlocks::atc))]
pub fn atc_rgb_block(block: &[u8; 8]) -> [[u8; 3]; 16]
    ensures { result ≡ atc block.now 0 }
{
    let colours = Colours::from(block);
    colours.chosen(colours.atc_palette())
}

#[tactic(auto, unfolding(crate::specs::ColourBlocks::dxt1_alpha))]
pub fn dxt1_alpha_block(block: &[u8; 8]) -> [u8; 16]
    ensures { result ≡ dxt1_alpha block.now 0 }
{
    Colours::from(block).dxt1_alphas()
}
