// Blocks of four by four texels: what each format's bytes are, its colours and its alphas (texture.rs; DXT3 and DXT5 by 2026-14).
#![tactic(auto)]

ghost use Rattle.std.specs.Prelude.{◌≡◌, ◌+◌, ◌≤◌, length, take, drop};
ghost use Rattle.blocks.specs.Blocks.{opaque, block_bytes, is_dxt, always_four, alpha_bytes, colours_in, alphas_of, alphas_in};

use alpha_blocks::*;
use colour_blocks::*;

// The formats whose images are made of blocks. DXT3 and DXT5 stand last: between the others they slow down DXT1 and ATC (docs/BENCHMARKS.md).
#[derive(Clone, Copy, Debug, PartialEq, Eq, Hash)]
pub enum Block {
    Dxt1Rgb,
    Dxt1Rgba,
    AtcRgb,
    AtcExplicit,
    AtcInterpolated,
    Dxt3,
    Dxt5,
}

// How the alphas of a block are read: 255 throughout, by the colours' selectors, four bits each, or by selectors of their own.
#[derive(Clone, Copy, Debug, PartialEq, Eq, Hash)]
pub enum Alphas {
    Opaque,
    Selected,
    Explicit,
    Interpolated,
}

// The eight bytes of s from `at` on: a block's colours, or its alphas.
pub fn eight(s: &[u8], at: usize) -> &[u8; 8]
    requires { at + 8 ≤ length s.now }
    ensures { result.now ≡ take 8 (drop at s.now) }
{
    s[at..].first_chunk().unwrap()
}

#[tactic(auto, unfolding(crate::specs::Blocks::opaque, lists::specs::Lists::tab))]
fn opaque_block() -> [u8; 16]
    ensures { result ≡ opaque }
{
    [255u8; 16]
}

impl Block {
    // The bytes of a block.
    // Kept: texels::TexelFormat::bytes is another enum's table. (2c)
    pub fn bytes(self) -> usize
        ensures { result ≡ block_bytes self }
    {
        match self {
            Block::Dxt1Rgb | Block::Dxt1Rgba | Block::AtcRgb => 8,
            Block::AtcExplicit | Block::AtcInterpolated | Block::Dxt3 | Block::Dxt5 => 16,
        }
    }

    fn is_dxt(self) -> bool
        ensures { result ≡ is_dxt self }
    {
        matches!(
            self,
            Block::Dxt1Rgb | Block::Dxt1Rgba | Block::Dxt3 | Block::Dxt5
        )
    }

    // Whether a block has four colours, whatever the order of its endpoints.
    fn always_four(self) -> bool
        ensures { result ≡ always_four self }
    {
        matches!(self, Block::Dxt3 | Block::Dxt5)
    }

    // The bytes of a block before its colours, which are its last eight.
    pub fn alpha_bytes(self) -> usize
        ensures { (result ≡ alpha_bytes self) × (result + 8 ≡ block_bytes self) }
    {
        self.bytes() - 8
    }

    // How a format's alphas are read.
    fn alphas(self) -> Alphas
        ensures { result ≡ alphas_of self }
    {
        match self {
            Block::Dxt1Rgb | Block::AtcRgb => Alphas::Opaque,
            Block::Dxt1Rgba => Alphas::Selected,
            Block::AtcExplicit | Block::Dxt3 => Alphas::Explicit,
            Block::AtcInterpolated | Block::Dxt5 => Alphas::Interpolated,
        }
    }

    // The colours of a block, whose bytes follow its alphas'. Each decoder is called in one place, so that the compiler lays it into the walk.
    pub fn rgb(self, colours: &[u8; 8]) -> [[u8; 3]; 16]
        ensures { result ≡ colours_in self colours.now 0 }
    {
        if self.is_dxt() {
            return dxt_rgb_block(self.always_four(), colours);
        }
        atc_rgb_block(colours)
    }

    // The alphas of a block, from its first eight bytes. Each of their readers too is called in one place.
    pub fn alpha(self, first: &[u8; 8]) -> [u8; 16]
        ensures { result ≡ alphas_in (alphas_of self) first.now 0 }
    {
        match self.alphas() {
            Alphas::Opaque => opaque_block(),
            Alphas::Selected => dxt1_alpha_block(first),
            Alphas::Explicit => explicit_alpha_block(first),
            Alphas::Interpolated => interpolated_alpha_block(first),
        }
    }
}
