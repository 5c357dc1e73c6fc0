// Compressed images: the size query and the decode (texture.rs, compressed_image_size and decode_compressed_to_rgba).
#![tactic(auto)]

ghost use Rattle.std.specs.Prelude.{◌≡◌, ◌*◌, ◌≤◌, length, ok_or};
ghost use Rattle.answers.specs.Results.{answer_number};
ghost use Rattle.answers.specs.declared.Refusal.TheVariants.{Format};
ghost use Rattle.texels.specs.Lent.{Same};
ghost use Rattle.compressed.specs.Compressed.{compressed_of, size_of, size_check, sized_bytes, size_answered, compressed_image, known_check, known_left, empty_check, compressed_check, compressed_left};

use answers::Refusal;
use block_images::{block_count, decode_blocks};
use blocks::Block;
use consts::*;
use palette_images::{IndexBits, decode_paletted};
use texels::image::Image;
use texels::{Sides, TexelFormat};

// What a compressed format's code stands for: blocks, or a palette, by the bits of an index and the kind of an entry.
#[derive(Clone, Copy, Debug, PartialEq, Eq, Hash)]
pub enum Compressed {
    Blocks(Block),
    Palette(IndexBits, TexelFormat),
}

impl TryFrom<u32> for Compressed {
    type Error = Refusal;

    ghost try_from_gives = { λ code r. r ≡ ok_or (compressed_of code) Format };

    // Kept: each type reads its own codes, as the trait asks: one impl for a type. (2c)
    #[tactic(auto, using(std::proofs::lemmas::Bool::Decides::nat_tests), unfolding(crate::specs::Compressed::compressed_of, crate::specs::Compressed::palette_of))]
    fn try_from(code: u32) -> Result<Self, Refusal> {
        Ok(match code {
            GL_COMPRESSED_RGB_S3TC_DXT1_EXT => Compressed::Blocks(Block::Dxt1Rgb),
            GL_COMPRESSED_RGBA_S3TC_DXT1_EXT => Compressed::Blocks(Block::Dxt1Rgba),
            GL_COMPRESSED_RGBA_S3TC_DXT3_EXT => Compressed::Blocks(Block::Dxt3),
            GL_COMPRESSED_RGBA_S3TC_DXT5_EXT => Compressed::Blocks(Block::Dxt5),
            GL_ATC_RGB_AMD => Compressed::Blocks(Block::AtcRgb),
            GL_ATC_RGBA_EXPLICIT_ALPHA_AMD => Compressed::Blocks(Block::AtcExplicit),
            GL_ATC_RGBA_INTERPOLATED_ALPHA_AMD => Compressed::Blocks(Block::AtcInterpolated),
            GL_PALETTE4_RGB8_OES => Compressed::Palette(IndexBits::Four, TexelFormat::Rgb),
            GL_PALETTE4_RGBA8_OES => Compressed::Palette(IndexBits::Four, TexelFormat::Rgba),
            GL_PALETTE4_R5_G6_B5_OES => Compressed::Palette(IndexBits::Four, TexelFormat::Rgb565),
            GL_PALETTE4_RGBA4_OES => Compressed::Palette(IndexBits::Four, TexelFormat::Rgba4444),
            GL_PALETTE4_RGB5_A1_OES => Compressed::Palette(IndexBits::Four, TexelFormat::Rgba5551),
            GL_PALETTE8_RGB8_OES => Compressed::Palette(IndexBits::Eight, TexelFormat::Rgb),
            GL_PALETTE8_RGBA8_OES => Compressed::Palette(IndexBits::Eight, TexelFormat::Rgba),
            GL_PALETTE8_R5_G6_B5_OES => Compressed::Palette(IndexBits::Eight, TexelFormat::Rgb565),
            GL_PALETTE8_RGBA4_OES => Compressed::Palette(IndexBits::Eight, TexelFormat::Rgba4444),
            GL_PALETTE8_RGB5_A1_OES => Compressed::Palette(IndexBits::Eight, TexelFormat::Rgba5551),
            _ => return Err(Refusal::Format),
        })
    }
}

impl Compressed {
    // The bytes of an image.
    #[tactic(auto, unfolding(crate::specs::Compressed::size_of))]
    fn size(self, sides: Sides) -> usize
        ensures { result ≡ size_of (Some self) sides.w sides.h }
    {
        match self {
            Compressed::Blocks(b) => block_count(sides.h) * block_count(sides.w) * b.bytes(),
            Compressed::Palette(bits, t) => bits.image_bytes(t, sides),
        }
    }

    // Kept: its self is a format, and that of the two of palette_images a palette. (5c)
    fn decode_image(self, s: &[u8], image: &mut Image)
        requires { size_of (Some self) image.old.sides.w image.old.sides.h ≤ length s.now }
        ensures drawn { image.new.out.now ≡ compressed_image (Some self) image.old.sides.w image.old.sides.h s.now }
        // Kept: a fact of the type cannot speak of the image as it was. (5b)
        ensures same { Same image.old image.new }
    {
        match self {
            Compressed::Blocks(b) => decode_blocks(b, s, image),
            Compressed::Palette(bits, t) => decode_paletted(bits, t, s, image),
        }
    }

    fn decode(self, s: &[u8], sides: Sides, out: &mut [u8]) -> Result<(), Refusal>
        ensures number { answer_number result ≡ known_check (Some self) sides.w sides.h (length s.now) (length out.old) }
        ensures left { out.new ≡ known_left (Some self) sides.w sides.h s.now out.old }
    {
        if s.len() < self.size(sides) {
            return Err(Refusal::Bytes);
        }
        if out.len() != sides.texels() * 4 {
            return Err(Refusal::Output);
        }
        let mut image = Image { out, sides };
        self.decode_image(s, &mut image);
        Ok(())
    }
}

// Size query.
// Kept: the guest's own numbers. A type for the format or the sides would ask of callers what the query tells them by 14 and 9. (1m, 5c)
pub fn compressed_image_size(format: u32, width: u32, height: u32) -> Result<usize, Refusal>
    ensures number { answer_number result ≡ size_check (compressed_of format) width height }
    ensures bytes { sized_bytes result ≡ size_answered (compressed_of format) width height }
{
    let sides = Sides::new(width, height)?;
    let f = Compressed::try_from(format)?;
    Ok(f.size(sides))
}

// A zero side decodes to nothing, whatever the format.
#[tactic(auto, unfolding(crate::specs::Compressed::empty_check))]
fn decode_empty(out: &[u8]) -> Result<(), Refusal>
    ensures { answer_number result ≡ empty_check (length out.now) }
{
    if out.is_empty() {
        Ok(())
    } else {
        Err(Refusal::Output)
    }
}

// Decode compressed.
// Kept: the guest's own numbers, as in the size query. (1m, 5c)
pub fn decode_compressed_to_rgba(
    s: &[u8],
    width: u32,
    height: u32,
    format: u32,
    out: &mut [u8],
) -> Result<(), Refusal>
    ensures number { answer_number result ≡ compressed_check (compressed_of format) width height (length s.now) (length out.old) }
    ensures left { out.new ≡ compressed_left (compressed_of format) width height s.now out.old }
{
    let sides = Sides::new(width, height)?;
    if width == 0 || height == 0 {
        return decode_empty(out);
    }
    Compressed::try_from(format)?.decode(s, sides, out)
}
