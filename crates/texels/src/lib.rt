// Texels of bytes and packed texels, decoded to red, green, blue and alpha, a byte each (texture.rs, decode_to_rgba).
#![tactic(auto)]

ghost use Rattle.std.specs.Prelude.{◌≡◌, true, false, ◌+◌, ◌*◌, ◌^◌, ◌≤◌, ◌<◌, length, MatchResult, ok_or};
ghost use Rattle.std.proofs.Math.Seq.{paste};
ghost use Rattle.lists.specs.Lists.{flat};
ghost use Rattle.answers.specs.Results.{answer_number};
ghost use Rattle.answers.specs.declared.Refusal.TheVariants.{Format};
ghost use Rattle.texels.specs.Image.{side_above};
ghost use Rattle.texels.specs.Texels.{expand, half, rgb, rgba565, rgba4444, rgba5551, texel_bytes, texel_at, nth_texel, format_of, format_bytes};
ghost use Rattle.texels.specs.Plain.{plain_check, plain_left};

pub mod image;

use answers::Refusal;
use consts::*;
use std::array;

// How the bytes of one texel are read.
#[derive(Clone, Copy, Debug, PartialEq, Eq, Hash)]
pub enum TexelFormat {
    Alpha,
    Luminance,
    LuminanceAlpha,
    Rgb,
    Rgba,
    Rgb565,
    Rgba4444,
    Rgba5551,
}

// The sides of an image, of up to 1,024 texels each.
#[derive(Clone, Copy, Debug, PartialEq, Eq, Hash)]
pub struct Sides {
    pub w: usize,
    pub h: usize,
    ghost wide: { w ≤ 1024 },
    ghost high: { h ≤ 1024 },
}

impl Sides {
    // The most texels of a side.
    pub const MAX: u32 = 1024;

    pub fn new(width: u32, height: u32) -> Result<Sides, Refusal>
        ensures { MatchResult result (λ s. (side_above width height ≡ false) × (s.w ≡ width) × (s.h ≡ height)) (λ why. (side_above width height ≡ true) × (why ≡ Refusal.Side)) }
    {
        if width > Sides::MAX || height > Sides::MAX {
            return Err(Refusal::Side);
        }
        Ok(Sides {
            w: width as usize,
            h: height as usize,
        })
    }

    // How many texels the image has.
    pub fn texels(self) -> usize
        ensures value { result ≡ self.h * self.w }
        ensures few { result ≤ 1048576 }
    {
        self.h * self.w
    }
}

// A channel of so many bits as eight, its high bits again below.
pub fn expand<const BITS: u32>(v: u32) -> u8
    ensures { result ≡ expand BITS v }
{
    let high = (v << 8u32.saturating_sub(BITS)) % 256;
    (high + high.unbounded_shr(BITS)) as u8
}

// Two bytes, the low one first.
pub fn half(s: &[u8], at: usize) -> u32
    requires { at + 2 ≤ length s.now }
    ensures { (result ≡ half s.now at) × (result < 65536) }
{
    u32::from(u16::from_le_bytes([s[at], s[at + 1]]))
}

// The colour of a packed texel with five bits of red and of blue, and GREEN between them.
pub fn colour<const GREEN: u32>(p: u32) -> [u8; 3]
    ensures { result ≡ rgb GREEN p }
{
    let green = p / 32;
    [
        expand::<5>(green.unbounded_shr(GREEN)),
        expand::<GREEN>(green),
        expand::<5>(p),
    ]
}

#[tactic(auto, using(crate::proofs::Expands::rgb_565))]
fn unpack_565(p: u32) -> [u8; 4]
    ensures { result ≡ rgba565 p }
{
    let [r, g, b] = colour::<6>(p);
    [r, g, b, 255]
}

#[tactic(auto, using(crate::proofs::Expands::four_bits))]
fn unpack_4444(p: u32) -> [u8; 4]
    ensures { result ≡ rgba4444 p }
{
    array::from_fn(|i| expand::<4>(p >> (12 - 4 * i)))
}

#[tactic(auto, using(crate::proofs::Expands::rgb_555, crate::proofs::Expands::five_bits))]
fn unpack_5551(p: u32) -> [u8; 4]
    ensures { result ≡ rgba5551 p }
{
    let [r, g, b] = colour::<5>(p / 2);
    [r, g, b, (p % 2 * 255) as u8]
}

impl TexelFormat {
    // The bytes that a texel takes.
    // Kept: blocks::Block::bytes is another enum's table. (2c)
    pub fn bytes(self) -> usize
        ensures { result ≡ texel_bytes self }
    {
        match self {
            TexelFormat::Alpha | TexelFormat::Luminance => 1,
            TexelFormat::LuminanceAlpha
            | TexelFormat::Rgb565
            | TexelFormat::Rgba4444
            | TexelFormat::Rgba5551 => 2,
            TexelFormat::Rgb => 3,
            TexelFormat::Rgba => 4,
        }
    }

    // The texel whose bytes stand in s from `at` on.
    pub fn read(self, s: &[u8], at: usize) -> [u8; 4]
        requires { at + texel_bytes self ≤ length s.now }
        ensures { result ≡ texel_at self s.now at }
    {
        match self {
            TexelFormat::Alpha => [255, 255, 255, s[at]],
            TexelFormat::Luminance => [s[at], s[at], s[at], 255],
            TexelFormat::LuminanceAlpha => [s[at], s[at], s[at], s[at + 1]],
            // Kept: an array of three would be made by from_fn to be taken apart again for the fourth byte. (3f)
            TexelFormat::Rgb => [s[at], s[at + 1], s[at + 2], 255],
            TexelFormat::Rgba => array::from_fn(|k| s[at + k]),
            TexelFormat::Rgb565 => unpack_565(half(s, at)),
            TexelFormat::Rgba4444 => unpack_4444(half(s, at)),
            TexelFormat::Rgba5551 => unpack_5551(half(s, at)),
        }
    }
}

// Four bytes stored one after the other.
pub fn put4(out: &mut [u8], at: usize, c: [u8; 4])
    // Kept: a type for four bytes at a place would be made for each texel and taken apart at once. (5a)
    requires { at + 4 ≤ length out.old }
    ensures { out.new ≡ paste out.old at c 4 }
{
    // Kept: copy_from_slice, which tests for an overlap, makes images of blocks 1.5 to 1.8 times as slow, and DXT1 slower than the Rust's. (3f, 4k)
    // With *out[at..].first_chunk_mut().unwrap() = c the check leaves the goal `returns` open.
    out[at] = c[0];
    out[at + 1] = c[1];
    out[at + 2] = c[2];
    out[at + 3] = c[3];
}

// What a pair of format and type codes stands for. A packed type is known under any format code.
impl TryFrom<(u32, u32)> for TexelFormat {
    type Error = Refusal;

    ghost try_from_gives = { λ codes r. r ≡ ok_or (format_of codes.0 codes.1) Format };

    // Kept: each type reads its own codes, as the trait asks: one impl for a type. (2c)
    #[tactic(auto, using(std::proofs::lemmas::Bool::Decides::nat_tests), unfolding(crate::specs::Texels::format_of, crate::specs::Texels::byte_format))]
    fn try_from(codes: (u32, u32)) -> Result<Self, Refusal> {
        match codes {
            (_, GL_UNSIGNED_SHORT_5_6_5) => Ok(TexelFormat::Rgb565),
            (_, GL_UNSIGNED_SHORT_4_4_4_4) => Ok(TexelFormat::Rgba4444),
            (_, GL_UNSIGNED_SHORT_5_5_5_1) => Ok(TexelFormat::Rgba5551),
            (GL_ALPHA, GL_UNSIGNED_BYTE) => Ok(TexelFormat::Alpha),
            (GL_LUMINANCE, GL_UNSIGNED_BYTE) => Ok(TexelFormat::Luminance),
            (GL_LUMINANCE_ALPHA, GL_UNSIGNED_BYTE) => Ok(TexelFormat::LuminanceAlpha),
            (GL_RGB, GL_UNSIGNED_BYTE) => Ok(TexelFormat::Rgb),
            (GL_RGBA, GL_UNSIGNED_BYTE) => Ok(TexelFormat::Rgba),
            _ => Err(Refusal::Format),
        }
    }
}

// 0 where the pair is unknown.
// Kept: what the C interface's tf_bytes_per_texel answers, of the guest's own codes. (1m, 1n)
pub fn bytes_per_texel(format: u32, ty: u32) -> usize
    ensures { result ≡ format_bytes (format_of format ty) }
{
    TexelFormat::try_from((format, ty)).map_or(0, |t| t.bytes())
}

fn fill(t: TexelFormat, s: &[u8], out: &mut [u8], count: usize)
    requires { (count * texel_bytes t ≤ length s.now) × (length out.old ≡ count * 4) }
    ensures { out.new ≡ flat count (nth_texel t s.now) }
{
    let bytes = t.bytes();
    // Kept: by index; over the chunks of chunks_exact_mut or as_chunks_mut, whose contracts don't say what out ends as, the goal `returns` stays open. (3d)
    for i in 0..count {
        put4(out, i * 4, t.read(s, i * bytes));
    }
}

// One loop for each kind of texel, so that the compiler sees which it is.
// Kept: one loop over any kind takes five to six times as long, for RGB longer than the Rust's.
pub fn decode_texels(t: TexelFormat, s: &[u8], out: &mut [u8], count: usize)
    requires { (count * texel_bytes t ≤ length s.now) × (length out.old ≡ count * 4) }
    ensures { out.new ≡ flat count (nth_texel t s.now) }
{
    match t {
        TexelFormat::Alpha => fill(TexelFormat::Alpha, s, out, count),
        TexelFormat::Luminance => fill(TexelFormat::Luminance, s, out, count),
        TexelFormat::LuminanceAlpha => fill(TexelFormat::LuminanceAlpha, s, out, count),
        TexelFormat::Rgb => fill(TexelFormat::Rgb, s, out, count),
        TexelFormat::Rgba => fill(TexelFormat::Rgba, s, out, count),
        TexelFormat::Rgb565 => fill(TexelFormat::Rgb565, s, out, count),
        TexelFormat::Rgba4444 => fill(TexelFormat::Rgba4444, s, out, count),
        TexelFormat::Rgba5551 => fill(TexelFormat::Rgba5551, s, out, count),
    }
}

// Decode plain.
// Kept: the guest's own numbers. A type for the pair of codes or the sides would ask of callers what the decode tells them by 14 and 9. (1m, 5c)
pub fn decode_to_rgba(
    s: &[u8],
    width: u32,
    height: u32,
    format: u32,
    ty: u32,
    out: &mut [u8],
) -> Result<(), Refusal>
    ensures number { answer_number result ≡ plain_check (format_of format ty) width height (length s.now) (length out.old) }
    ensures left { out.new ≡ plain_left (format_of format ty) width height s.now out.old }
{
    let t = TexelFormat::try_from((format, ty))?;
    let count = Sides::new(width, height)?.texels();
    if s.len() < count * t.bytes() {
        return Err(Refusal::Bytes);
    }
    if out.len() != count * 4 {
        return Err(Refusal::Output);
    }
    decode_texels(t, s, out, count);
    Ok(())
}
