// Samples of a texture: nearest, linear, and mixed between two levels.
#![tactic(auto)]

ghost use Rattle.std.specs.Prelude.{◌≡◌, true, ◌+◌, ◌*◌, ◌≤◌, ◌<◌, length};
ghost use Rattle.levels.specs.Levels.{Fits, valid_of};
ghost use Rattle.mipmaps.specs.Mipmaps.{Within};
ghost use Rattle.sampler.specs.Texels.{texel_at, channels_of, packed_of, white, linear_byte, linear_texel, part_of, mix_byte, mix_texel};
ghost use Rattle.sampler.specs.Addresses.{index_of, filter_addresses, chosen_addresses, bytes_at};
ghost use Rattle.sampler.specs.Samples.{filter_texel, chosen_texel, sample_of, outcome_of, sample_call, Image, Readable, nearest_in, linear_in};

use answers::Refusal;
use coords::Side;
use detail::LevelTable;
use levels::{Filter, MipLevel, Texture, Wrap};
use mipmaps::{Chosen, Coordinates};
use std::array;

// Red, green, blue and alpha.
// Kept: Rgba has floats and ColorMask switches in these fields; one type over the three would turn each definition that reads .r into one over a type.
// No [u8; 4]: the definitions and stages read a texel's channels by name, .r to .a, which a list of four has not. (2d)
#[derive(Clone, Copy, Debug, PartialEq, Eq, Hash)]
pub struct Texel {
    pub r: u8,
    pub g: u8,
    pub b: u8,
    pub a: u8,
}

impl From<[u8; 4]> for Texel {
    ghost from_gives = { λ v x. x ≡ texel_at v 0 };

    // Kept: each type writes its own fields, as the trait asks: one impl for a type. (2c)
    #[tactic(auto, unfolding(crate::specs::Texels::texel_at))]
    fn from([r, g, b, a]: [u8; 4]) -> Texel {
        Texel { r, g, b, a }
    }
}

impl From<Texel> for [u8; 4] {
    ghost from_gives = { λ x v. v ≡ channels_of x };

    // Kept: as above. (2a)
    fn from(x: Texel) -> [u8; 4] {
        [x.r, x.g, x.b, x.a]
    }
}

// Red is the lowest byte.
impl From<Texel> for u32 {
    ghost from_gives = { λ x r. r ≡ packed_of x };

    fn from(x: Texel) -> u32 {
        u32::from_le_bytes(<[u8; 4]>::from(x))
    }
}

// The last step rounds half away from zero.
fn linear_byte(wx: f32, wy: f32, c00: u8, c10: u8, c01: u8, c11: u8) -> u8
    ensures { result ≡ linear_byte wx wy c00 c10 c01 c11 }
{
    let top = c00 as f32 + (c10 as f32 - c00 as f32) * wx;
    let bottom = c01 as f32 + (c11 as f32 - c01 as f32) * wx;
    channels::rounded_byte(top + (bottom - top) * wy)
}

fn linear_texel(wx: f32, wy: f32, c00: Texel, c10: Texel, c01: Texel, c11: Texel) -> Texel
    ensures { result ≡ linear_texel wx wy c00 c10 c01 c11 }
{
    let c00 = <[u8; 4]>::from(c00);
    let c10 = <[u8; 4]>::from(c10);
    let c01 = <[u8; 4]>::from(c01);
    let c11 = <[u8; 4]>::from(c11);
    Texel::from(array::from_fn(|k| linear_byte(wx, wy, c00[k], c10[k], c01[k], c11[k])))
}

// A level's texels, and its sides along s and t.
#[derive(Clone, Copy, Debug, PartialEq)]
struct LevelTexels<'a> {
    texels: &'a [u8],
    x: Side,
    y: Side,
    ghost image: { Image x.size y.size texels.now },
}

impl LevelTexels<'_> {
    // Where texel x, y begins.
    fn index(&self, x: u32, y: u32) -> usize
        requires { (x < self.now.x.size) × (y < self.now.y.size) }
        ensures { (result ≡ index_of self.now.x.size x y) × (result + 4 ≤ length self.now.texels.now) }
    {
        ((y * self.x.size + x) * 4) as usize
    }

    #[tactic(auto, unfolding(crate::specs::Texels::texel_at))]
    fn texel(&self, x: u32, y: u32) -> Texel
        requires { (x < self.now.x.size) × (y < self.now.y.size) }
        ensures { result ≡ texel_at self.now.texels.now (index_of self.now.x.size x y) }
    {
        let i = self.index(x, y);
        let texels = self.texels;
        Texel::from(array::from_fn(|k| texels[i + k]))
    }

    #[tactic(auto, using(coords::proofs::Sides::index_below))]
    fn nearest(&self, s: f32, t: f32) -> Texel
        ensures { result ≡ nearest_in self.now.texels.now self.now.x.size self.now.y.size self.now.x.wrap self.now.y.wrap s t }
    {
        self.texel(self.x.coord(s), self.y.coord(t))
    }

    #[tactic(auto, using(coords::proofs::Sides::axis_below))]
    fn linear(&self, s: f32, t: f32) -> Texel
        ensures { result ≡ linear_in self.now.texels.now self.now.x.size self.now.y.size self.now.x.wrap self.now.y.wrap s t }
    {
        let x = self.x.axis(s);
        let y = self.y.axis(t);
        let c00 = self.texel(x.first, y.first);
        let c10 = self.texel(x.second, y.first);
        let c01 = self.texel(x.first, y.second);
        let c11 = self.texel(x.second, y.second);
        linear_texel(x.weight, y.weight, c00, c10, c01, c11)
    }
}

// A level's texels are the part of the store that holds it.
fn sample_filter(
    store: &[u8],
    m: MipLevel,
    wrap_s: Wrap,
    wrap_t: Wrap,
    filter: Filter,
    s: f32,
    t: f32,
) -> Texel
    requires { (Fits (length store.now) m) × (0 < m.width) × (0 < m.height) }
    ensures { result ≡ filter_texel filter m s t (bytes_at store.now (filter_addresses filter m wrap_s wrap_t s t)) }
{
    let level = LevelTexels {
        texels: levels::level_texels(store, m),
        x: Side {
            size: m.width,
            wrap: wrap_s,
        },
        y: Side {
            size: m.height,
            wrap: wrap_t,
        },
    };
    match filter {
        Filter::Nearest => level.nearest(s, t),
        Filter::Linear => level.linear(s, t),
    }
}

fn mix_byte(weight: f32, a: u8, b: u8) -> u8
    ensures { result ≡ mix_byte weight a b }
{
    channels::rounded_byte(a as f32 + (b as f32 - a as f32) * weight)
}

// How much the next level weighs.
// Kept: channels::to_unit divides a byte by 255; one function for both would take the divisor and say less. (2a)
fn part_weight(part: u32) -> f32
    requires { part < 256 }
    ensures { result ≡ part_of part }
{
    part as f32 / 256.0
}

// A texel of a level and one of the next.
fn mix_texels(weight: f32, a: Texel, b: Texel) -> Texel
    ensures { result ≡ mix_texel weight a b }
{
    let a = <[u8; 4]>::from(a);
    let b = <[u8; 4]>::from(b);
    Texel::from(array::from_fn(|k| mix_byte(weight, a[k], b[k])))
}

// One loop over the levels, so that the filters stand there once and need no call.
fn sample_chosen(store: &[u8], texture: &Texture, chosen: Chosen, s: f32, t: f32) -> Texel
    requires readable { Readable (length store.now) texture.now }
    requires chosen_within { Within texture.now.max_mipmap_level chosen }
    ensures { result ≡ chosen_texel texture.now chosen s t (bytes_at store.now (chosen_addresses texture.now chosen s t)) }
{
    let count = 1 + usize::from(chosen.part.is_some());
    let wrap_s = texture.wrap_s;
    let wrap_t = texture.wrap_t;
    let mut lower = white_texel();
    let mut upper = white_texel();
    for m in &texture.levels[chosen.level..chosen.level + count] {
        lower = upper;
        upper = sample_filter(store, *m, wrap_s, wrap_t, chosen.filter, s, t);
    }
    match chosen.part {
        Some(part) => mix_texels(part_weight(part), lower, upper),
        None => upper,
    }
}

#[tactic(auto, unfolding(crate::specs::Texels::white))]
fn white_texel() -> Texel
    ensures { result ≡ white }
{
    Texel {
        r: 255,
        g: 255,
        b: 255,
        a: 255,
    }
}

// A sample of a record that is known to be valid, with the table lent: what a draw does at each pixel.
// Kept: public, and the caller holds the three apart: a draw has one store and one table, and a record for each stage. (5c)
pub fn sample_with_gradients(
    store: &[u8],
    table: &LevelTable,
    texture: &Texture,
    p: Coordinates,
) -> Texel
    // Kept: it speaks of the store and the record, which the caller holds apart. (5a)
    requires { valid_of (length store.now) texture.now ≡ true }
    ensures { result ≡ sample_of store.now texture.now p }
{
    let first = texture.levels[0];
    if first.width == 0 || first.height == 0 {
        return white_texel();
    }
    let min = texture.min_filter;
    let mag = texture.mag_filter;
    let chosen = mipmaps::chosen_levels(
        table,
        first.width,
        first.height,
        texture.max_mipmap_level,
        min,
        mag,
        p,
    );
    sample_chosen(store, texture, chosen, p.s, p.t)
}

// The operation: refusal 8, else the texel.
pub fn sample(store: &[u8], texture: Texture, p: Coordinates) -> Result<Texel, Refusal>
    ensures { outcome_of result ≡ sample_call store.now texture p }
{
    if !levels::is_valid(texture, store.len()) {
        return Err(Refusal::Record);
    }
    let table = LevelTable::new();
    Ok(sample_with_gradients(store, &table, &texture, p))
}
