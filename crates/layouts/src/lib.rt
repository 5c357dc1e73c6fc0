// The byte layout of a texture record, as it crosses the C boundary (docs/INTERFACE.md).
#![tactic(auto)]

ghost use Rattle.std.specs.Prelude.{◌≡◌, true, false, ℕ, ◌+◌, ◌*◌, ◌≤◌, ◌<◌, length, take, drop, MatchOption};
ghost use Rattle.lists.specs.Lists.{tab};
ghost use Rattle.layouts.specs.Words.{word, long};
ghost use Rattle.layouts.specs.Records.{read_level, codes_known, read_texture, read_of, level_bytes, rest_bytes, record_bytes, put_level, put_define, put_parameter};

use levels::{Filter, MinFilter, MipLevel, Record, Texture, Wrap};
use std::array;

// The bytes of a layout.
pub const SIZE: usize = 244;

// The N bytes at a place.
fn bytes_at<const N: usize>(b: &[u8], at: usize) -> [u8; N]
    requires { at + N ≤ length b.now }
    ensures { result ≡ take N (drop at b.now) }
{
    <[u8; N]>::try_from(&b[at..at + N]).unwrap()
}

// Four bytes, the low one first.
// Kept: replay's give 0 past an entry's end, which these need not test; std has no trait for `from_le_bytes` of each width. (2a)
pub fn word_at(b: &[u8], at: usize) -> u32
    requires { at + 4 ≤ length b.now } // Kept: the place is the caller's own sum; a type for a place in a slice would be made by this test for each use. (5a)
    ensures { result ≡ word b.now at }
{
    u32::from_le_bytes(bytes_at(b, at))
}

// Eight bytes, the low one first.
// Kept: as in `word_at`. (2a)
fn long_at(b: &[u8], at: usize) -> u64
    requires { at + 8 ≤ length b.now }
    ensures { result ≡ long b.now at }
{
    u64::from_le_bytes(bytes_at(b, at))
}

#[tactic(auto, unfolding(crate::specs::Records::read_level))]
fn level_at(b: &[u8; SIZE], i: usize) -> MipLevel
    requires { i < 11 }
    ensures { result ≡ read_level b.now i }
{
    let at = i * 20;
    MipLevel {
        present: word_at(b, at) != 0,
        place: long_at(b, at + 12) as usize,
        width: word_at(b, at + 4),
        height: word_at(b, at + 8),
    }
}

fn levels_at(b: &[u8; SIZE]) -> [MipLevel; Texture::LEVELS]
    ensures { result ≡ tab 11 (read_level b.now) }
{
    array::from_fn(|i| level_at(b, i))
}

// What a layout's four codes stand for.
// Kept: with a Texture in its place, levels would be made for a layout that is only told as it stands. (4j)
#[derive(Clone, Copy, Debug, PartialEq, Eq, Hash)]
struct Codes {
    min_filter: MinFilter,
    mag_filter: Filter,
    wrap_s: Wrap,
    wrap_t: Wrap,
}

impl Codes {
    #[tactic(auto, unfolding(crate::specs::Records::codes_known, crate::specs::Records::read_texture))]
    fn read(b: &[u8; SIZE]) -> Option<Self>
        ensures { MatchOption result (codes_known b.now ≡ false)
            (λ x.
            (codes_known b.now ≡ true) × (x.min_filter ≡ (read_texture b.now).min_filter) × (x.mag_filter ≡ (read_texture b.now).mag_filter)
            × (x.wrap_s ≡ (read_texture b.now).wrap_s) × (x.wrap_t ≡ (read_texture b.now).wrap_t)) }
    {
        Some(Codes {
            min_filter: MinFilter::try_from(word_at(b, 228)).ok()?,
            mag_filter: Filter::try_from(word_at(b, 232)).ok()?,
            wrap_s: Wrap::try_from(word_at(b, 236)).ok()?,
            wrap_t: Wrap::try_from(word_at(b, 240)).ok()?,
        })
    }
}

// The record that a layout holds.
#[tactic(auto, using(std::proofs::lemmas::Bool::Decides::nat_tests), unfolding(crate::specs::Records::read_of, crate::specs::Records::read_texture))]
pub fn read_record(b: &[u8]) -> Option<Texture>
    ensures { result ≡ read_of b.now }
{
    let b = <&[u8; SIZE]>::try_from(b).ok()?;
    let Codes {
        min_filter,
        mag_filter,
        wrap_s,
        wrap_t,
    } = Codes::read(b)?;
    Some(Texture {
        levels: levels_at(b),
        max_mipmap_level: long_at(b, 220) as usize,
        min_filter,
        mag_filter,
        wrap_s,
        wrap_t,
    })
}

// Whether levels 1 to 10 are absent.
fn is_lone(b: &[u8; SIZE]) -> bool
    ensures { result ≡ true → (k : ℕ) → 0 < k → k < 11 → word b.now (k * 20) ≡ 0 }
{
    (1..Texture::LEVELS).all(|i| word_at(b, i * 20) == 0)
}

// A layout that holds a record, told as it stands.
#[derive(Clone, Copy, Debug, PartialEq, Eq, Hash)]
pub struct Layout<'a> {
    pub bytes: &'a [u8; SIZE],
}

impl<'a> Layout<'a> {
    #[tactic(auto, using(std::proofs::lemmas::Bool::Decides::nat_tests), unfolding(crate::specs::Records::read_of))]
    pub fn new(b: &'a [u8]) -> Option<Self>
        ensures { MatchOption result (read_of b.now ≡ None) (λ x. (x.bytes.now ≡ b.now) × (read_of b.now ≡ Some (read_texture b.now))) }
    {
        let bytes = <&[u8; SIZE]>::try_from(b).ok()?;
        Codes::read(bytes)?;
        Some(Layout { bytes })
    }
}

impl Record for Layout<'_> {
    ghost texture = { λ x. read_texture x.bytes.now };

    // A record of level 0 alone, the usual texture without mipmaps, is told without a copy of the levels.
    // Kept: as the trait has it. (6b)
    fn is_valid(self, len: usize) -> bool {
        let b = self.bytes;
        if is_lone(b) {
            let m = self.image_level(0);
            return levels::does_fit(m, len) && long_at(b, 220) == 0;
        }
        let texture = Texture {
            levels: levels_at(b),
            max_mipmap_level: long_at(b, 220) as usize,
            ..Texture::new()
        };
        levels::is_valid(texture, len)
    }

    // It reads the one level that is asked for, where a Texture has all eleven read first: patch_level, at its bar of speed, goes by it.
    fn image_level(self, k: usize) -> MipLevel {
        if Texture::LEVELS <= k {
            return MipLevel::ABSENT;
        }
        let m = level_at(self.bytes, k);
        MipLevel {
            present: k == 0 || m.present,
            ..m
        }
    }
}

fn level_bytes(m: MipLevel) -> [u8; 20]
    ensures { result ≡ level_bytes m }
{
    let mut out = [0; 20];
    out[0] = u8::from(m.present);
    out[4..8].copy_from_slice(&m.width.to_le_bytes());
    out[8..12].copy_from_slice(&m.height.to_le_bytes());
    out[12..].copy_from_slice(&m.place.to_le_bytes());
    out
}

fn rest_bytes(texture: Texture) -> [u8; 24]
    ensures { result ≡ rest_bytes texture }
{
    let mut out = [0; 24];
    out[..8].copy_from_slice(&texture.max_mipmap_level.to_le_bytes());
    out[8..12].copy_from_slice(&u32::from(texture.min_filter).to_le_bytes());
    out[12..16].copy_from_slice(&u32::from(texture.mag_filter).to_le_bytes());
    out[16..20].copy_from_slice(&u32::from(texture.wrap_s).to_le_bytes());
    out[20..].copy_from_slice(&u32::from(texture.wrap_t).to_le_bytes());
    out
}

pub fn write_record(b: &mut [u8], texture: Texture)
    requires { length b.old ≡ 244 }
    ensures { b.new ≡ record_bytes texture }
{
    for (i, m) in texture.levels.iter().enumerate() {
        texture::copy_in(b, i * 20, &level_bytes(*m));
    }
    texture::copy_in(b, 220, &rest_bytes(texture));
}

// Puts a define of level k into a layout, where `texture` is the record that it leaves: the levels that do not stay, and the top level.
pub fn put_define(b: &mut [u8], k: usize, texture: Texture)
    requires { length b.old ≡ 244 }
    ensures { b.new ≡ put_define k texture b.old }
{
    for (i, m) in texture.levels.iter().enumerate() {
        if !texture::does_stay(k, i) {
            texture::copy_in(b, i * 20, &level_bytes(*m));
        }
    }
    texture::copy_in(b, 220, &texture.max_mipmap_level.to_le_bytes());
}

// Puts a parameter's value into a layout: nothing for a name without effect.
// Kept: a name is any number, as document 01 has it; texture's own enum for one has no place in a layout. (1m)
#[tactic(auto, using(std::proofs::lemmas::Bool::Decides::nat_tests), unfolding(crate::specs::Records::put_parameter))]
pub fn put_parameter(b: &mut [u8], pname: u32, value: u32)
    requires { length b.old ≡ 244 }
    ensures { b.new ≡ put_parameter pname value b.old }
{
    let at = match pname {
        consts::GL_TEXTURE_MIN_FILTER => 228,
        consts::GL_TEXTURE_MAG_FILTER => 232,
        consts::GL_TEXTURE_WRAP_S => 236,
        consts::GL_TEXTURE_WRAP_T => 240,
        _ => return,
    };
    texture::copy_in(b, at, &value.to_le_bytes());
}
