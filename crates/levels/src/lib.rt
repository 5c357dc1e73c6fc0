// A texture's record: eleven levels with their places in a texel store, the top level, filters and wraps.
// Anyone may hand in any record; `is_valid` tells which ones document 01 takes.
#![tactic(auto)]

ghost use Rattle.std.specs.Prelude.{◌≡◌, true, ◌+◌, ◌≤◌, ◌<◌, length, get_or, drop};
ghost use Rattle.lists.specs.Lists.{any, all};
ghost use Rattle.levels.specs.Codes.{min_filter_of, filter_of, wrap_of, min_code, mag_code, wrap_code};
ghost use Rattle.levels.specs.declared.Texture.{Texture};
ghost use Rattle.levels.specs.Levels.{absent, level_of, levels_of, size_of, texels_of, new_texture, complete, half, single, follows, top_of, overlap, overlaps, apart, ascending, fits, valid_levels, valid_of, Fits};

use answers::Refusal;
use texels::Sides;

#[derive(Clone, Copy, Debug, PartialEq, Eq, Hash)]
pub enum Filter {
    Nearest = consts::GL_NEAREST as isize,
    Linear = consts::GL_LINEAR as isize,
}

#[derive(Clone, Copy, Debug, PartialEq, Eq, Hash)]
pub enum MinFilter {
    Nearest = consts::GL_NEAREST as isize,
    Linear = consts::GL_LINEAR as isize,
    NearestMipmapNearest = consts::GL_NEAREST_MIPMAP_NEAREST as isize,
    LinearMipmapNearest = consts::GL_LINEAR_MIPMAP_NEAREST as isize,
    NearestMipmapLinear = consts::GL_NEAREST_MIPMAP_LINEAR as isize,
    LinearMipmapLinear = consts::GL_LINEAR_MIPMAP_LINEAR as isize,
}

#[derive(Clone, Copy, Debug, PartialEq, Eq, Hash)]
pub enum Wrap {
    Repeat = consts::GL_REPEAT as isize,
    ClampToEdge = consts::GL_CLAMP_TO_EDGE as isize,
}

// ---- the values' codes

impl TryFrom<u32> for Filter {
    type Error = Refusal;

    ghost try_from_gives = { λ code r. r ≡ filter_of code };

    // Kept: each type reads its own codes, as the trait asks: one impl for a type. (2c)
    #[tactic(auto, using(std::proofs::lemmas::Bool::Decides::nat_tests), unfolding(crate::specs::Codes::filter_of))]
    fn try_from(code: u32) -> Result<Self, Refusal> {
        match code {
            consts::GL_NEAREST => Ok(Filter::Nearest),
            consts::GL_LINEAR => Ok(Filter::Linear),
            _ => Err(Refusal::Code),
        }
    }
}

impl TryFrom<u32> for MinFilter {
    type Error = Refusal;

    ghost try_from_gives = { λ code r. r ≡ min_filter_of code };

    // Kept: each type reads its own codes, as the trait asks: one impl for a type. (2c)
    #[tactic(auto, using(std::proofs::lemmas::Bool::Decides::nat_tests), unfolding(crate::specs::Codes::min_filter_of))]
    fn try_from(code: u32) -> Result<Self, Refusal> {
        match code {
            consts::GL_NEAREST => Ok(MinFilter::Nearest),
            consts::GL_LINEAR => Ok(MinFilter::Linear),
            consts::GL_NEAREST_MIPMAP_NEAREST => Ok(MinFilter::NearestMipmapNearest),
            consts::GL_LINEAR_MIPMAP_NEAREST => Ok(MinFilter::LinearMipmapNearest),
            consts::GL_NEAREST_MIPMAP_LINEAR => Ok(MinFilter::NearestMipmapLinear),
            consts::GL_LINEAR_MIPMAP_LINEAR => Ok(MinFilter::LinearMipmapLinear),
            _ => Err(Refusal::Code),
        }
    }
}

impl TryFrom<u32> for Wrap {
    type Error = Refusal;

    ghost try_from_gives = { λ code r. r ≡ wrap_of code };

    // Kept: each type reads its own codes, as the trait asks: one impl for a type. (2c)
    #[tactic(auto, using(std::proofs::lemmas::Bool::Decides::nat_tests), unfolding(crate::specs::Codes::wrap_of))]
    fn try_from(code: u32) -> Result<Self, Refusal> {
        match code {
            consts::GL_REPEAT => Ok(Wrap::Repeat),
            consts::GL_CLAMP_TO_EDGE => Ok(Wrap::ClampToEdge),
            _ => Err(Refusal::Code),
        }
    }
}

impl From<Filter> for u32 {
    ghost from_gives = { λ f r. r ≡ mag_code f };

    // Kept: the trait asks for an impl for each type, and the cast is the conversion. (2a, 4e)
    fn from(f: Filter) -> u32 {
        f as u32
    }
}

impl From<MinFilter> for u32 {
    ghost from_gives = { λ f r. r ≡ min_code f };

    // Kept: the trait asks for an impl for each type, and the cast is the conversion. (2a, 4e)
    fn from(f: MinFilter) -> u32 {
        f as u32
    }
}

impl From<Wrap> for u32 {
    ghost from_gives = { λ w r. r ≡ wrap_code w };

    // Kept: the trait asks for an impl for each type, and the cast is the conversion. (2a, 4e)
    fn from(w: Wrap) -> u32 {
        w as u32
    }
}

// ---- the record

// `place` is the level's first byte in the store. The fields of an absent level are ignored, and so is level 0's flag.
// Kept: the C interface hands an absent level's other numbers back as they came, and an Option would lose them. (1e)
#[derive(Clone, Copy, Debug, PartialEq, Eq, Hash)]
pub struct MipLevel {
    pub present: bool,
    pub place: usize, // Kept: a record of the C interface, copied over the boundary, has a place in the store and cannot hold a loan of it. (6e)
    pub width: u32,
    pub height: u32,
}

impl MipLevel {
    // The longest side, in texels: that of any image.
    pub const MAX_SIDE: u32 = Sides::MAX;

    pub const ABSENT: MipLevel = MipLevel {
        present: false,
        place: 0,
        width: 0,
        height: 0,
    };
}

#[derive(Clone, Copy, Debug, PartialEq, Eq, Hash)]
pub struct Texture {
    pub levels: [MipLevel; Texture::LEVELS],
    pub max_mipmap_level: usize, // Kept: the record of the C interface has any number here; `is_valid` tells. (6e)
    pub min_filter: MinFilter,
    pub mag_filter: Filter,
    pub wrap_s: Wrap,
    pub wrap_t: Wrap,
}

impl Texture {
    // How many levels a texture has, with those that are absent.
    pub const LEVELS: usize = 11;

    // Level 0 is 0 by 0 at place 0.
    // Kept: its callers name it; `Default` would be a second name for the same record, and nothing here takes a `T: Default`. (4m)
    #[tactic(auto, unfolding(crate::specs::Levels::new_texture, crate::specs::Levels::levels_of))]
    pub fn new() -> Self
        ensures { result ≡ new_texture }
    {
        Texture {
            levels: kept_levels([MipLevel::ABSENT; Texture::LEVELS]),
            max_mipmap_level: 0,
            min_filter: MinFilter::NearestMipmapLinear,
            mag_filter: Filter::Linear,
            wrap_s: Wrap::Repeat,
            wrap_t: Wrap::Repeat,
        }
    }
}

// The levels with level 0's flag set: it is never absent.
#[tactic(auto, unfolding(crate::specs::Levels::levels_of))]
pub fn kept_levels(mut levels: [MipLevel; Texture::LEVELS]) -> [MipLevel; Texture::LEVELS]
    ensures { result ≡ levels_of levels }
{
    levels[0].present = true;
    levels
}

#[tactic(auto, unfolding(crate::specs::Levels::size_of))]
pub fn size_of(m: MipLevel) -> usize
    requires { (m.width ≤ 1024) × (m.height ≤ 1024) }
    ensures { result ≡ size_of m }
{
    (m.height as usize) * (m.width as usize) * 4
}

// The part of the store that holds a level.
#[tactic(auto, unfolding(crate::specs::Levels::texels_of))]
pub fn level_texels(store: &[u8], m: MipLevel) -> &[u8]
    requires { Fits (length store.now) m }
    ensures { result.now ≡ texels_of store.now m }
{
    let place = m.place;
    let end = place + size_of(m);
    &store[place..end]
}

// ---- the chain

#[tactic(auto, using(std::proofs::lemmas::Bool::Decides::nat_tests), unfolding(crate::specs::Levels::complete))]
pub fn is_complete(m: MipLevel) -> bool
    ensures { result ≡ complete m }
{
    m.present && 0 < m.width && 0 < m.height
}

#[tactic(auto, using(std::proofs::lemmas::Bool::Decides::nat_tests), unfolding(crate::specs::Levels::half))]
fn halved(n: u32) -> u32
    ensures { result ≡ half n }
{
    (n / 2).max(1)
}

#[tactic(auto, using(std::proofs::lemmas::Bool::Decides::nat_tests), unfolding(crate::specs::Levels::single))]
fn is_single(w: u32, h: u32) -> bool
    ensures { result ≡ single w h }
{
    w == 1 && h == 1
}

#[tactic(auto, using(std::proofs::lemmas::Bool::Decides::nat_tests), unfolding(crate::specs::Levels::follows))]
fn does_follow(w: u32, h: u32, m: MipLevel) -> bool
    ensures { result ≡ follows w h m }
{
    !is_single(w, h) && is_complete(m) && m.width == halved(w) && m.height == halved(h)
}

// The top level of the chain.
// Kept: tried as levels.array_windows::<2>().position(..).unwrap_or(LEVELS - 1): `returns`, that this is top_of levels, stays open. (3)
pub fn calculate_max_complete_mipmap_level(levels: [MipLevel; Texture::LEVELS]) -> usize
    ensures { result ≡ top_of levels }
{
    let first = levels[0];
    if !is_complete(first) {
        return 0;
    }
    let mut width = first.width;
    let mut height = first.height;
    for (level, next) in levels[1..].iter().enumerate() {
        if !does_follow(width, height, *next) {
            return level;
        }
        width = next.width;
        height = next.height;
    }
    Texture::LEVELS - 1
}

// ---- validity

// Kept: of the store the length is all that a level is held to. (6b)
#[tactic(auto, using(std::proofs::lemmas::Bool::Decides::nat_tests), unfolding(crate::specs::Levels::fits))]
pub fn does_fit(m: MipLevel, len: usize) -> bool
    ensures { result ≡ fits len m }
{
    if !m.present {
        return true;
    }
    if MipLevel::MAX_SIDE < m.width || MipLevel::MAX_SIDE < m.height {
        return false;
    }
    let size = size_of(m);
    size <= len && m.place <= len - size
}

// Whether n bytes at a and m bytes at b have a byte in common.
#[tactic(auto, using(std::proofs::lemmas::Bool::Decides::nat_tests), unfolding(crate::specs::Levels::overlap))]
fn do_overlap(a: usize, n: usize, b: usize, m: usize) -> bool
    ensures { result ≡ overlap a n b m }
{
    n != 0 && m != 0 && if a <= b { b - a < n } else { a - b < m }
}

// Whether all levels lie within a store of `len` bytes.
// Not inlined, here and at the pairs below: levels that are lent to a call stay as they lie, where LLVM would copy them once more, field by field.
// Kept: is_valid's own length, handed on. (6b)
#[inline(never)]
fn do_all_fit(levels: &[MipLevel; Texture::LEVELS], len: usize) -> bool
    ensures { result ≡ all (fits len) levels.now }
{
    levels.iter().all(|m| does_fit(*m, len))
}

// Levels that all lie within a store of `len` bytes.
// Kept: `len` is the store's length in bytes, no count of the levels. (6a)
#[derive(Clone, Copy, Debug, PartialEq, Eq, Hash)]
pub struct Stored {
    pub levels: [MipLevel; Texture::LEVELS],
    pub len: usize,
    ghost fit: { all (fits len) levels ≡ true },
}

impl Stored {
    // Whether two levels within the store overlap.
    #[tactic(auto, unfolding(crate::specs::Levels::overlaps))]
    fn overlap(&self, a: MipLevel, b: MipLevel) -> bool
        requires { (fits self.now.len a ≡ true) × (fits self.now.len b ≡ true) }
        ensures { result ≡ overlaps a b }
    {
        a.present && b.present && do_overlap(a.place, size_of(a), b.place, size_of(b))
    }

    // Whether m overlaps a level from `from` on.
    pub fn any_overlap(&self, from: usize, m: MipLevel) -> bool
        requires { (from ≤ 11) × (fits self.now.len m ≡ true) }
        ensures { result ≡ any (overlaps m) (drop from self.now.levels) }
    {
        self.levels[from..]
            .iter()
            .any(|other| self.overlap(m, *other))
    }

    #[inline(never)]
    fn are_pairs_apart(&self) -> bool
        ensures { result ≡ apart self.now.levels }
    {
        !self
            .levels
            .iter()
            .enumerate()
            .any(|(i, m)| self.any_overlap(i + 1, *m))
    }

    // Whether each kept level with bytes starts where those before it have ended: the usual case, told in one pass.
    fn are_ascending(&self) -> bool
        ensures { result ≡ ascending 0 self.now.levels }
    {
        let mut end: usize = 0;
        for m in &self.levels {
            if is_complete(*m) {
                if m.place < end {
                    return false;
                }
                end = m.place + size_of(*m);
            }
        }
        true
    }

    fn are_apart(&self) -> bool
        ensures { result ≡ apart self.now.levels }
    {
        self.are_ascending() || self.are_pairs_apart()
    }
}

// Whether a record is one that document 01 takes, over a store of `len` bytes: refusal 8 where it is not.
// Kept: public, and called by this name; of the store the length is all that a record is held to. (6b)
#[tactic(auto, unfolding(crate::specs::Levels::valid_of, crate::specs::Levels::valid_levels))]
pub fn is_valid(texture: Texture, len: usize) -> bool
    ensures { result ≡ valid_of len texture }
{
    let levels = kept_levels(texture.levels);
    if !do_all_fit(&levels, len) {
        return false;
    }
    let stored = Stored { levels, len };
    stored.are_apart()
        && texture.max_mipmap_level == calculate_max_complete_mipmap_level(stored.levels)
}

// A texture's record, however it is kept.
pub trait Record: Copy {
    ghost texture: { Self → Texture };

    // Whether it is valid over a store of `len` bytes.
    // Kept: of the store the length is all that a record is held to. (6b)
    fn is_valid(self, len: usize) -> bool
        ensures { result ≡ valid_of len (texture self) };

    // Level k: absent past the last.
    // Kept: an absent level is one whose flag is off, as the C interface has it, so that an Option would say it twice. (1n)
    fn image_level(self, k: usize) -> MipLevel
        ensures { result ≡ level_of (texture self) k };
}

impl Record for Texture {
    ghost texture = { λ t. t };

    // Kept: as the trait has it. (6b)
    fn is_valid(self, len: usize) -> bool {
        is_valid(self, len)
    }

    #[tactic(auto, unfolding(crate::specs::Levels::level_of))]
    fn image_level(self, k: usize) -> MipLevel {
        kept_levels(self.levels)
            .get(k)
            .copied()
            .unwrap_or(MipLevel::ABSENT)
    }
}
