// Texture objects: define_level, patch_level and set_parameter of texture.rs, over a record by value and a lent texel store.
// A call that is done gives the record as it leaves it; where one is refused, the caller's own stands.
#![tactic(auto)]

ghost use Rattle.std.specs.Prelude.{◌≡◌, true, false, ◌+◌, ◌*◌, ◌≤◌, ◌<◌, length, MatchResult, IfOk};
ghost use Rattle.std.proofs.Math.Seq.{paste};
ghost use Rattle.lists.specs.Lists.{all};
ghost use Rattle.answers.specs.Results.{answer_number};
ghost use Rattle.levels.specs.Levels.{level_at, fits, size_of};
ghost use Rattle.texture.specs.Define.{stays, stay, enterable, place_check, record_check, enter_level, define_record, record_after, outcome, define_of};
ghost use Rattle.texture.specs.Patch.{rectangle_check, patch_row, patch_store, patched, patch_of};
ghost use Rattle.texture.specs.Parameters.{parameter_of, setting, set_of};

use answers::Refusal;
use levels::{Filter, MinFilter, MipLevel, Record, Stored, Texture, Wrap};

// Whether level i stays where level k is defined.
#[tactic(auto, using(std::proofs::lemmas::Bool::Decides::nat_tests), unfolding(crate::specs::Define::stays))]
pub fn does_stay(k: usize, i: usize) -> bool
    ensures { result ≡ stays k i }
{
    i < k || k == 0 && 0 < i
}

// The levels that stay where level k is defined. A loop over them as they stand: an array made by from_fn takes three times as long.
fn staying(mut levels: [MipLevel; Texture::LEVELS], k: usize) -> [MipLevel; Texture::LEVELS]
    ensures { result ≡ stay levels k }
{
    for i in 0..Texture::LEVELS {
        if !does_stay(k, i) {
            levels[i] = MipLevel::ABSENT;
        }
    }
    levels
}

// A level to be entered: which of the eleven, where it is to stand, and sides of at most 1,024.
#[derive(Clone, Copy, Debug, PartialEq, Eq, Hash)]
struct Entry {
    k: usize,
    m: MipLevel,
    ghost known: { k < 11 },
    ghost small: { (m.present ≡ true) × (m.width ≤ 1024) × (m.height ≤ 1024) },
}

impl Entry {
    #[tactic(auto, using(std::proofs::lemmas::Bool::Decides::nat_tests), unfolding(crate::specs::Define::enterable))]
    fn new(k: u32, place: usize, width: u32, height: u32) -> Result<Self, Refusal>
        ensures { MatchResult result (λ e. (enterable k width height ≡ true) × (e.k ≡ k) × (e.m ≡ level_at place width height)) (λ why. (enterable k width height ≡ false) × (why ≡ Refusal.Side)) }
    {
        let k = k as usize;
        if MipLevel::MAX_SIDE < width || MipLevel::MAX_SIDE < height || Texture::LEVELS <= k {
            return Err(Refusal::Side);
        }
        Ok(Entry {
            k,
            m: MipLevel {
                present: true,
                place,
                width,
                height,
            },
        })
    }

    // Whether its place in the store is free.
    fn place_check(self, levels: [MipLevel; Texture::LEVELS], store: &[u8]) -> Result<(), Refusal>
        requires { all (fits (length store.now)) levels ≡ true }
        ensures { answer_number result ≡ place_check (length store.now) levels self.k self.m }
    {
        let len = store.len();
        let others = Stored {
            levels: staying(levels, self.k),
            len,
        };
        if !levels::does_fit(self.m, len) || others.any_overlap(0, self.m) {
            return Err(Refusal::Place);
        }
        Ok(())
    }

    // Whether the image may be put into the store and entered in the record.
    #[tactic(auto, using(std::proofs::lemmas::Bool::Decides::nat_tests), unfolding(crate::specs::Define::record_check))]
    fn check_against(self, texture: Texture, store: &[u8], rgba: &[u8]) -> Result<(), Refusal>
        ensures { answer_number result ≡ record_check (length store.now) texture self.k self.m (length rgba.now) }
    {
        if !levels::is_valid(texture, store.len()) {
            return Err(Refusal::Record);
        }
        if rgba.len() != levels::size_of(self.m) {
            return Err(Refusal::Bytes);
        }
        self.place_check(levels::kept_levels(texture.levels), store)
    }

    #[tactic(auto, unfolding(crate::specs::Define::enter_level))]
    fn put_among(self, levels: [MipLevel; Texture::LEVELS]) -> [MipLevel; Texture::LEVELS]
        ensures { result ≡ enter_level levels self.k self.m }
    {
        let mut next = staying(levels, self.k);
        next[self.k] = self.m;
        next
    }

    // The record with the level entered.
    #[tactic(auto, unfolding(crate::specs::Define::define_record))]
    fn enter(self, texture: Texture) -> Texture
        ensures { result ≡ define_record texture self.k self.m }
    {
        let levels = self.put_among(levels::kept_levels(texture.levels));
        Texture {
            levels,
            max_mipmap_level: levels::calculate_max_complete_mipmap_level(levels),
            ..texture
        }
    }
}

// The bytes of src, put into the store from `place` on.
pub fn copy_in(store: &mut [u8], place: usize, src: &[u8])
    requires { place + length src.now ≤ length store.old }
    ensures { store.new ≡ paste store.old place src.now (length src.now) }
{
    store[place..place + src.len()].copy_from_slice(src);
}

// Puts an image's bytes at `place` in the store and enters the level in the record.
pub fn define_level(
    store: &mut [u8],
    texture: Texture,
    level: u32,
    width: u32,
    height: u32,
    place: usize,
    rgba: &[u8],
) -> Result<Texture, Refusal>
    ensures { outcome (answer_number result) (record_after texture result) store.new ≡ define_of store.old texture level width height place rgba.now }
{
    let entry = Entry::new(level, place, width, height)?;
    entry.check_against(texture, store, rgba)?;
    copy_in(store, place, rgba);
    Ok(entry.enter(texture))
}

// A rectangle of a level's texels: its corner, and its sides.
// Kept: unsigned, where a scissor's and a viewport's numbers are signed; no function takes either. (2d)
#[derive(Clone, Copy, Debug, PartialEq, Eq, Hash)]
struct Rectangle {
    x: u32,
    y: u32,
    width: u32,
    height: u32,
}

// A patch that lies within a level: the level, the rectangle in it, and the texels, row by row.
#[derive(Clone, Copy, Debug, PartialEq, Eq, Hash)]
struct Patch<'a> {
    m: MipLevel,
    area: Rectangle,
    texels: &'a [u8],
    ghost inside: { (area.x + area.width ≤ m.width) × (area.y + area.height ≤ m.height) × (area.height * (area.width * 4) ≤ length texels.now) },
}

impl<'a> Patch<'a> {
    #[tactic(auto, using(std::proofs::lemmas::Bool::Decides::nat_tests), unfolding(crate::specs::Patch::rectangle_check))]
    fn new(m: MipLevel, area: Rectangle, texels: &'a [u8]) -> Result<Self, Refusal>
        requires { (m.width ≤ 1024) × (m.height ≤ 1024) }
        ensures number { answer_number result ≡ rectangle_check m area.x area.y area.width area.height (length texels.now) }
        ensures patch { IfOk result (λ p. (p.m ≡ m) × (p.area ≡ area) × (p.texels.now ≡ texels.now)) }
    {
        if (m.width as usize) < (area.x as usize) + (area.width as usize)
            || (m.height as usize) < (area.y as usize) + (area.height as usize)
        {
            return Err(Refusal::Rectangle);
        }
        if texels.len() < (area.height as usize) * (area.width as usize) * 4 {
            return Err(Refusal::Bytes);
        }
        Ok(Patch { m, area, texels })
    }

    // Puts row r into the store.
    fn put_row(self, store: &mut [u8], r: usize)
        requires { (r < self.area.height) × (self.m.place + size_of self.m ≤ length store.old) }
        ensures { store.new ≡ patch_row self.entry.m self.entry.area.x self.entry.area.y self.entry.area.width self.entry.texels.now r store.old }
    {
        let (m, area) = (self.m, self.area);
        let at = m.place + (((area.y as usize) + r) * (m.width as usize) + (area.x as usize)) * 4;
        let n = (area.width as usize) * 4;
        let from = r * n;
        copy_in(store, at, &self.texels[from..from + n]);
    }

    #[tactic(auto, using(lists::proofs::Turns::iter_none))]
    fn put(self, store: &mut [u8])
        requires { self.m.place + size_of self.m ≤ length store.old }
        ensures { store.new ≡ patch_store self.entry.m self.entry.area.x self.entry.area.y self.entry.area.width self.entry.area.height self.entry.texels.now store.old }
    {
        // Kept: rows as chunks of the texels would need a test of their own for a width of 0, which has no chunks. (3e)
        for r in 0..self.area.height as usize {
            self.put_row(store, r);
        }
    }
}

// Puts a patch's rows into a rectangle of a level's texels.
pub fn patch_level<R: Record>(
    store: &mut [u8],
    texture: R,
    level: u32,
    xoffset: u32,
    yoffset: u32,
    width: u32,
    height: u32,
    patch: &[u8],
) -> Result<(), Refusal>
    ensures { patched (answer_number result) store.new ≡ patch_of store.old (R.texture texture) level xoffset yoffset width height patch.now }
{
    if !texture.is_valid(store.len()) {
        return Err(Refusal::Record);
    }
    let k = level as usize;
    let m = texture.image_level(k);
    if Texture::LEVELS <= k || !m.present {
        return Err(Refusal::Level);
    }
    let area = Rectangle {
        x: xoffset,
        y: yoffset,
        width,
        height,
    };
    let patch = Patch::new(m, area, patch)?;
    patch.put(store);
    Ok(())
}

// What a parameter's name stands for. Document 01's port order 3 has names that are accepted without effect.
#[derive(Clone, Copy, Debug, PartialEq, Eq, Hash)]
enum Parameter {
    MinFilter,
    MagFilter,
    WrapS,
    WrapT,
    Ignored,
}

impl TryFrom<u32> for Parameter {
    type Error = Refusal;

    ghost try_from_gives = { λ code r. r ≡ parameter_of code };

    // Kept: each type reads its own codes, as the trait asks: one impl for a type. (2c)
    #[tactic(auto, using(std::proofs::lemmas::Bool::Decides::nat_tests), unfolding(crate::specs::Parameters::parameter_of, crate::specs::Parameters::ignored))]
    fn try_from(code: u32) -> Result<Self, Refusal> {
        match code {
            consts::GL_TEXTURE_MIN_FILTER => Ok(Parameter::MinFilter),
            consts::GL_TEXTURE_MAG_FILTER => Ok(Parameter::MagFilter),
            consts::GL_TEXTURE_WRAP_S => Ok(Parameter::WrapS),
            consts::GL_TEXTURE_WRAP_T => Ok(Parameter::WrapT),
            consts::GL_TEXTURE_MIN_LOD_SGIS
            | consts::GL_TEXTURE_MAX_LOD_SGIS
            | consts::GL_TEXTURE_BASE_LEVEL_SGIS
            | consts::GL_TEXTURE_MAX_LEVEL_SGIS
            | consts::GL_TEXTURE_LOD_BIAS_EXT => Ok(Parameter::Ignored),
            _ => Err(Refusal::Code),
        }
    }
}

// Sets one of the four parameters, or none for a code accepted without effect.
// Kept: document 01's operation takes any name and any value, and refuses the unknown ones. (1m)
pub fn set_parameter(texture: Texture, pname: u32, value: u32) -> Result<Texture, Refusal>
    ensures { setting (answer_number result) (record_after texture result) ≡ set_of texture pname value }
{
    match Parameter::try_from(pname)? {
        Parameter::MinFilter => MinFilter::try_from(value).map(|min_filter| Texture {
            min_filter,
            ..texture
        }),
        Parameter::MagFilter => Filter::try_from(value).map(|mag_filter| Texture {
            mag_filter,
            ..texture
        }),
        Parameter::WrapS => Wrap::try_from(value).map(|wrap_s| Texture { wrap_s, ..texture }),
        Parameter::WrapT => Wrap::try_from(value).map(|wrap_t| Texture { wrap_t, ..texture }),
        Parameter::Ignored => Ok(texture),
    }
}
