// Settings and textures by the numbers that the records and the probes of differential/ have for them, which are not OpenGL's codes.
ghost use Rattle.std.specs.Prelude.{◌≡◌, ◌<◌, length};
ghost use Rattle.replay.specs.Numbered.{wrap_from, filter_from, min_from, environment_of, cull_of, level_from, levels_from, texture_from, signed_of};

use levels::{Filter, MinFilter, MipLevel, Texture, Wrap};
use settings::{CullMode, TexEnvMode};
use std::array;

// A setting by its number.
#[derive(Clone, Copy, Debug, PartialEq, Eq, Hash)]
pub struct Code {
    pub number: u32,
}

impl From<Code> for Wrap {
    ghost from_gives = { λ code w. w ≡ wrap_from code.number };

    // Kept: a type has its own numbers, as the trait asks: one impl for a type. (2c)
    #[tactic(auto, using(std::proofs::lemmas::Bool::Decides::nat_tests))]
    fn from(code: Code) -> Wrap {
        match code.number {
            0 => Wrap::Repeat,
            _ => Wrap::ClampToEdge,
        }
    }
}

impl From<Code> for Filter {
    ghost from_gives = { λ code f. f ≡ filter_from code.number };

    // Kept: a type has its own numbers, as the trait asks: one impl for a type. (2c)
    #[tactic(auto, using(std::proofs::lemmas::Bool::Decides::nat_tests))]
    fn from(code: Code) -> Filter {
        match code.number {
            0 => Filter::Nearest,
            _ => Filter::Linear,
        }
    }
}

impl From<Code> for MinFilter {
    ghost from_gives = { λ code f. f ≡ min_from code.number };

    // Kept: a type has its own numbers, as the trait asks: one impl for a type. (2c)
    #[tactic(auto, using(std::proofs::lemmas::Bool::Decides::nat_tests))]
    fn from(code: Code) -> MinFilter {
        match code.number {
            0 => MinFilter::Nearest,
            1 => MinFilter::Linear,
            2 => MinFilter::NearestMipmapNearest,
            3 => MinFilter::LinearMipmapNearest,
            4 => MinFilter::NearestMipmapLinear,
            _ => MinFilter::LinearMipmapLinear,
        }
    }
}

impl From<Code> for TexEnvMode {
    ghost from_gives = { λ code e. e ≡ environment_of code.number };

    // Kept: a type has its own numbers, as the trait asks: one impl for a type. (2c)
    #[tactic(auto, using(std::proofs::lemmas::Bool::Decides::nat_tests), unfolding(crate::specs::Numbered::environment_of))]
    fn from(code: Code) -> TexEnvMode {
        match code.number {
            1 => TexEnvMode::Replace,
            2 => TexEnvMode::Decal,
            3 => TexEnvMode::Blend,
            4 => TexEnvMode::Add,
            _ => TexEnvMode::Modulate,
        }
    }
}

impl From<Code> for Option<CullMode> {
    ghost from_gives = { λ code c. c ≡ cull_of code.number };

    // Kept: a type has its own numbers, as the trait asks: one impl for a type. (2c)
    fn from(code: Code) -> Option<CullMode> {
        match code.number {
            1 => Some(CullMode::Front),
            2 => Some(CullMode::Back),
            3 => Some(CullMode::FrontAndBack),
            _ => None,
        }
    }
}

// A texture's record as it is handed over: four numbers a level, the top level, the filters and the wraps.
// Kept: an entry and the C interface of the probes have the numbers laid flat. (6d)
#[derive(Clone, Copy, Debug, PartialEq)]
pub struct Numbers<'a> {
    pub all: &'a [u32],
    pub ghost whole: { length all.now ≡ 49 },
}

impl Numbers<'_> {
    fn level(&self, k: usize) -> MipLevel
        requires { k < 11 }
        ensures { result ≡ level_from self.now.all.now k }
    {
        let all = self.all;
        MipLevel {
            present: all[k * 4] != 0,
            place: all[k * 4 + 1] as usize,
            width: all[k * 4 + 2],
            height: all[k * 4 + 3],
        }
    }

    fn levels(&self) -> [MipLevel; 11]
        ensures { result ≡ levels_from self.now.all.now }
    {
        array::from_fn(|k| self.level(k))
    }

    #[tactic(auto, unfolding(crate::specs::Numbered::texture_from))]
    pub fn texture(&self) -> Texture
        ensures { result ≡ texture_from self.now.all.now }
    {
        let all = self.all;
        Texture {
            levels: self.levels(),
            max_mipmap_level: all[44] as usize,
            min_filter: MinFilter::from(Code { number: all[45] }),
            mag_filter: Filter::from(Code { number: all[46] }),
            wrap_s: Wrap::from(Code { number: all[47] }),
            wrap_t: Wrap::from(Code { number: all[48] }),
        }
    }
}

// A signed number as it is handed over: n, or -1 - n where it is below 0.
// Kept: a record's entries and the C interface of the probes have it as these two. (1e)
#[derive(Clone, Copy, Debug, PartialEq, Eq, Hash)]
pub struct Signed {
    pub below: bool,
    pub n: u64,
}

impl From<i64> for Signed {
    ghost from_gives = { λ z s. signed_of s ≡ z };

    fn from(z: i64) -> Signed {
        let from_zero = if z < 0 { !z } else { z };
        Signed {
            below: z < 0,
            n: from_zero.unsigned_abs(),
        }
    }
}
