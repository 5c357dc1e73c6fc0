// The texture stages of a fragment, in order (raster.rs, raster_clipped): coordinates, sample, environment.
#![tactic(auto)]

ghost use Rattle.std.specs.Prelude.{◌≡◌, true, ◌+◌, ◌<◌, length};
ghost use Rattle.levels.specs.Levels.{valid_of};
ghost use Rattle.coverage.specs.Coverage.{corners_at};
ghost use Rattle.stages.specs.Stages.{coordinates_of, stage_color, stages_color, StagesFit, texel_color};

use coverage::Primitive;
use detail::LevelTable;
use gradients::PerCorner;
use levels::Texture;
use mipmaps::Coordinates;
use sampler::Texel;
use settings::{Rgba, TextureStage};
use vertices::Triangle;

fn texcoords(t: Triangle, i: usize) -> PerCorner<f32>
    requires { i < 8 }
    ensures { result ≡ corners_at i t.a.texcoord t.b.texcoord t.c.texcoord }
{
    t.map(|v| v.texcoord[i])
}

// A unit's coordinates at a pixel, with their gradients.
// Kept: coordinates_at alone reads triangle, weights and 1/w; a struct of them would be made at each pixel by fragment_at, which has them apart, to be taken apart here (5c)
#[tactic(auto, unfolding(crate::specs::Stages::coordinates_of))]
fn coordinates_at(t: Primitive, w: PerCorner<f32>, rec: f32, unit: u32) -> Coordinates
    requires { unit < 4 }
    ensures { result ≡ coordinates_of t w rec unit }
{
    let i = unit as usize * 2;
    let d = t.derivatives;
    let first = texcoords(t.vertices, i);
    let s = gradients::perspective_attribute_with_gradients(first, w, rec, d);
    let second = texcoords(t.vertices, i + 1);
    let r = gradients::perspective_attribute_with_gradients(second, w, rec, d);
    Coordinates {
        s: s.value,
        t: r.value,
        dsdx: s.dx,
        dtdx: r.dx,
        dsdy: s.dy,
        dtdy: r.dy,
    }
}

// Kept: an impl of From would want sampler to stand on settings, or settings on sampler, for it alone (4e)
fn texel_color(x: Texel) -> Rgba
    ensures { result ≡ texel_color x }
{
    fragment::to_units(x.r, x.g, x.b, x.a)
}

// One stage. Where its texture's level 0 is incomplete the colour passes on.
// Kept: a struct of store, table and record would be made for each stage of each pixel, to be taken apart by the sample (5c)
fn stage_color(
    store: &[u8],
    table: &LevelTable,
    stage: TextureStage,
    texture: &Texture,
    p: Coordinates,
    frag: Rgba,
) -> Rgba
    // Kept: Stages has it of all its records, and hands on one of them (5a)
    requires valid { valid_of (length store.now) texture.now ≡ true }
    ensures { result ≡ stage_color store.now stage texture.now p frag }
{
    let first = texture.levels[0];
    if first.width == 0 || first.height == 0 {
        return frag;
    }
    let sampled = sampler::sample_with_gradients(store, table, texture, p);
    fragment::apply_tex_env(stage, frag, texel_color(sampled))
}

// The stages in use, the record that each reads, and what a sample is lent.
#[derive(Clone, Copy, Debug, PartialEq)]
pub struct Stages<'a> {
    pub store: &'a [u8],
    pub table: &'a LevelTable,
    // Kept: the definitions take two lists, as 01 has stages and units apart; pairs would copy each stage beside its record (6c)
    pub stages: &'a [TextureStage],
    pub textures: &'a [Texture],
    pub ghost each: { length textures.now ≡ length stages.now },
    pub ghost fit: { StagesFit (length store.now) (length stages.now) stages.now textures.now },
}

impl Stages<'_> {
    // One of them at a pixel: what a draw with a single stage does there, without a loop.
    // Inlined: as a call, to which the triangle is copied, a pixel of nearest samples took 115 ns for 73.
    // Kept: as coordinates_at (5c)
    #[inline(always)]
    pub fn stage_at(
        &self,
        stage: TextureStage,
        texture: &Texture,
        t: Primitive,
        w: PerCorner<f32>,
        rec: f32,
        frag: Rgba,
    ) -> Rgba
        // Kept: the type has it of all its stages, and a loop hands on one of them (5a)
        requires valid { (valid_of (length self.now.store.now) texture.now ≡ true) × (stage.unit < 4) }
        ensures { result ≡ stage_color self.now.store.now stage texture.now (coordinates_of t w rec stage.unit) frag }
    {
        let p = coordinates_at(t, w, rec, stage.unit);
        stage_color(self.store, self.table, stage, texture, p, frag)
    }

    // A single stage, without a loop.
    // Kept: where the loop went over four stages, nearest samples took the Rust's time by it and 0.73 of that by this (docs/BENCHMARKS.md) (2)
    // Kept: as coordinates_at (5c)
    pub fn first(&self, t: Primitive, w: PerCorner<f32>, rec: f32, frag: Rgba) -> Rgba
        requires { length self.now.stages.now ≡ 1 }
        ensures { result ≡ stages_color self.now.store.now self.now.stages.now (length self.now.stages.now) self.now.textures.now t w rec frag }
    {
        let stage = self.stages[0];
        self.stage_at(stage, &self.textures[0], t, w, rec, frag)
    }

    // The colour after the stages.
    // Kept: as coordinates_at (5c)
    pub fn color(&self, t: Primitive, w: PerCorner<f32>, rec: f32, frag: Rgba) -> Rgba
        ensures { result ≡ stages_color self.now.store.now self.now.stages.now (length self.now.stages.now) self.now.textures.now t w rec frag }
    {
        let mut color = frag;
        for (stage, texture) in self.stages.iter().zip(self.textures) {
            color = self.stage_at(*stage, texture, t, w, rec, color);
        }
        color
    }
}
