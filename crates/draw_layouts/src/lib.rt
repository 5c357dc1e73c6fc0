// The byte layouts of a draw, as they cross the C boundary (docs/INTERFACE.md): settings, stages, vertices and the units' records.
#![tactic(auto)]

ghost use Rattle.std.specs.Prelude.{◌≡◌, ℕ, cond, not, eqb, ◌+◌, ◌*◌, ◌≤◌, ◌<◌, length, from_bits};
ghost use Rattle.std.specs.Float.{binary32};
ghost use Rattle.lists.specs.Lists.{tab};
ghost use Rattle.layouts.specs.Words.{word};
ghost use Rattle.draw_layouts.specs.Numbers.{signed_of, float_at, color_at};
ghost use Rattle.draw_layouts.specs.Codes.{cull_of};
ghost use Rattle.draw_layouts.specs.Settings.{viewport_of, scissor_of, mask_of, codes_known, state_of, read_settings};
ghost use Rattle.draw_layouts.specs.Stages.{stage_or, stage_known, read_stages, used};
ghost use Rattle.draw_layouts.specs.Vertices.{read_vertex, read_vertices};
ghost use Rattle.draw_layouts.specs.Units.{read_unit, named, unit_or, read_units};

use answers::Refusal;
use levels::Texture;
use settings::{
    BlendFactor, ColorMask, CompareFunc, CullMode, DepthRange, FogMode, FrontFace, PipelineState,
    Rgba, ScissorBox, TexEnvMode, TextureStage, Viewport,
};
use std::{array, num};
use vertices::Vertex;

// The bytes of the units' layout.
pub const UNITS_SIZE: usize = 976;

// The stages of a layout, of which the first four are read; count is that of all.
// Kept: the count is no length of `first`: the C interface takes any number of stages, and a draw refuses more than four. (6a)
#[derive(Clone, Copy, Debug, PartialEq)]
pub struct Stages {
    pub first: [TextureStage; 4],
    pub count: usize,
}

impl Stages {
    // The stages in use, of those that are read: all four where the count is above four.
    pub fn used(&self) -> &[TextureStage]
        ensures { result.now ≡ used self.now }
    {
        &self.first[..self.count.min(self.first.len())]
    }
}

const UNUSED: TextureStage = TextureStage {
    unit: 0,
    env: TexEnvMode::Modulate,
    env_color: Rgba {
        r: 0.0,
        g: 0.0,
        b: 0.0,
        a: 0.0,
    },
};

// What a word of four bytes stands for.
trait Word: Copy {
    ghost of: { ℕ → Self };

    fn of(word: u32) -> Self
        ensures { result ≡ of word };
}

impl Word for i32 {
    ghost of = { signed_of };

    fn of(word: u32) -> i32 {
        word.cast_signed()
    }
}

impl Word for f32 {
    ghost of = { λ n. from_bits binary32 n };

    fn of(word: u32) -> f32 {
        num::f32_from_bits_with_nan(word)
    }
}

// 0 is off.
impl Word for bool {
    ghost of = { λ n. not (eqb n 0) };

    fn of(word: u32) -> bool {
        word != 0
    }
}

fn read_at<T: Word>(b: &[u8], at: usize) -> T
    requires { at + 4 ≤ length b.now } // Kept: as in layouts::word_at. (5a)
    ensures { result ≡ T.of (word b.now at) }
{
    T::of(layouts::word_at(b, at))
}

fn floats_at<const N: usize>(b: &[u8], at: usize) -> [f32; N]
    requires { at + N * 4 ≤ length b.now }
    ensures { result ≡ tab N (λ i. float_at b.now (at + i * 4)) }
{
    array::from_fn(|i| read_at(b, at + i * 4))
}

// Kept: a mask is read of four words that are 0 or 1, as a record of four switches, which no `from` makes of an array (2e)
fn color_at(b: &[u8], at: usize) -> Rgba
    requires { at + 16 ≤ length b.now }
    ensures { result ≡ color_at b.now at }
{
    Rgba::from(floats_at::<4>(b, at))
}

// The faces that a code says are discarded: 0 is none.
// Kept: neither `Option` nor `CullMode` is of this crate, so that no impl of TryFrom for an `Option<CullMode>` can stand here. (1l, 4i)
#[tactic(auto, using(std::proofs::lemmas::Bool::Decides::nat_tests), unfolding(crate::specs::Codes::cull_of))]
fn cull_of(code: u32) -> Result<Option<CullMode>, Refusal>
    ensures { result ≡ cull_of code }
{
    if code == 0 {
        return Ok(None);
    }
    CullMode::try_from(code).map(Some)
}

#[tactic(auto, unfolding(crate::specs::Settings::viewport_of, crate::specs::Numbers::signed_at))]
fn viewport_at(b: &[u8; 144]) -> Viewport
    ensures { result ≡ viewport_of b.now }
{
    Viewport {
        x: read_at(b, 0),
        y: read_at(b, 4),
        width: read_at(b, 8),
        height: read_at(b, 12),
    }
}

#[tactic(auto, using(std::proofs::lemmas::Bool::Decides::nat_tests), unfolding(crate::specs::Settings::scissor_of, crate::specs::Numbers::signed_at))]
fn scissor_at(b: &[u8; 144]) -> Option<ScissorBox>
    ensures { result ≡ scissor_of b.now }
{
    if layouts::word_at(b, 24) == 0 {
        return None;
    }
    Some(ScissorBox {
        x: read_at(b, 28),
        y: read_at(b, 32),
        width: read_at(b, 36),
        height: read_at(b, 40),
    })
}

#[tactic(auto, unfolding(crate::specs::Settings::mask_of, crate::specs::Numbers::switch_at))]
fn mask_at(b: &[u8; 144]) -> ColorMask
    ensures { result ≡ mask_of b.now }
{
    ColorMask {
        r: read_at(b, 88),
        g: read_at(b, 92),
        b: read_at(b, 96),
        a: read_at(b, 100),
    }
}

#[tactic(auto, using(std::proofs::lemmas::Bool::Decides::nat_tests), unfolding(crate::specs::Settings::codes_known, crate::specs::Settings::tests_known, crate::specs::Settings::modes_known, crate::specs::Settings::state_of, crate::specs::Numbers::float_at, crate::specs::Numbers::switch_at))]
fn settings_of(b: &[u8; 144]) -> Option<PipelineState>
    ensures { result ≡ cond (codes_known b.now) (Some (state_of b.now)) None }
{
    let depth_func = CompareFunc::try_from(layouts::word_at(b, 48)).ok()?;
    let alpha_func = CompareFunc::try_from(layouts::word_at(b, 60)).ok()?;
    let blend_src = BlendFactor::try_from(layouts::word_at(b, 72)).ok()?;
    let blend_dst = BlendFactor::try_from(layouts::word_at(b, 76)).ok()?;
    let cull = cull_of(layouts::word_at(b, 80)).ok()?;
    let front_face = FrontFace::try_from(layouts::word_at(b, 84)).ok()?;
    let fog_mode = FogMode::try_from(layouts::word_at(b, 108)).ok()?;
    Some(PipelineState {
        viewport: viewport_at(b),
        depth_range: DepthRange {
            near: read_at(b, 16),
            far: read_at(b, 20),
        },
        scissor: scissor_at(b),
        depth_test: read_at(b, 44),
        depth_func,
        depth_write: read_at(b, 52),
        alpha_test: read_at(b, 56),
        alpha_func,
        alpha_ref: read_at(b, 64),
        blend: read_at(b, 68),
        blend_src,
        blend_dst,
        cull,
        front_face,
        color_mask: mask_at(b),
        fog: read_at(b, 104),
        fog_mode,
        fog_color: color_at(b, 112),
        fog_start: read_at(b, 128),
        fog_end: read_at(b, 132),
        fog_density: read_at(b, 136),
        smooth_shading: read_at(b, 140),
    })
}

#[tactic(auto, using(std::proofs::lemmas::Bool::Decides::nat_tests), unfolding(crate::specs::Settings::read_settings))]
pub fn read_settings(b: &[u8]) -> Option<PipelineState>
    ensures { result ≡ read_settings b.now }
{
    let b = <&[u8; 144]>::try_from(b).ok()?;
    settings_of(b)
}

// Stage k, or an unused one past the end.
// The array has four stages whatever the count is, so that each call would make the unused one of a `None`.
#[tactic(auto, using(std::proofs::lemmas::Bool::Decides::nat_tests), unfolding(crate::specs::Stages::stage_known, crate::specs::Stages::stage_or, crate::specs::Stages::read_stage))]
fn stage_at(b: &[u8], k: usize) -> Option<TextureStage>
    ensures { result ≡ cond (stage_known b.now k) (Some (stage_or b.now k)) None }
{
    if b.len() / 24 <= k {
        return Some(UNUSED);
    }
    let at = k * 24;
    let env = TexEnvMode::try_from(layouts::word_at(b, at + 4)).ok()?;
    Some(TextureStage {
        unit: layouts::word_at(b, at),
        env,
        env_color: color_at(b, at + 8),
    })
}

#[tactic(auto, using(std::proofs::lemmas::Bool::Decides::nat_tests), unfolding(crate::specs::Stages::read_stages, crate::specs::Stages::stages_known, crate::specs::Stages::first_known, crate::specs::Stages::first_four))]
pub fn read_stages(b: &[u8]) -> Option<Stages>
    ensures { result ≡ read_stages b.now }
{
    if b.len() % 24 != 0 {
        return None;
    }
    let first = stage_at(b, 0)?;
    // Kept: with `array::try_from_fn(|k| stage_at(b, k).ok_or(())).ok()?` the goals returns and returns-in_err-first stay open (3f)
    let second = stage_at(b, 1)?;
    let third = stage_at(b, 2)?;
    let fourth = stage_at(b, 3)?;
    Some(Stages {
        first: [first, second, third, fourth],
        count: b.len() / 24,
    })
}

#[tactic(auto, unfolding(crate::specs::Vertices::read_vertex, crate::specs::Numbers::four_at, crate::specs::Numbers::eight_at))]
fn vertex_at(b: &[u8], at: usize) -> Vertex
    requires { at + 68 ≤ length b.now }
    ensures { result ≡ read_vertex b.now at }
{
    Vertex {
        pos: floats_at(b, at),
        color: floats_at(b, at + 16),
        texcoord: floats_at(b, at + 32),
        fog_depth: read_at(b, at + 64),
    }
}

#[tactic(auto, using(std::proofs::lemmas::Bool::Decides::nat_tests), unfolding(crate::specs::Vertices::read_vertices))]
pub fn read_vertices(b: &[u8]) -> Option<[Vertex; 3]>
    ensures { result ≡ read_vertices b.now }
{
    let b = <&[u8; 204]>::try_from(b).ok()?;
    Some(array::from_fn(|k| vertex_at(b, k * 68)))
}

fn unit_at(b: &[u8], at: usize) -> Option<Texture>
    requires { at + 244 ≤ length b.now }
    ensures { result ≡ read_unit b.now at }
{
    layouts::read_record(&b[at..at + 244])
}

// Whether a stage names unit u.
#[tactic(auto, unfolding(crate::specs::Units::named))]
fn is_named(stages: &[TextureStage], u: u32) -> bool
    ensures { result ≡ named stages.now u }
{
    stages.iter().any(|stage| stage.unit == u)
}

// The record of unit u where a stage names it. What stands there for another unit is not looked at.
#[tactic(auto, unfolding(crate::specs::Units::unit_or))]
fn unit_or(b: &[u8; UNITS_SIZE], stages: &[TextureStage], u: u32) -> Option<Texture>
    requires { u < 4 }
    ensures { result ≡ unit_or stages.now b.now u }
{
    if is_named(stages, u) {
        return unit_at(b, u as usize * 244);
    }
    Some(Texture::new())
}

// The records that the stages in use name; a unit that none of them names has the default record, which nothing reads.
#[tactic(auto, using(std::proofs::lemmas::Bool::Decides::nat_tests), unfolding(crate::specs::Units::read_units))]
pub fn read_units(b: &[u8], stages: &[TextureStage]) -> Option<[Texture; 4]>
    ensures { result ≡ read_units stages.now b.now }
{
    let b = <&[u8; UNITS_SIZE]>::try_from(b).ok()?;
    // Kept: with `array::try_from_fn(|k| unit_at(b, 244 * k).ok_or(())).ok()` the goal returns stays open (3f)
    let first = unit_or(b, stages, 0)?;
    let second = unit_or(b, stages, 1)?;
    let third = unit_or(b, stages, 2)?;
    let fourth = unit_or(b, stages, 3)?;
    Some([first, second, third, fourth])
}
