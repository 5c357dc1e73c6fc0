// The byte layouts of a draw, written (docs/INTERFACE.md, "Draw"): what crate draw_layouts reads.
#![tactic(auto)]

ghost use Rattle.std.specs.Prelude.{◌≡◌, ◌*◌, length};
ghost use Rattle.lists.specs.Lists.{tab};
ghost use Rattle.draw_bytes.specs.Write.{bytes_of, float_bits, float_bits_at, cull_code, number_words, viewport_words, box_words, settings_words, stage_words, vertex_words};

use settings::{CullMode, PipelineState, ScissorBox, TextureStage, Viewport};
use std::{array, num};
use vertices::Vertex;

// A float's bits; NaN is the quiet one.
// Kept: std's function by a short name, for the calls below; with `use .. as` in its place `float_words`'s returns stays open (4d)
fn float_bits(x: f32) -> u32
    ensures { result ≡ float_bits x }
{
    num::f32_to_bits_with_nan(x)
}

// 0 is off.
fn cull_code(c: Option<CullMode>) -> u32
    ensures { result ≡ cull_code c }
{
    c.map_or(0, |m| u32::from(m))
}

// Kept: the bytes are `to_le_bytes`'s, and of chunks that `as_chunks_mut` has lent std says nothing once they are written. (4g)
fn put_words(b: &mut [u8], words: &[u32])
    requires { length b.old ≡ length words.now * 4 }
    ensures { b.new ≡ bytes_of words.now }
{
    for (i, word) in words.iter().enumerate() {
        b[i * 4..i * 4 + 4].copy_from_slice(&word.to_le_bytes());
    }
}

fn float_words<const N: usize>(x: &[f32; N]) -> [u32; N]
    ensures { result ≡ tab N (float_bits_at x.now) }
{
    let x: &[f32] = x;
    array::from_fn(|i| float_bits(x[i]))
}

#[tactic(auto, unfolding(crate::specs::Write::stage_words))]
fn stage_words(x: TextureStage) -> [u32; 6]
    ensures { result ≡ stage_words x }
{
    let [r, g, b, a] = float_words(&<[f32; 4]>::from(x.env_color));
    [x.unit, u32::from(x.env), r, g, b, a]
}

pub fn write_stage(b: &mut [u8; 24], stage: TextureStage)
    ensures { b.new ≡ bytes_of (stage_words stage) }
{
    put_words(b, &stage_words(stage));
}

fn vertex_words(v: Vertex) -> [u32; 17]
    ensures { result ≡ vertex_words v }
{
    let mut out = [0; 17];
    out[..4].copy_from_slice(&float_words(&v.pos));
    out[4..8].copy_from_slice(&float_words(&v.color));
    out[8..16].copy_from_slice(&float_words(&v.texcoord));
    out[16] = float_bits(v.fog_depth);
    out
}

pub fn write_vertex(b: &mut [u8; 68], v: Vertex)
    ensures { b.new ≡ bytes_of (vertex_words v) }
{
    put_words(b, &vertex_words(v));
}

#[tactic(auto, unfolding(crate::specs::Write::number_words))]
fn number_words(x: i32, y: i32, width: i32, height: i32) -> [u32; 4]
    ensures { result ≡ number_words x y width height }
{
    [
        x.cast_unsigned(),
        y.cast_unsigned(),
        width.cast_unsigned(),
        height.cast_unsigned(),
    ]
}

#[tactic(auto, unfolding(crate::specs::Write::viewport_words))]
fn viewport_words(v: Viewport) -> [u32; 4]
    ensures { result ≡ viewport_words v }
{
    number_words(v.x, v.y, v.width, v.height)
}

#[tactic(auto, unfolding(crate::specs::Write::box_words))]
fn box_words(s: Option<ScissorBox>) -> [u32; 4]
    ensures { result ≡ box_words s }
{
    match s {
        None => [0; 4],
        Some(b) => number_words(b.x, b.y, b.width, b.height),
    }
}

fn settings_words(s: PipelineState) -> [u32; 36]
    ensures { result ≡ settings_words s }
{
    let [x, y, width, height] = viewport_words(s.viewport);
    let [box_x, box_y, box_width, box_height] = box_words(s.scissor);
    let [r, g, b, a] = float_words(&<[f32; 4]>::from(s.fog_color));
    [
        x,
        y,
        width,
        height,
        float_bits(s.depth_range.near),
        float_bits(s.depth_range.far),
        u32::from(s.scissor.is_some()),
        box_x,
        box_y,
        box_width,
        box_height,
        u32::from(s.depth_test),
        u32::from(s.depth_func),
        u32::from(s.depth_write),
        u32::from(s.alpha_test),
        u32::from(s.alpha_func),
        float_bits(s.alpha_ref),
        u32::from(s.blend),
        u32::from(s.blend_src),
        u32::from(s.blend_dst),
        cull_code(s.cull),
        u32::from(s.front_face),
        u32::from(s.color_mask.r),
        u32::from(s.color_mask.g),
        u32::from(s.color_mask.b),
        u32::from(s.color_mask.a),
        u32::from(s.fog),
        u32::from(s.fog_mode),
        r,
        g,
        b,
        a,
        float_bits(s.fog_start),
        float_bits(s.fog_end),
        float_bits(s.fog_density),
        u32::from(s.smooth_shading),
    ]
}

pub fn write_settings(b: &mut [u8; 144], state: PipelineState)
    ensures { b.new ≡ bytes_of (settings_words state) }
{
    put_words(b, &settings_words(state));
}
