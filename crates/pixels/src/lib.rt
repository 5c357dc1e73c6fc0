// The pixel's way (raster.rs, raster_clipped): weights, depth test, 1/w, colour, stages, alpha test, fog, blend, masked colour, depth, count.
#![tactic(auto)]

pub mod target;

ghost use Rattle.std.specs.Prelude.{◌≡◌, ℕ, ◌+◌, ◌*◌, ◌<◌, ◌≤◌, List, [], Some, None, cond, length, get_or, set};
ghost use Rattle.std.specs.Float.{nan};
ghost use Rattle.gradients.specs.Gradients.{sum_of, per_corner};
ghost use Rattle.fragment.specs.Fragment.{blend_of, units_of};
ghost use Rattle.frames.specs.State.{pixel_at};
ghost use Rattle.frames.specs.Gather.{put_color, put_pixel};
ghost use Rattle.coverage.specs.declared.Primitive.{Primitive};
ghost use Rattle.pixels.specs.Way.{Drawing, drawing, finished, fragment_of, written_of, pixel_of, reaches};
ghost use Rattle.coverage.specs.Coverage.{color_of, depth_at, inv_w_at};
ghost use Rattle.pixels.specs.Targets.{drawn_on, Same};
ghost use Rattle.std.proofs.Math.Option.{some};

use coverage::Primitive;
use gradients::PerCorner;
use settings::{BlendFactor, PipelineState, Rgba};
use stages::Stages;
use target::Target;
use vertices::Vertex;

// What a draw makes of a pixel. A draw without a stage carries no record and no texel along, and one of a single colour makes its bytes once.
pub trait Paint {
    // The store's bytes that it samples.
    ghost store: { Self → List ℕ };

    ghost drawing: { Self → Drawing };

    // The triangles that it is made for.
    ghost paints: { Self → Primitive → Type 0 };

    fn state(&self) -> PipelineState
        ensures { result ≡ (drawing self.now).state };

    // The fragment at a pixel's weights; stored is the pixel's depth.
    // Kept: a struct of triangle and weights would be made at each pixel, and taken apart again by each paint (5c)
    fn fragment_at(&self, t: Primitive, w: PerCorner<f32>, stored: f32) -> Option<(f32, Rgba)>
        ensures { result ≡ fragment_of (store self.now) (drawing self.now) t w stored };

    // One pixel of a triangle.
    // Kept: the body of every paint but Solid's, whose bytes are made once; a put of its own, with the rest once, would have to ask that the colour is the fragment's, which each caller would owe at each pixel; what is repeated is weights, fragment and count (2c, 5c)
    fn draw_pixel(&self, target: &mut Target, t: Primitive, py: u32, px: u32)
        requires paints { paints self.now t }
        requires bounds { (px < 4096) × (py < 4096) × (target.old.written ≤ 1000000000000) }
        requires inside { py * target.old.width + px < length target.old.depths.now }
        ensures drawn { drawn_on target.new ≡ pixel_of (store self.now) (drawing self.now) t target.old.width py px (drawn_on target.old) }
        // Kept: a fact of the type cannot speak of the target as it was (5b)
        ensures same { Same target.old target.new }
    {
        let w = coverage::weights_at(t.raster, px, py);
        if !coverage::is_covered(w) {
            return;
        }
        let i = py as usize * target.width + px as usize;
        let Some((z, c)) = self.fragment_at(t, w, target.depths[i]) else {
            return;
        };
        write_pixel(target, i, self.state(), z, c);
    }
}

// Up to the stages: the depth test, and whether 1/w can be used. A fragment that gets there has its depth and 1/w.
// Kept: as fragment_at (5c)
#[tactic(auto, unfolding(crate::specs::Way::reaches))]
#[inline(always)]
pub fn reached(
    state: PipelineState,
    t: Primitive,
    w: PerCorner<f32>,
    stored: f32,
) -> Option<(f32, f32)>
    ensures { result ≡ cond (reaches state t w stored) (Some (depth_at t.raster w, inv_w_at t.raster w)) None }
{
    let z = coverage::depth_at(t.raster, w);
    if !fragment::depth_passes(state, z, stored) {
        return None;
    }
    let iw = coverage::inv_w_at(t.raster, w);
    if !coverage::is_usable(iw) {
        return None;
    }
    Some((z, iw))
}

// The colour between the corners, or the last corner's.
pub fn color_between(smooth: bool, p: PerCorner<f32>, t: Primitive) -> Rgba
    ensures { result ≡ color_of smooth p t.vertices.a.color t.vertices.b.color t.vertices.c.color }
{
    let colors = t.vertices.map(
        |v: Vertex| -> [f32; 4]
            ensures { result ≡ v.color }
        { v.color },
    );
    coverage::color_at(smooth, p, colors)
}

pub fn fog_depth_at(p: PerCorner<f32>, t: Primitive) -> f32
    ensures { result ≡ sum_of p (per_corner t.vertices.a.fog_depth t.vertices.b.fog_depth t.vertices.c.fog_depth) }
{
    gradients::weighted_sum(p, t.vertices.map(|v| v.fog_depth))
}

// Past the stages: the alpha test, then fog. A fragment that is kept has its depth and colour.
#[tactic(auto, unfolding(crate::specs::Way::finished))]
pub fn finish(state: PipelineState, z: f32, fog_depth: f32, c: Rgba) -> Option<(f32, Rgba)>
    ensures { result ≡ finished state z fog_depth c }
{
    if !fragment::alpha_passes(state, c.a) {
        return None;
    }
    Some((z, fragment::fogged(state, fog_depth, c)))
}

// A colour blended over the pixel's bytes from k on. Inlined, so that its channels stay in registers: a call would put them into memory.
#[inline(always)]
pub fn blended(
    colors: &[u8],
    k: usize,
    src_factor: BlendFactor,
    dst_factor: BlendFactor,
    c: Rgba,
) -> Rgba
    // Kept: a caller that cut four bytes out would owe the same bound there (5a)
    requires { k + 4 ≤ length colors.now }
    ensures { result ≡ blend_of src_factor dst_factor c (units_of (get_or colors.now k 0) (get_or colors.now (k + 1) 0) (get_or colors.now (k + 2) 0) (get_or colors.now (k + 3) 0)) }
{
    let dst = fragment::to_units(colors[k], colors[k + 1], colors[k + 2], colors[k + 3]);
    fragment::blend(src_factor, dst_factor, c, dst)
}

// Inlined into each paint's loop.
#[tactic(auto, unfolding(fragment::specs::Fragment::put_color_of, frames::specs::Gather::put_color, frames::specs::State::pixel_at, crate::specs::Way::written_of, crate::specs::Way::blended_of))]
#[inline(always)]
pub fn write_color(colors: &mut [u8], i: usize, state: PipelineState, c: Rgba)
    requires { i * 4 + 4 ≤ length colors.old }
    ensures { colors.new ≡ put_color colors.old i (written_of state nan c (pixel_at colors.old [] i)) }
{
    let mask = state.color_mask;
    // Kept: with one put_color behind an if and else the colour goes through memory: a smooth pixel took 37 ns for 29, a clipped one 61 for 51 (2)
    if state.blend {
        let out = blended(colors, i * 4, state.blend_src, state.blend_dst, c);
        fragment::put_color(colors, i * 4, mask, out);
        return;
    }
    fragment::put_color(colors, i * 4, mask, c);
}

pub fn write_depth(depths: &mut [f32], i: usize, state: PipelineState, z: f32)
    requires { i < length depths.old }
    ensures { depths.new ≡ set depths.old i (cond state.depth_write z (get_or depths.old i nan)) }
{
    if state.depth_write {
        depths[i] = z;
    }
}

// A fragment that is kept: its colour and depth, and the count.
#[inline(always)]
pub fn write_pixel(target: &mut Target, i: usize, state: PipelineState, z: f32, c: Rgba)
    requires { (i < length target.old.depths.now) × (target.old.written ≤ 1000000000000) }
    ensures drawn { drawn_on target.new ≡ put_pixel (drawn_on target.old) i (some (written_of state z c (pixel_at target.old.colors.now target.old.depths.now i))) }
    // Kept: a fact of the type cannot speak of the target as it was (5b)
    ensures same { Same target.old target.new }
{
    write_color(target.colors, i, state, c);
    write_depth(target.depths, i, state, z);
    target.written += 1;
}

// A draw with its stages.
#[derive(Clone, Copy, Debug, PartialEq)]
pub struct Staged<'a> {
    pub state: PipelineState,
    pub stages: Stages<'a>,
}

impl Paint for Staged<'_> {
    ghost store = { λ s. s.stages.store.now };

    ghost drawing = { λ s. drawing s.state s.stages.stages.now (length s.stages.stages.now) s.stages.textures.now };

    ghost paints = { λ _ _. Unit {0} };

    // Kept: a trait has no fields, so each paint hands out its own (2a)
    fn state(&self) -> PipelineState {
        self.state
    }

    // Kept: an impl repeats its trait's head; what is alike stands in reached, color_between, fog_depth_at and finish (5c)
    fn fragment_at(&self, t: Primitive, w: PerCorner<f32>, stored: f32) -> Option<(f32, Rgba)> {
        let state = self.state;
        let (z, iw) = reached(state, t, w, stored)?;
        let rec = 1.0 / iw;
        let p = coverage::shares_of(t.raster, w, rec);
        let color = color_between(state.smooth_shading, p, t);
        let fog_depth = fog_depth_at(p, t);
        let color = if self.stages.stages.len() == 1 {
            self.stages.first(t, w, rec, color)
        } else {
            self.stages.color(t, w, rec, color)
        };
        finish(state, z, fog_depth, color)
    }
}
