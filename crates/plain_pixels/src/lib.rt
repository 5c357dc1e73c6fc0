// A pixel of a draw without a stage: no record and no texel is passed along.
#![tactic(auto)]

pub mod solid;

ghost use Rattle.std.specs.Prelude.{◌≡◌, false, cond, not, []};
ghost use Rattle.pixels.specs.Way.{drawing, fragment_of};

use coverage::Primitive;
use gradients::PerCorner;
use settings::{PipelineState, Rgba};

// Whether a fragment's colour is its last corner's as it is.
fn is_flat(state: PipelineState) -> bool
    ensures { result ≡ cond state.smooth_shading false (not state.fog) }
{
    !state.smooth_shading && !state.fog
}

// The fragment at a pixel's weights; stored is the pixel's depth.
// Kept: without a stage no record is handed on, and a flat colour needs no weights; what is alike stands in reached, color_between, fog_depth_at and finish (5c)
pub fn fragment_at(
    state: PipelineState,
    t: Primitive,
    w: PerCorner<f32>,
    stored: f32,
) -> Option<(f32, Rgba)>
    ensures { result ≡ fragment_of [] (drawing state [] 0 []) t w stored }
{
    let (z, iw) = pixels::reached(state, t, w, stored)?;
    if is_flat(state) {
        let flat = pixels::color_between(false, w, t);
        if !fragment::alpha_passes(state, flat.a) {
            return None;
        }
        return Some((z, flat));
    }
    let p = coverage::shares_of(t.raster, w, 1.0 / iw);
    let color = pixels::color_between(state.smooth_shading, p, t);
    pixels::finish(state, z, pixels::fog_depth_at(p, t), color)
}
