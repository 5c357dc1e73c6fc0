// One triangle left by clipping, made ready to fill: its corners on the screen, 1/area, and the pixels that it can cover.
#![tactic(auto)]

ghost use Rattle.std.specs.Prelude.{◌≡◌};
ghost use Rattle.setup.specs.Box.{start_of, end_of, covered_of};
ghost use Rattle.setup.specs.Setup.{setup_of, on_screen};

use scissor::PixelBox;
use screen::{ScreenTriangle, View};
use settings::{CullMode, DepthRange, FrontFace};
use vertices::Triangle;

#[derive(Clone, Copy, Debug, PartialEq)]
pub struct Raster {
    pub corners: ScreenTriangle,
    pub inv_area: f32,
    pub pixels: PixelBox,
}

// Kept: its twin box_end rounds the other way, adds one and takes the lesser: one function for both would be handed all three. (2e)
// The first column or row of a box that starts at lo.
fn box_start(least: f32, lo: u32) -> u32
    ensures { result ≡ start_of least lo }
{
    let first = std::num::saturating_f32_to_i32(rounding::floor(least));
    (first.max(0) as u32).max(lo)
}

// One past the last column or row of a box that ends at hi.
fn box_end(greatest: f32, hi: u32) -> u32
    ensures { result ≡ end_of greatest hi }
{
    let last = std::num::saturating_f32_to_i32(rounding::ceil(greatest));
    (last.saturating_add(1).max(0) as u32).min(hi)
}

#[tactic(auto, unfolding(crate::specs::Box::covered_of, crate::specs::Box::least_of, crate::specs::Box::greatest_of))]
pub fn covered_box(t: ScreenTriangle, within: PixelBox) -> Option<PixelBox>
    ensures { result ≡ covered_of t.a t.b t.c within }
{
    let x = t.map(|v| v.x);
    let y = t.map(|v| v.y);
    scissor::box_of(
        box_start(x.fold(f32::INFINITY, floats::min), within.x0),
        box_start(y.fold(f32::INFINITY, floats::min), within.y0),
        box_end(x.fold(f32::NEG_INFINITY, floats::max), within.x1),
        box_end(y.fold(f32::NEG_INFINITY, floats::max), within.y1),
    )
}

#[tactic(auto, unfolding(crate::specs::Setup::on_screen))]
fn setup_screen(
    front_face: FrontFace,
    cull: Option<CullMode>,
    within: PixelBox,
    corners: ScreenTriangle,
) -> Option<Raster>
    ensures { result ≡ on_screen front_face cull within corners.a corners.b corners.c }
{
    let area = screen::signed_area(corners);
    if !screen::area_fits(area) {
        return None;
    }
    if screen::is_discarded(cull, screen::is_front(front_face, area)) {
        return None;
    }
    let pixels = covered_box(corners, within)?;
    Some(Raster {
        corners,
        inv_area: 1.0 / area,
        pixels,
    })
}

// Kept: each corner ends with `?`; through `map` there is no `?` for one of them. (3f)
// A triangle left by clipping, in a viewport above zero, cut to the pixels of a scissor's box.
// Kept: a probe has these alone, and no settings to hand on (5)
#[tactic(auto, unfolding(crate::specs::Setup::setup_of))]
pub fn setup_triangle(
    view: View,
    range: DepthRange,
    front_face: FrontFace,
    cull: Option<CullMode>,
    within: PixelBox,
    t: Triangle,
) -> Option<Raster>
    ensures { result ≡ setup_of view range front_face cull within t.a t.b t.c }
{
    let corners = ScreenTriangle {
        a: screen::screen_vertex(view, range, t.a)?,
        b: screen::screen_vertex(view, range, t.b)?,
        c: screen::screen_vertex(view, range, t.c)?,
    };
    setup_screen(front_face, cull, within, corners)
}
