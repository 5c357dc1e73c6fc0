// A triangle's corners on the screen: perspective divide, viewport and depth range; its signed area, facing and culling.
#![tactic(auto)]

ghost use Rattle.std.specs.Prelude.{◌≡◌};
ghost use Rattle.screen.specs.Screen.{w_fits, ndc_fits, viewport_draws, view_of, x_of, y_of, z_of, corner_of};
ghost use Rattle.screen.specs.Facing.{area_of, area_fits, front_of, discard_of};

use gradients::PerCorner;
use settings::{CullMode, DepthRange, FrontFace, Viewport};
use vertices::Vertex;

#[derive(Clone, Copy, Debug, PartialEq)]
pub struct View {
    pub x: f32,
    pub y: f32,
    pub width: f32,
    pub height: f32,
    pub rows: f32,
}

// A corner after the perspective divide. Its colour, texture coordinates and fog depth are the vertex's.
#[derive(Clone, Copy, Debug, PartialEq)]
pub struct ScreenVertex {
    pub x: f32,
    pub y: f32,
    pub z: f32,
    pub inv_w: f32,
}

pub type ScreenTriangle = PerCorner<ScreenVertex>;

fn w_fits(w: f32) -> bool
    ensures { result ≡ w_fits w }
{
    !(floats::abs(w) < 1.0e-9) && floats::is_finite(w)
}

// Kept: what it shares with draw_checks' vertices_fit is an && of three: these are floats, those are vertices. (2b)
#[tactic(auto, unfolding(crate::specs::Screen::ndc_fits))]
fn ndc_fits(x: f32, y: f32, z: f32) -> bool
    ensures { result ≡ ndc_fits x y z }
{
    floats::is_finite(x) && floats::is_finite(y) && floats::is_finite(z)
}

// A viewport of zero or less draws nothing.
#[tactic(auto, unfolding(crate::specs::Screen::viewport_draws))]
pub fn viewport_draws(viewport: Viewport) -> bool
    ensures { result ≡ viewport_draws viewport }
{
    viewport.width > 0 && viewport.height > 0
}

// The viewport and the target's height, as the floats that corners are placed by.
#[tactic(auto, unfolding(crate::specs::Screen::view_of))]
pub fn view_of(viewport: Viewport, height: u32) -> View
    ensures { result ≡ view_of viewport height }
{
    View {
        x: std::num::nearest_i32_to_f32(viewport.x),
        y: std::num::nearest_i32_to_f32(viewport.y),
        width: std::num::nearest_i32_to_f32(viewport.width),
        height: std::num::nearest_i32_to_f32(viewport.height),
        rows: std::num::nearest_u32_to_f32(height),
    }
}

#[tactic(auto, unfolding(crate::specs::Screen::x_of))]
fn screen_x(view: View, ndc: f32) -> f32
    ensures { result ≡ x_of view ndc }
{
    view.x + (ndc * 0.5 + 0.5) * view.width
}

// The viewport's y counts from the bottom, the target's rows from the top.
fn screen_y(view: View, ndc: f32) -> f32
    ensures { result ≡ y_of view ndc }
{
    view.rows - (view.y + (ndc * 0.5 + 0.5) * view.height)
}

#[tactic(auto, unfolding(crate::specs::Screen::z_of))]
fn screen_z(range: DepthRange, ndc: f32) -> f32
    ensures { result ≡ z_of range ndc }
{
    floats::clamp(
        range.near + (range.far - range.near) * (ndc * 0.5 + 0.5),
        0.0,
        1.0,
    )
}

// A corner of a triangle left by clipping; none where it cannot be divided: its triangle then draws nothing.
#[tactic(auto, unfolding(crate::specs::Screen::corner_of, crate::specs::Screen::divides, crate::specs::Screen::screen_of))]
pub fn screen_vertex(view: View, range: DepthRange, vertex: Vertex) -> Option<ScreenVertex>
    ensures { result ≡ corner_of view range vertex }
{
    let p = vertex.pos;
    let w = p[3];
    if !w_fits(w) {
        return None;
    }
    let inv_w = 1.0 / w;
    // Kept: an array of the three would be made to be taken apart again. (3f)
    let x = p[0] * inv_w;
    let y = p[1] * inv_w;
    let z = p[2] * inv_w;
    if !ndc_fits(x, y, z) {
        return None;
    }
    Some(ScreenVertex {
        x: screen_x(view, x),
        y: screen_y(view, y),
        z: screen_z(range, z),
        inv_w,
    })
}

// Twice the triangle's area. Rows count downwards, so a counter-clockwise triangle has a negative one.
#[tactic(auto, unfolding(crate::specs::Facing::area_of))]
pub fn signed_area(t: ScreenTriangle) -> f32
    ensures { result ≡ area_of t.a t.b t.c }
{
    let ScreenTriangle { a, b, c } = t;
    (b.x - a.x) * (c.y - a.y) - (c.x - a.x) * (b.y - a.y)
}

pub fn area_fits(area: f32) -> bool
    ensures { result ≡ area_fits area }
{
    area != 0.0 && floats::is_finite(area)
}

pub fn is_front(front_face: FrontFace, area: f32) -> bool
    ensures { result ≡ front_of front_face area }
{
    match front_face {
        FrontFace::Ccw => area < 0.0,
        FrontFace::Cw => area > 0.0,
    }
}

// cull: which faces are discarded, if any.
pub fn is_discarded(cull: Option<CullMode>, front: bool) -> bool
    ensures { result ≡ discard_of cull front }
{
    match cull {
        None => false,
        Some(CullMode::FrontAndBack) => true,
        Some(CullMode::Front) => front,
        Some(CullMode::Back) => !front,
    }
}
