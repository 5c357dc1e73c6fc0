// A pixel's weights, whether a triangle covers it, and what lies between the triangle's corners there (raster.rs, raster_clipped).
#![tactic(auto)]

ghost use Rattle.std.specs.Prelude.{◌≡◌, ◌≤◌};
ghost use Rattle.coverage.specs.Coverage.{centre_of, edge_of, weights_of, covered_by, depth_at, inv_w_at, usable, shares_of, color_of};

use gradients::{PerCorner, TriangleDerivatives};
use screen::{ScreenTriangle, ScreenVertex};
use settings::Rgba;
use setup::Raster;
use std::array;
use vertices::Triangle;

// A triangle ready to fill: its corners on the screen, its slopes, and the vertices that it interpolates.
#[derive(Clone, Copy, Debug, PartialEq)]
pub struct Primitive {
    pub raster: Raster,
    pub derivatives: TriangleDerivatives,
    pub vertices: Triangle,
}

// Up to 2^24 an f32 is every n.
fn centre(n: u32) -> f32
    requires { n ≤ 16777216 }
    ensures { result ≡ centre_of n }
{
    n as f32 + 0.5
}

#[tactic(auto, unfolding(crate::specs::Coverage::edge_of))]
fn edge(p: ScreenVertex, q: ScreenVertex, sx: f32, sy: f32, inv_area: f32) -> f32
    ensures { result ≡ edge_of p q sx sy inv_area }
{
    ((q.x - p.x) * (sy - p.y) - (q.y - p.y) * (sx - p.x)) * inv_area
}

pub fn weights_at(t: Raster, px: u32, py: u32) -> PerCorner<f32>
    requires { (px ≤ 16777216) × (py ≤ 16777216) }
    ensures { result ≡ weights_of t px py }
{
    let sx = centre(px);
    let sy = centre(py);
    let ScreenTriangle { a, b, c } = t.corners;
    let w0 = edge(b, c, sx, sy, t.inv_area);
    let w1 = edge(c, a, sx, sy, t.inv_area);
    PerCorner {
        a: w0,
        b: w1,
        c: 1.0 - w0 - w1,
    }
}

const EDGE_EPS: f32 = -1e-6;

// A weight that is no number covers too.
pub fn is_covered(w: PerCorner<f32>) -> bool
    ensures { result ≡ covered_by w }
{
    !(w.a < EDGE_EPS) && !(w.b < EDGE_EPS) && !(w.c < EDGE_EPS)
}

#[tactic(auto, unfolding(crate::specs::Coverage::depth_at))]
pub fn depth_at(t: Raster, w: PerCorner<f32>) -> f32
    ensures { result ≡ depth_at t w }
{
    gradients::weighted_sum(w, t.corners.map(|v| v.z))
}

#[tactic(auto, unfolding(crate::specs::Coverage::inv_w_at))]
pub fn inv_w_at(t: Raster, w: PerCorner<f32>) -> f32
    ensures { result ≡ inv_w_at t w }
{
    gradients::weighted_sum(w, t.corners.map(|v| v.inv_w))
}

// Whether an interpolated 1/w can be divided by.
pub fn is_usable(iw: f32) -> bool
    ensures { result ≡ usable iw }
{
    iw > 0.0 && iw < f32::INFINITY
}

// The weights with perspective; rec is 1 over the interpolated 1/w.
#[tactic(auto, unfolding(crate::specs::Coverage::shares_of))]
pub fn shares_of(t: Raster, w: PerCorner<f32>, rec: f32) -> PerCorner<f32>
    ensures { result ≡ shares_of t w rec }
{
    PerCorner {
        a: w.a * t.corners.a.inv_w * rec,
        b: w.b * t.corners.b.inv_w * rec,
        c: w.c * t.corners.c.inv_w * rec,
    }
}

// The last corner's colour, or the colour between the three.
pub fn color_at(smooth: bool, p: PerCorner<f32>, of: PerCorner<[f32; 4]>) -> Rgba
    ensures { result ≡ color_of smooth p of.a of.b of.c }
{
    if smooth {
        let between = array::from_fn(|i| gradients::weighted_sum(p, of.at(i)));
        return Rgba::from(between);
    }
    Rgba::from(of.c)
}
