// Filling the triangles that clipping leaves (raster.rs, raster_clipped and draw_triangle past its checks).
#![tactic(auto)]

ghost use Rattle.std.specs.Prelude.{◌≡◌, ◌+◌, ◌*◌, ◌-◌, ◌<◌, ◌≤◌, length, [], ◌∷◌};
ghost use Rattle.pixels.specs.Targets.{drawn_on, Same, Holds};
ghost use Rattle.clip.specs.Fan.{triangle_of, fan_of, draw_each};
ghost use Rattle.clip.specs.Clip.{clipped};
ghost use Rattle.raster.specs.Fill.{primitive_of, row_of, fill_of, raster_of, left_drawn};

use coverage::Primitive;
use pixels::target::Target;
use pixels::{Paint, Staged};
use polygon::Polygon;
use scissor::PixelBox;
use screen::View;
use settings::PipelineState;
use setup::Raster;
use vertices::Triangle;

#[tactic(auto, unfolding(crate::specs::Fill::primitive_of))]
pub fn primitive(raster: Raster, vertices: Triangle) -> Primitive
    ensures { result ≡ primitive_of raster vertices.a vertices.b vertices.c }
{
    let of = raster.corners;
    let (x, y, inv_w) = (of.map(|v| v.x), of.map(|v| v.y), of.map(|v| v.inv_w));
    let derivatives = gradients::derivatives(x, y, inv_w, raster.inv_area);
    Primitive {
        raster,
        derivatives,
        vertices,
    }
}

// The columns x0 to x1 of a row.
// Kept: a struct of triangle and target would be made anew for each row, to lend the target that it changes (5c)
fn fill_row<P: Paint>(target: &mut Target, paint: &P, t: Primitive, x0: u32, x1: u32, py: u32)
    requires paints { P.paints paint.now t }
    requires bounds { (x1 ≤ target.old.width) × (py < 4096) × (target.old.written ≤ 900000000000) }
    requires inside { py * target.old.width + target.old.width ≤ length target.old.depths.now }
    ensures drawn { drawn_on target.new ≡ row_of (P.store paint.now) (P.drawing paint.now) t target.old.width x0 x1 py (drawn_on target.old) }
    // Kept: a fact of the type cannot speak of the target as it was (5b)
    ensures same { Same target.old target.new }
    ensures count { target.new.written ≤ target.old.written + 4096 }
{
    for px in x0..x1 {
        paint.draw_pixel(target, t, py, px);
    }
}

// The box's rows, from the top.
// Kept: as fill_row; render_target's fill has its name, and writes one value (2c, 5c)
pub fn fill<P: Paint>(target: &mut Target, paint: &P, t: Primitive, pixels: PixelBox)
    requires paints { P.paints paint.now t }
    requires inside { Holds target.old pixels }
    // Kept: a fact of the type would end as the count grows (5a)
    requires count { target.old.written ≤ 800000000000 }
    ensures drawn { drawn_on target.new ≡ fill_of (P.store paint.now) (P.drawing paint.now) t target.old.width pixels (drawn_on target.old) }
    // Kept: a fact of the type cannot speak of the target as it was (5b)
    ensures same { Same target.old target.new }
    // Kept: a fact of the type cannot speak of the target as it was (5b)
    ensures count { target.new.written ≤ target.old.written + 16777216 }
{
    for py in pixels.y0..pixels.y1 {
        fill_row(target, paint, t, pixels.x0, pixels.x1, py);
    }
}

// A draw past its checks: what it does with a triangle that is set up, for which it may choose another paint.
pub trait Draw: Paint {
    // Kept: as fill, whose parameters it hands on (5c)
    fn fill_triangle(&self, target: &mut Target, t: Primitive, pixels: PixelBox)
        requires inside { Holds target.old pixels }
        // Kept: a fact of the type would end where the count grows (5a)
        requires count { target.old.written ≤ 800000000000 }
        ensures drawn { drawn_on target.new ≡ fill_of (Self.store self.now) (Self.drawing self.now) t target.old.width pixels (drawn_on target.old) }
        // Kept: a fact of the type cannot speak of the target as it was (5b)
        ensures same { Same target.old target.new }
        // Kept: a fact of the type cannot speak of the target as it was (5b)
        ensures count { target.new.written ≤ target.old.written + 16777216 };
}

impl Draw for Staged<'_> {
    // Kept: an impl repeats its trait's head (5c)
    fn fill_triangle(&self, target: &mut Target, t: Primitive, pixels: PixelBox) {
        fill(target, self, t, pixels);
    }
}

// One triangle left by clipping.
// Kept: a struct of the four would lend the target that each call changes, made anew for each triangle of a fan (5c)
fn raster_clipped<D: Draw>(target: &mut Target, paint: &D, view: View, t: Triangle)
    // Kept: a fact of the type would end where the count grows (5a)
    requires { target.old.written ≤ 800000000000 }
    ensures drawn { drawn_on target.new ≡ raster_of (D.store paint.now) (D.drawing paint.now) view target.old.within target.old.width (triangle_of t.a t.b t.c) (drawn_on target.old) }
    // Kept: a fact of the type cannot speak of the target as it was (5b)
    ensures same { Same target.old target.new }
    // Kept: a fact of the type cannot speak of the target as it was (5b)
    ensures count { target.new.written ≤ target.old.written + 16777216 }
{
    let state = paint.state();
    let range = state.depth_range;
    let front_face = state.front_face;
    let cull = state.cull;
    let within = target.within;
    let Some(raster) = setup::setup_triangle(view, range, front_face, cull, within, t) else {
        return;
    };
    paint.fill_triangle(target, primitive(raster, t), raster.pixels);
}

// The fan of the polygon that clipping leaves.
// Kept: as raster_clipped (5c)
fn draw_fan<D: Draw>(target: &mut Target, paint: &D, view: View, t: Triangle)
    requires { target.old.written ≡ 0 }
    ensures drawn { drawn_on target.new ≡ draw_each (raster_of (D.store paint.now) (D.drawing paint.now) view target.old.within target.old.width) (fan_of (clipped (t.a ∷ t.b ∷ t.c ∷ []))) (drawn_on target.old) }
    // Kept: a fact of the type cannot speak of the target as it was (5b)
    ensures same { Same target.old target.new }
{
    let mut rooms = (Polygon::new(), Polygon::new());
    rooms.0.push(t.a);
    rooms.0.push(t.b);
    rooms.0.push(t.c);
    let polygon = clip::clip_frustum(&mut rooms.0, &mut rooms.1);
    let Some((a, rest)) = polygon.corners().split_first() else {
        return;
    };
    for pair in rest.array_windows::<2>() {
        let [b, c] = *pair;
        raster_clipped(target, paint, view, Triangle { a: *a, b, c });
    }
}

// All that clipping leaves of a triangle.
// Kept: as raster_clipped (5c)
pub fn draw_into<D: Draw>(target: &mut Target, paint: &D, view: View, t: Triangle)
    requires { target.old.written ≡ 0 }
    ensures drawn { drawn_on target.new ≡ left_drawn (D.store paint.now) (D.drawing paint.now) view target.old.within target.old.width t.a t.b t.c (drawn_on target.old) }
    // Kept: a fact of the type cannot speak of the target as it was (5b)
    ensures same { Same target.old target.new }
{
    if clip::all_inside(t) {
        raster_clipped(target, paint, view, t);
        return;
    }
    draw_fan(target, paint, view, t);
}
