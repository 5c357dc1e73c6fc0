// The crates vertices, clip, setup and gradients. A polygon is 714 floats, seventeen a corner; a clause asks for those that are read.
ghost use Rattle.std.specs.Prelude.{◌≡◌, [], ◌∷◌, ◌≤◌, ◌<◌, length, get_or};
ghost use Rattle.std.specs.Float.{nan};
ghost use Rattle.std.proofs.lemmas.List.Edits.{sets};
ghost use Rattle.vertices.specs.Vertex.{plane_at, distance, inside_frustum, lerp};
ghost use Rattle.probes.specs.Corners.{vertex_at, corners_of, put_at};
ghost use Rattle.clip.specs.Clip.{clipped};
ghost use Rattle.setup.specs.Setup.{setup_of};
ghost use Rattle.gradients.specs.Gradients.{derivatives_of, attribute_of};
ghost use Rattle.probes.specs.Told.{view_from, range_from, box_from, face_of, cull_of, told, told_of, attribute_floats, floats_of, ends_of, corners_from};

use crate::flat_polygon;
use gradients::PerCorner;
use polygon::Polygon;
use replay::numbered::Code;
use scissor::PixelBox;
use screen::View;
use settings::{DepthRange, FrontFace};
use setup::Raster;
use vertices::{Plane, Triangle};

#[unsafe(no_mangle)]
pub extern "C" fn probe_clip_distance(polygon: &[f32], plane: usize) -> f32
    requires { 17 ≤ length polygon.now }
    ensures { result ≡ distance (plane_at plane) (vertex_at polygon.now 0) }
{
    flat_polygon::corner(polygon, 0).clip_distance(Plane::from(plane))
}

#[unsafe(no_mangle)]
pub extern "C" fn probe_inside_frustum(polygon: &[f32]) -> bool
    requires { 17 ≤ length polygon.now }
    ensures { result ≡ inside_frustum (vertex_at polygon.now 0) }
{
    flat_polygon::corner(polygon, 0).inside_frustum()
}

// Corner 2 becomes the vertex at t between corners 0 and 1.
#[unsafe(no_mangle)]
pub extern "C" fn probe_lerp_vertex(polygon: &mut [f32], t: f32)
    requires { 51 ≤ length polygon.old }
    ensures { polygon.new ≡ put_at polygon.old 2 (lerp t (vertex_at polygon.old 0) (vertex_at polygon.old 1)) }
{
    let a = flat_polygon::corner(polygon, 0);
    let b = flat_polygon::corner(polygon, 1);
    flat_polygon::put_corner(polygon, 2, a.lerp(&b, t));
}

// The first three corners become the polygon that clipping leaves of them.
#[unsafe(no_mangle)]
pub extern "C" fn probe_clip_triangle(polygon: &mut [f32]) -> usize
    requires { 714 ≤ length polygon.old }
    ensures { corners_of result polygon.new ≡ clipped (vertex_at polygon.old 0 ∷ vertex_at polygon.old 1 ∷ vertex_at polygon.old 2 ∷ []) }
{
    let mut rooms = (Polygon::new(), Polygon::new());
    rooms.0.push(flat_polygon::corner(polygon, 0));
    rooms.0.push(flat_polygon::corner(polygon, 1));
    rooms.0.push(flat_polygon::corner(polygon, 2));
    let left = clip::clip_frustum(&mut rooms.0, &mut rooms.1);
    flat_polygon::put_corners(polygon, left);
    left.corners().len()
}

// x, y, z and 1/w of each corner, then 1/area; x0, y0, x1, y1 of its pixels.
fn tell(r: Raster, out: &mut [f32], ends: &mut [u32])
    requires { (13 ≤ length out.old) × (4 ≤ length ends.old) }
    ensures { (out.new ≡ sets out.old 0 (floats_of r)) × (ends.new ≡ sets ends.old 0 (ends_of r.pixels)) }
{
    let Raster {
        corners,
        inv_area,
        pixels,
    } = r;
    let PerCorner { a, b, c } = corners;
    out[..13].copy_from_slice(&[
        a.x, a.y, a.z, a.inv_w, b.x, b.y, b.z, b.inv_w, c.x, c.y, c.z, c.inv_w, inv_area,
    ]);
    ends[..4].copy_from_slice(&[pixels.x0, pixels.y0, pixels.x1, pixels.y1]);
}

// The first three corners made ready to fill: false, or the numbers in out and ends.
// view has the viewport's x, y, width and height and the target's height; ends begins with the box to cut to.
#[unsafe(no_mangle)]
pub extern "C" fn probe_setup(
    polygon: &[f32],
    view: &[f32],
    near: f32,
    far: f32,
    ccw: bool,
    culled: u32,
    out: &mut [f32],
    ends: &mut [u32],
) -> bool
    requires { (51 ≤ length polygon.now) × (length view.now ≡ 5) × (13 ≤ length out.old) × (4 ≤ length ends.old) }
    ensures { told result out.new ends.new ≡ told_of (setup_of (view_from view.now) (range_from near far) (face_of ccw) (cull_of culled) (box_from ends.old) (vertex_at polygon.now 0) (vertex_at polygon.now 1) (vertex_at polygon.now 2)) out.old ends.old }
{
    let view = View {
        x: view[0],
        y: view[1],
        width: view[2],
        height: view[3],
        rows: view[4],
    };
    let range = DepthRange { near, far };
    let front_face = if ccw { FrontFace::Ccw } else { FrontFace::Cw };
    let within = PixelBox {
        x0: ends[0],
        y0: ends[1],
        x1: ends[2],
        y1: ends[3],
    };
    let t = Triangle {
        a: flat_polygon::corner(polygon, 0),
        b: flat_polygon::corner(polygon, 1),
        c: flat_polygon::corner(polygon, 2),
    };
    let cull = Option::from(Code { number: culled });
    let Some(r) = setup::setup_triangle(view, range, front_face, cull, within, t) else {
        return false;
    };
    tell(r, out, ends);
    true
}

// Numbers at three places, one for each corner.
fn corners_at(l: &[f32], i: usize, j: usize, k: usize) -> PerCorner<f32>
    requires { (i < length l.now) × (j < length l.now) × (k < length l.now) }
    ensures { result ≡ corners_from l.now i j k }
{
    PerCorner {
        a: l[i],
        b: l[j],
        c: l[k],
    }
}

// An attribute and its slopes: corners has what probe_setup told, and out begins with its values and weights.
#[unsafe(no_mangle)]
pub extern "C" fn probe_attribute(corners: &[f32], reciprocal_q: f32, out: &mut [f32])
    requires { (length corners.now ≡ 13) × (length out.old ≡ 6) }
    ensures { out.new ≡ sets out.old 0 (attribute_floats (attribute_of (corners_from out.old 0 1 2) (corners_from out.old 3 4 5) reciprocal_q (derivatives_of (corners_from corners.now 0 4 8) (corners_from corners.now 1 5 9) (corners_from corners.now 3 7 11) (get_or corners.now 12 nan)))) }
{
    let d = gradients::derivatives(
        corners_at(corners, 0, 4, 8),
        corners_at(corners, 1, 5, 9),
        corners_at(corners, 3, 7, 11),
        corners[12],
    );
    let values = corners_at(out, 0, 1, 2);
    let weights = corners_at(out, 3, 4, 5);
    let r = gradients::perspective_attribute_with_gradients(values, weights, reciprocal_q, d);
    out[..3].copy_from_slice(&[r.value, r.dx, r.dy]);
}
