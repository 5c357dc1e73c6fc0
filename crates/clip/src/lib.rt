// Clipping a triangle to the frustum: the polygon that the seven planes leave, and the fan of triangles that it is drawn as.
#![tactic(auto)]

ghost use Rattle.std.specs.Prelude.{◌≡◌, ◌+◌, ◌<◌, ◌≤◌, cond, [], ◌∷◌, ◌++◌, length};
ghost use Rattle.std.specs.List.{list_all};
ghost use Rattle.vertices.specs.Vertex.{inside};
ghost use Rattle.clip.specs.Clip.{kept, crossing, walked, clip_plane, clipped, all_inside};

use polygon::Polygon;
use std::mem;
use vertices::{Plane, Triangle, Vertex};

// Kept: `all` needs an array of the three corners or of references to them, and `fold` a closure with the && in it: neither is shorter. A
// PerCorner::all stops at the first false, so that its clause would have to tell which calls are made: longer than the two && (3f)
#[tactic(auto, unfolding(crate::specs::Clip::all_inside))]
pub fn all_inside(t: Triangle) -> bool
    ensures { result ≡ all_inside t.a t.b t.c }
{
    t.a.inside_frustum() && t.b.inside_frustum() && t.c.inside_frustum()
}

fn are_inside(polygon: &Polygon, plane: Plane) -> bool
    ensures { result ≡ list_all (λ v. inside plane v) polygon.now }
{
    polygon.corners().iter().all(|v| v.is_inside(plane))
}

// Corner a, if it is inside.
#[tactic(auto, unfolding(crate::specs::Clip::kept))]
fn keep_inside(out: &mut Polygon, a: Vertex, plane: Plane)
    requires { length out.old + length (kept plane a) ≤ 42 }
    ensures { out.new ≡ out.old ++ kept plane a }
{
    if a.is_inside(plane) {
        out.push(a);
    }
}

// Where the edge from a to b crosses the plane, if it does.
#[tactic(auto, unfolding(crate::specs::Clip::crossing, crate::specs::Clip::cross, vertices::specs::Vertex::inside))]
fn add_crossing(out: &mut Polygon, a: Vertex, b: Vertex, plane: Plane)
    requires { length out.old + length (crossing plane a b) ≤ 42 }
    ensures { out.new ≡ out.old ++ crossing plane a b }
{
    let da = a.clip_distance(plane);
    let db = b.clip_distance(plane);
    if (da >= 0.0) != (db >= 0.0) {
        let t = da / (da - db);
        out.push(a.lerp(&b, t));
    }
}

// Kept: a polygon has room for 42 corners, 2,856 bytes that would be copied for each of the seven planes if it were answered (6)
fn walk_edges(polygon: &Polygon, plane: Plane, out: &mut Polygon)
    requires { length polygon.now ≤ 28 }
    ensures { out.new ≡ walked plane polygon.now }
{
    out.clear();
    let corners = polygon.corners();
    for (i, a) in corners.iter().enumerate() {
        // The corner after the last is the first.
        let b = corners.get(i + 1).unwrap_or(&corners[0]);
        keep_inside(out, *a, plane);
        add_crossing(out, *a, *b, plane);
    }
}

// Whether a corner is outside: what the plane leaves is in scratch then, else it is the polygon as it was.
fn clip_plane(polygon: &mut Polygon, scratch: &mut Polygon, plane: Plane) -> bool
    requires { length polygon.old ≤ 28 }
    ensures { cond result scratch.new polygon.new ≡ clip_plane plane polygon.old }
{
    if are_inside(polygon, plane) {
        return false;
    }
    walk_edges(polygon, plane, scratch);
    true
}

// The corners that the seven planes leave; none where the Rust answers false.
// Kept: the caller lends two rooms, and the answer lies in one of them: a polygon that is answered would be copied, 2,856 bytes (6)
pub fn clip_frustum<'a>(mut polygon: &'a mut Polygon, mut scratch: &'a mut Polygon) -> &'a Polygon
    requires { length polygon.old ≤ 3 }
    ensures { result.now ≡ clipped polygon.old }
{
    for plane in Plane::ALL {
        if clip_plane(polygon, scratch, plane) {
            mem::swap(&mut polygon, &mut scratch);
        }
        if polygon.corners().len() < 3 {
            polygon.clear();
            return polygon;
        }
    }
    polygon
}

// What clipping leaves of one triangle.
pub fn clip_triangle(t: Triangle) -> Polygon
    ensures { result ≡ clipped (t.a ∷ t.b ∷ t.c ∷ []) }
{
    let mut rooms = (Polygon::new(), Polygon::new());
    rooms.0.push(t.a);
    rooms.0.push(t.b);
    rooms.0.push(t.c);
    let mut polygon = Polygon::new();
    polygon.copy_from(clip_frustum(&mut rooms.0, &mut rooms.1));
    polygon
}
