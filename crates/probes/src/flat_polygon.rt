// A polygon as its caller lends it: its corners laid flat, seventeen floats each.
ghost use Rattle.std.specs.Prelude.{◌≡◌, ◌+◌, ◌*◌, ◌≤◌, length};
ghost use Rattle.probes.specs.Corners.{vertex_at, put_at, Full, corners_of};

use polygon::Polygon;
use std::array;
use vertices::Vertex;

// Corner i.
// Kept: the comparison lends a polygon as floats laid flat, and here it gets its type. (6d)
pub fn corner(polygon: &[f32], i: usize) -> Vertex
    requires { i * 17 + 17 ≤ length polygon.now }
    ensures { result ≡ vertex_at polygon.now i }
{
    let at = i * 17;
    Vertex {
        pos: array::from_fn(|k| polygon[at + k]),
        color: array::from_fn(|k| polygon[at + (4 + k)]),
        texcoord: array::from_fn(|k| polygon[at + (8 + k)]),
        fog_depth: polygon[at + 16],
    }
}

// Stores corner i.
// Kept: the comparison lends a polygon as floats laid flat, and here it gets its type. (6d)
pub fn put_corner(polygon: &mut [f32], i: usize, vertex: Vertex)
    requires { i * 17 + 17 ≤ length polygon.old }
    ensures { (polygon.new ≡ put_at polygon.old i vertex) × Full vertex }
{
    let at = i * 17;
    polygon[at..at + 4].copy_from_slice(&vertex.pos);
    polygon[at + 4..at + 8].copy_from_slice(&vertex.color);
    polygon[at + 8..at + 16].copy_from_slice(&vertex.texcoord);
    polygon[at + 16] = vertex.fog_depth;
}

// Stores a polygon's corners, from the front.
// Kept: the comparison lends a polygon as floats laid flat, and here it gets its type. (6d)
pub fn put_corners(polygon: &mut [f32], from: &Polygon)
    requires { 714 ≤ length polygon.old }
    ensures { corners_of (length from.now) polygon.new ≡ from.now }
{
    for (i, vertex) in from.corners().iter().enumerate() {
        put_corner(polygon, i, *vertex);
    }
}
