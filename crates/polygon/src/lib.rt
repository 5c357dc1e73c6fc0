// The corners of a polygon under clipping.
#![tactic(auto)]

ghost use Rattle.std.specs.Prelude.{◌≡◌, ◌<◌, ◌≤◌, [], ◌∷◌, ◌++◌, length};

use std::marker::Model;
use vertices::Vertex;

// Kept: there is no heap (document 02), so the room for 42 is an array, of which len are in use; the Model shows those alone. (6a)
// Kept: a derived PartialEq would compare what stands past len, and no code compares polygons. (4n)
#[derive(Drop)]
pub struct Polygon {
    corners: [Vertex; Polygon::MAX_CORNERS],
    len: usize,
}

// Clauses see the corners in order.
impl Model for Polygon {
    ghost use Rattle.std.specs.Prelude.{List, ◌≤◌, take};
    ghost use Rattle.vertices.specs.declared.Vertex.{Vertex};

    ghost Value = { List Vertex };

    ghost view = { λ p. take p.len p.corners };

    ghost invariant = { λ p. p.len ≤ 42 };
}

impl Polygon {
    // What the seven planes can leave of a triangle.
    pub const MAX_CORNERS: usize = 42;

    // Kept: a public function, beside which no code asks for a Default; zeros, since no one reads what stands past len, and
    // the ones of `Vertex::new()` would look like a corner's (4m)
    pub fn new() -> Self
        ensures { result ≡ [] }
    {
        let zero = Vertex {
            pos: [0.0; 4],
            color: [0.0; 4],
            texcoord: [0.0; 8],
            fog_depth: 0.0,
        };
        Polygon {
            corners: [zero; Polygon::MAX_CORNERS],
            len: 0,
        }
    }

    pub fn corners(&self) -> &[Vertex]
        ensures same { result.now ≡ self.now }
        ensures few { length self.now ≤ 42 }
    {
        &self.corners[..self.len]
    }

    pub fn push(&mut self, corner: Vertex)
        requires { length self.old < 42 }
        ensures { self.new ≡ self.old ++ corner ∷ [] }
    {
        // Kept: read once, since the compiler reads it anew after a store among the corners (6)
        let len = self.len;
        self.corners[len] = corner;
        self.len = len + 1;
    }

    pub fn clear(&mut self)
        ensures { self.new ≡ [] }
    {
        self.len = 0;
    }

    pub fn copy_from(&mut self, other: &Polygon)
        ensures { self.new ≡ other.now }
    {
        let len = other.len;
        self.corners[..len].copy_from_slice(&other.corners[..len]);
        self.len = len;
    }
}
