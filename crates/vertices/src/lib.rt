// A vertex in clip space: its seventeen floats, its distances to the seven clip planes, and the vertex between two.
#![tactic(auto)]

ghost use Rattle.std.specs.Prelude.{◌≡◌, ◌<◌};
ghost use Rattle.std.specs.List.{list_all};
ghost use Rattle.vertices.specs.Vertex.{new_vertex, mix_of, mix_at, mixed, lerp, plane_at, distance, inside, inside_frustum};

use gradients::PerCorner;
use std::array;

#[derive(Clone, Copy, Debug, PartialEq)]
pub struct Vertex {
    // Clip-space position, w not yet divided out.
    pub pos: [f32; 4],
    pub color: [f32; 4],
    // Unit u's coordinates stand at 2 * u and 2 * u + 1.
    pub texcoord: [f32; 8],
    pub fog_depth: f32,
}

pub type Triangle = PerCorner<Vertex>;

// The six sides of the frustum, and w above 0.
#[derive(Clone, Copy, Debug, PartialEq, Eq, Hash)]
pub enum Plane {
    Left,
    Right,
    Bottom,
    Top,
    Near,
    Far,
    PositiveW,
}

impl Plane {
    // In the order that a polygon is cut by them.
    pub const ALL: [Plane; 7] = [
        Plane::Left,
        Plane::Right,
        Plane::Bottom,
        Plane::Top,
        Plane::Near,
        Plane::Far,
        Plane::PositiveW,
    ];
}

// The plane at a place of that order; past its end, the last.
// Kept: a probe of the C interface alone asks for a plane by its place, and has no refusal to answer (1l, 1n)
impl From<usize> for Plane {
    ghost from_gives = { λ n p. p ≡ plane_at n };

    fn from(n: usize) -> Self {
        Plane::ALL.get(n).copied().unwrap_or(Plane::PositiveW)
    }
}

#[tactic(auto, unfolding(crate::specs::Vertex::mix_of))]
fn mix(x: f32, y: f32, t: f32) -> f32
    ensures { result ≡ mix_of t x y }
{
    x + (y - x) * t
}

// Each number of a mixed with b's.
fn mix_each<const N: usize>(a: &[f32; N], b: &[f32; N], t: f32) -> [f32; N]
    ensures { result ≡ mixed N t a.now b.now }
{
    array::from_fn(
        |i: usize| -> f32
            requires { i < N }
            ensures { result ≡ mix_at t a.entry.now b.entry.now i }
        { mix(a[i], b[i], t) },
    )
}

const CLIP_W_EPSILON: f32 = 1.0e-8;

impl Vertex {
    // Kept: a public function, which docs/RULES.md names; a Default that calls it would stand beside it, and no code asks for one. (4m)
    pub fn new() -> Self
        ensures { result ≡ new_vertex }
    {
        Vertex {
            pos: [0.0, 0.0, 0.0, 1.0],
            color: [1.0; 4],
            texcoord: [0.0; 8],
            fog_depth: 0.0,
        }
    }

    // The vertex at t of the way to another, each of the seventeen floats mixed alike.
    #[tactic(auto, unfolding(crate::specs::Vertex::lerp))]
    pub fn lerp(&self, b: &Vertex, t: f32) -> Vertex
        ensures { result ≡ lerp t self.now b.now }
    {
        Vertex {
            pos: mix_each(&self.pos, &b.pos, t),
            color: mix_each(&self.color, &b.color, t),
            texcoord: mix_each(&self.texcoord, &b.texcoord, t),
            fog_depth: mix(self.fog_depth, b.fog_depth, t),
        }
    }

    // How far inside a plane it is.
    pub fn clip_distance(&self, plane: Plane) -> f32
        ensures { result ≡ distance plane self.now }
    {
        let p = self.pos;
        match plane {
            Plane::Left => p[3] + p[0],
            Plane::Right => p[3] - p[0],
            Plane::Bottom => p[3] + p[1],
            Plane::Top => p[3] - p[1],
            Plane::Near => p[3] + p[2],
            Plane::Far => p[3] - p[2],
            Plane::PositiveW => p[3] - CLIP_W_EPSILON,
        }
    }

    pub fn is_inside(&self, plane: Plane) -> bool
        ensures { result ≡ inside plane self.now }
    {
        self.clip_distance(plane) >= 0.0
    }

    #[tactic(auto, unfolding(crate::specs::Vertex::inside_frustum))]
    pub fn inside_frustum(&self) -> bool
        ensures { result ≡ inside_frustum self.now }
    {
        Plane::ALL.iter().all(|plane| self.is_inside(*plane))
    }
}
