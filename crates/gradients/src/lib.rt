// Numbers between the corners of a triangle: weighted sums, perspective-correct attributes, and their slopes on the screen.
#![tactic(auto)]

ghost use Rattle.std.specs.Prelude.{◌≡◌, ◌<◌, get_or};
ghost use Rattle.std.specs.Float.{nan};
ghost use Rattle.gradients.specs.Gradients.{per_corner, sum_of, perspective_sum, slopes_x, slopes_y, derivatives_of, slope_of, attribute_of};

// One for each corner of a triangle, in the order in which the corners are given.
#[derive(Clone, Copy, Debug, PartialEq)]
pub struct PerCorner<T> {
    pub a: T,
    pub b: T,
    pub c: T,
}

impl<T> PerCorner<T> {
    // What a function makes of each.
    #[inline(always)]
    pub fn map<U, F: Fn(T) -> U>(self, f: F) -> PerCorner<U>
        requires { F.pre f self.a × F.pre f self.b × F.pre f self.c }
        ensures a { F.post f self.a result.a }
        ensures b { F.post f self.b result.b }
        ensures c { F.post f self.c result.c }
    {
        let PerCorner { a, b, c } = self;
        PerCorner {
            a: f(a),
            b: f(b),
            c: f(c),
        }
    }

    // What a function makes of a start and each in turn.
    #[inline(always)]
    pub fn fold<U, F: Fn(U, T) -> U>(self, start: U, f: F) -> U
        requires a { F.pre f start self.a }
        requires b { (x : _) → F.post f start self.a x → F.pre f x self.b }
        requires c { (x : _) (y : _) → F.post f start self.a x → F.post f x self.b y → F.pre f y self.c }
        ensures { (x : U) × (y : U) × F.post f start self.a x × F.post f x self.b y × F.post f y self.c result }
    {
        let PerCorner { a, b, c } = self;
        f(f(f(start, a), b), c)
    }
}

#[derive(Clone, Copy, Debug, PartialEq)]
pub struct TriangleDerivatives {
    pub inv_w: PerCorner<f32>,
    pub barycentric_dx: PerCorner<f32>,
    pub barycentric_dy: PerCorner<f32>,
    pub dqdx: f32,
    pub dqdy: f32,
}

// An attribute at a pixel, and its slopes across and down the screen.
#[derive(Clone, Copy, Debug, PartialEq)]
pub struct Attribute {
    pub value: f32,
    pub dx: f32,
    pub dy: f32,
}

pub fn weighted_sum(w: PerCorner<f32>, v: PerCorner<f32>) -> f32
    ensures { result ≡ sum_of w v }
{
    w.a * v.a + w.b * v.b + w.c * v.c
}

// Each weight times 1/w, then times the value.
pub fn perspective_sum(w: PerCorner<f32>, inv_w: PerCorner<f32>, v: PerCorner<f32>) -> f32
    ensures { result ≡ perspective_sum w inv_w v }
{
    w.a * inv_w.a * v.a + w.b * inv_w.b * v.b + w.c * inv_w.c * v.c
}

impl<const N: usize> PerCorner<[f32; N]> {
    // The number at one place of each.
    pub fn at(self, i: usize) -> PerCorner<f32>
        requires { i < N }
        ensures { result ≡ per_corner (get_or self.entry.a i nan) (get_or self.entry.b i nan) (get_or self.entry.c i nan) }
    {
        let PerCorner { a, b, c } = self;
        PerCorner {
            a: a[i],
            b: b[i],
            c: c[i],
        }
    }
}

impl PerCorner<f32> {
    // The corners the other way round: b and c change places.
    fn turned(self) -> PerCorner<f32>
        ensures { result ≡ per_corner self.a self.c self.b }
    {
        PerCorner {
            a: self.a,
            b: self.c,
            c: self.b,
        }
    }
}

// How the weights change across the screen. Down the screen they change as across it with x for y and the corners the other way round.
#[tactic(auto, unfolding(crate::specs::Gradients::slopes_x))]
fn weight_slopes(y: PerCorner<f32>, inv_area: f32) -> PerCorner<f32>
    ensures { result ≡ slopes_x y inv_area }
{
    PerCorner {
        a: (y.b - y.c) * inv_area,
        b: (y.c - y.a) * inv_area,
        c: (y.a - y.b) * inv_area,
    }
}

// The corners' screen x and y, their 1/w, and 1/area.
#[tactic(auto, unfolding(crate::specs::Gradients::derivatives_of, crate::specs::Gradients::slopes_x, crate::specs::Gradients::slopes_y))]
pub fn derivatives(
    x: PerCorner<f32>,
    y: PerCorner<f32>,
    inv_w: PerCorner<f32>,
    inv_area: f32,
) -> TriangleDerivatives
    ensures { result ≡ derivatives_of x y inv_w inv_area }
{
    let dx = weight_slopes(y, inv_area);
    let dy = weight_slopes(x.turned(), inv_area).turned();
    TriangleDerivatives {
        inv_w,
        barycentric_dx: dx,
        barycentric_dy: dy,
        dqdx: weighted_sum(dx, inv_w),
        dqdy: weighted_sum(dy, inv_w),
    }
}

#[tactic(auto, unfolding(crate::specs::Gradients::slope_of))]
fn slope(numerator: f32, value: f32, dq: f32, reciprocal_q: f32) -> f32
    ensures { result ≡ slope_of numerator value dq reciprocal_q }
{
    (numerator - value * dq) * reciprocal_q
}

pub fn perspective_attribute_with_gradients(
    values: PerCorner<f32>,
    weights: PerCorner<f32>,
    reciprocal_q: f32,
    derivatives: TriangleDerivatives,
) -> Attribute
    ensures { result ≡ attribute_of values weights reciprocal_q derivatives }
{
    let value = perspective_sum(weights, derivatives.inv_w, values) * reciprocal_q;
    let numerator_dx = perspective_sum(derivatives.barycentric_dx, derivatives.inv_w, values);
    let numerator_dy = perspective_sum(derivatives.barycentric_dy, derivatives.inv_w, values);
    Attribute {
        value,
        dx: slope(numerator_dx, value, derivatives.dqdx, reciprocal_q),
        dy: slope(numerator_dy, value, derivatives.dqdy, reciprocal_q),
    }
}
