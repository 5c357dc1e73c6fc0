// Rust's operations on f32 as document 01 and the Rust's own words have them.
#![tactic(auto)]

ghost use Rattle.std.specs.Prelude.{◌≡◌};
ghost use Rattle.floats.specs.Num.{min_of, max_of, clamp_of, abs_of, finite_of, bounded_of};

// a.min(b): the other number where one is NaN, the first of two zeros.
// Kept: tried as a.min(b): std promises either of two equal numbers (IsFloatMin), so of 0 and -0 either, where min_of is a: `returns` stays open. (2a, 2e, 4c, 4d)
pub fn min(a: f32, b: f32) -> f32
    ensures { result ≡ min_of a b }
{
    if a.is_nan() {
        return b;
    }
    if b < a { b } else { a }
}

// a.max(b): the other number where one is NaN, the first of two zeros.
// Kept: tried as a.max(b): std promises either of two equal numbers (IsFloatMax), so of 0 and -0 either, where max_of is a: `returns` stays open. (2a, 4c, 4d)
pub fn max(a: f32, b: f32) -> f32
    ensures { result ≡ max_of a b }
{
    if a.is_nan() {
        return b;
    }
    if a < b { b } else { a }
}

// x.clamp(lo, hi): a NaN stays.
// Kept: tried as x.clamp(lo, hi): std asks that lo <= hi, and any two come from the C interface: `clamp-requires` stays open. (4c, 4d)
pub fn clamp(x: f32, lo: f32, hi: f32) -> f32
    ensures { result ≡ clamp_of x lo hi }
{
    if x < lo {
        return lo;
    }
    if x > hi { hi } else { x }
}

// Kept: it says by abs_of what std says in its own words; without it each that calls it would owe Signs abs_is. (4d)
#[tactic(auto, using(crate::proofs::Signs::abs_is))]
pub fn abs(x: f32) -> f32
    ensures { result ≡ abs_of x }
{
    x.abs()
}

// Kept: as abs, by finite_of and finite_is. (4d)
#[tactic(auto, using(crate::proofs::Signs::finite_is))]
pub fn is_finite(x: f32) -> bool
    ensures { result ≡ finite_of x }
{
    x.is_finite()
}

// A number's magnitude, as document 01's rule of 4 limits it.
#[derive(Clone, Copy, Debug, PartialEq, Eq, Hash)]
pub struct Magnitude;

impl Magnitude {
    pub const MAX: f32 = 1048576.0;
}

// Document 01's rule of 4: finite, and at most 1,048,576 in magnitude.
pub fn is_bounded(x: f32) -> bool
    ensures { result ≡ bounded_of x }
{
    x <= Magnitude::MAX && x >= -Magnitude::MAX
}
