// Texel indices along one side of a level.
#![tactic(auto)]

ghost use Rattle.std.specs.Prelude.{◌≡◌, true, ◌+◌, ◌≤◌, ◌<◌, negsuc, IfSome};
ghost use Rattle.std.specs.Float.Ieee as Ieee;
ghost use Rattle.floats.specs.Num.{of_nat32};
ghost use Rattle.rounding.specs.Rounding.{floor_of, next_of};
ghost use Rattle.coords.specs.Coords.{Few, Floored, wrap_texel, wrap_coord, edge_coord, axis_of};

use levels::Wrap;

// The two texels of a linear sample on one axis, and the weight of the second.
#[derive(Clone, Copy, Debug, PartialEq)]
pub struct Axis {
    pub first: u32,
    pub second: u32,
    pub weight: f32,
}

// The floor of a float: as a whole number, and as a float.
#[derive(Clone, Copy, Debug, PartialEq)]
struct Floor {
    whole: i64,
    low: f32,
}

// n of the floor -1 - n of -y.
// Kept: see floored. (4d)
fn below_part(y: f32) -> u32
    requires { Few y }
    ensures { (result < 4194304) × Floored (Ieee.neg y) (negsuc result) (Ieee.neg (of_nat32 (result + 1))) }
{
    let n = rounding::whole_part::<22>(y);
    if y == (y + 8388608.0) - 8388608.0 {
        return n - 1;
    }
    n
}

// Zeros, and what is no nearer to zero than 2^22.
#[cold]
#[inline(never)]
fn far_floor(x: f32) -> Floor
    ensures { Floored x result.whole result.low }
{
    let low = rounding::floor(x);
    Floor {
        whole: std::num::saturating_f32_to_i64(low),
        low,
    }
}

// The floor of what is near, neither zero nor from 2^22 on.
// Kept: by rounding's floor and saturating_f32_to_i64 alone nearest misses its bar of 0.5 in eight runs of twelve (up to 0.87), where this has 0.27 to 0.39. (4d)
#[inline(always)]
fn near_floor(x: f32) -> Option<Floor>
    ensures { IfSome result (λ f. Floored x f.whole f.low) }
{
    if x > 0.0 && x < 4194304.0 {
        let n = rounding::whole_part::<22>(x);
        return Some(Floor {
            whole: i64::from(n),
            low: n as f32,
        });
    }
    if x < 0.0 && -x < 4194304.0 {
        let n = below_part(-x);
        return Some(Floor {
            whole: -1 - i64::from(n),
            low: -((n + 1) as f32),
        });
    }
    None
}

fn floored(x: f32) -> Floor
    ensures { Floored x result.whole result.low }
{
    match near_floor(x) {
        Some(floor) => floor,
        None => far_floor(x),
    }
}

// A side of a level: how many texels it has, and what lies past its ends.
#[derive(Clone, Copy, Debug, PartialEq, Eq, Hash)]
pub struct Side {
    pub size: u32,
    pub wrap: Wrap,
    pub ghost some: { 0 < size },
    pub ghost few: { size ≤ 1024 },
}

impl Side {
    // The texel of a whole number. The bits of one are its remainder by a power of two, without a division.
    fn texel(self, v: i64) -> u32
        ensures { result ≡ wrap_texel self.wrap v self.size }
    {
        let size = i64::from(self.size);
        match self.wrap {
            Wrap::Repeat => {
                if self.size.is_power_of_two() {
                    return (v.cast_unsigned() & u64::from(self.size - 1)) as u32;
                }
                v.rem_euclid(size) as u32
            }
            Wrap::ClampToEdge => v.clamp(0, size - 1) as u32,
        }
    }

    // The texel of v + 1, from that of v: where the side repeats, one step.
    fn next(self, v: i64, first: u32) -> u32
        requires { first ≡ wrap_texel self.wrap v self.size }
        ensures { result ≡ wrap_texel self.wrap (next_of 63 v) self.size }
    {
        match self.wrap {
            Wrap::Repeat => {
                if v == i64::MAX {
                    return first;
                }
                if first + 1 < self.size {
                    return first + 1;
                }
                0
            }
            Wrap::ClampToEdge => self.texel(v.saturating_add(1)),
        }
    }

    // The texel, clamped, at a scaled coordinate: by its floor as a float, of which no whole number is made.
    #[tactic(auto, using(crate::proofs::Sides::side_fits), unfolding(crate::specs::Coords::edge_coord))]
    fn far_edge(self, x: f32) -> u32
        ensures { result ≡ edge_coord (floor_of x) self.size }
    {
        let low = rounding::floor(x);
        if low < 0.0 {
            return 0;
        }
        if low >= self.size as f32 {
            return self.size - 1;
        }
        std::num::saturating_f32_to_u32(low)
    }

    // The texel of a scaled coordinate that is not near.
    #[cold]
    #[inline(never)]
    fn far_texel(self, x: f32) -> u32
        ensures { result ≡ wrap_texel self.wrap (Ieee.to_signed 63 (floor_of x)) self.size }
    {
        match self.wrap {
            Wrap::Repeat => self.texel(far_floor(x).whole),
            Wrap::ClampToEdge => self.far_edge(x),
        }
    }

    // The index that a nearest sample takes.
    #[tactic(auto, using(crate::proofs::Sides::side_fits))]
    pub fn coord(self, v: f32) -> u32
        ensures { result ≡ wrap_coord self.wrap v self.size }
    {
        let x = v * self.size as f32;
        match near_floor(x) {
            Some(floor) => self.texel(floor.whole),
            None => self.far_texel(x),
        }
    }

    // The texels of a linear sample.
    #[tactic(auto, using(crate::proofs::Sides::side_fits))]
    pub fn axis(self, v: f32) -> Axis
        ensures { result ≡ axis_of self.wrap v self.size }
    {
        let x = v * self.size as f32 - 0.5;
        let floor = floored(x);
        let first = self.texel(floor.whole);
        Axis {
            first,
            second: self.next(floor.whole, first),
            weight: x - floor.low,
        }
    }
}
