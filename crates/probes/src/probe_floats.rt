// The helpers of the crates floats, channels and rounding.
ghost use Rattle.std.specs.Prelude.{◌≡◌, ℕ, ◌+◌, ◌-◌, min, nat_eq, length, get_or, pos, negsuc, cond};
ghost use Rattle.std.specs.Float.Ieee as Ieee;
ghost use Rattle.std.specs.Float.{binary32, nan};
ghost use Rattle.lists.specs.Lists.{tab};
ghost use Rattle.floats.specs.Num.{min_of, max_of, clamp_of, abs_of, finite_of, bounded_of};
ghost use Rattle.rounding.specs.Rounding.{floor_of, ceil_of, round_of, next_of};
ghost use Rattle.channels.specs.Channel.{unit_of, byte_of, round_byte_of};
ghost use Rattle.replay.specs.Numbered.{signed_of};

use replay::numbered::Signed;

#[unsafe(no_mangle)]
pub extern "C" fn probe_min(a: f32, b: f32) -> f32
    ensures { result ≡ min_of a b }
{
    floats::min(a, b)
}

#[unsafe(no_mangle)]
pub extern "C" fn probe_max(a: f32, b: f32) -> f32
    ensures { result ≡ max_of a b }
{
    floats::max(a, b)
}

#[unsafe(no_mangle)]
pub extern "C" fn probe_clamp(x: f32, lo: f32, hi: f32) -> f32
    ensures { result ≡ clamp_of x lo hi }
{
    floats::clamp(x, lo, hi)
}

#[unsafe(no_mangle)]
pub extern "C" fn probe_abs(x: f32) -> f32
    ensures { result ≡ abs_of x }
{
    floats::abs(x)
}

#[unsafe(no_mangle)]
pub extern "C" fn probe_is_nan(x: f32) -> bool
    ensures { result ≡ Ieee.is_nan x }
{
    x.is_nan()
}

#[unsafe(no_mangle)]
pub extern "C" fn probe_is_finite(x: f32) -> bool
    ensures { result ≡ finite_of x }
{
    floats::is_finite(x)
}

#[unsafe(no_mangle)]
pub extern "C" fn probe_is_bounded(x: f32) -> bool
    ensures { result ≡ bounded_of x }
{
    floats::is_bounded(x)
}

#[unsafe(no_mangle)]
pub extern "C" fn probe_from_bits(n: u32) -> f32
    ensures { result ≡ Ieee.of_bits binary32 n }
{
    std::num::f32_from_bits_with_nan(n)
}

#[unsafe(no_mangle)]
pub extern "C" fn probe_saturating_u8(x: f32) -> u8
    ensures { result ≡ Ieee.to_unsigned 8 x }
{
    std::num::saturating_f32_to_u8(x)
}

#[unsafe(no_mangle)]
pub extern "C" fn probe_saturating_u32(x: f32) -> u32
    ensures { result ≡ Ieee.to_unsigned 32 x }
{
    std::num::saturating_f32_to_u32(x)
}

#[unsafe(no_mangle)]
pub extern "C" fn probe_floor(x: f32) -> f32
    ensures { result ≡ floor_of x }
{
    rounding::floor(x)
}

#[unsafe(no_mangle)]
pub extern "C" fn probe_ceil(x: f32) -> f32
    ensures { result ≡ ceil_of x }
{
    rounding::ceil(x)
}

#[unsafe(no_mangle)]
pub extern "C" fn probe_round(x: f32) -> f32
    ensures { result ≡ round_of x }
{
    rounding::round(x)
}

#[unsafe(no_mangle)]
pub extern "C" fn probe_saturating_i32(x: f32, n: &mut u64) -> bool
    ensures { cond result (negsuc n.new) (pos n.new) ≡ Ieee.to_signed 31 x }
{
    let s = Signed::from(i64::from(std::num::saturating_f32_to_i32(x)));
    *n = s.n;
    s.below
}

#[unsafe(no_mangle)]
pub extern "C" fn probe_saturating_i64(x: f32, n: &mut u64) -> bool
    ensures { cond result (negsuc n.new) (pos n.new) ≡ Ieee.to_signed 63 x }
{
    let s = Signed::from(std::num::saturating_f32_to_i64(x));
    *n = s.n;
    s.below
}

// One more, up to `top`. Any u64 may come, so that the numbers need not fit an i64.
fn next(s: Signed, top: u64) -> Signed
    ensures { signed_of result ≡ cond s.below (cond (nat_eq s.n 0) (pos 0) (negsuc (s.n - 1))) (pos (min (s.n + 1) top)) }
{
    Signed {
        below: s.below && s.n != 0,
        n: if s.below {
            s.n.saturating_sub(1)
        } else {
            s.n.saturating_add(1).min(top)
        },
    }
}

// Kept: the signature is the C interface's (1o)
#[unsafe(no_mangle)]
pub extern "C" fn probe_next_i32(below: bool, m: u64, n: &mut u64) -> bool
    ensures { cond result (negsuc n.new) (pos n.new) ≡ next_of 31 (cond below (negsuc m) (pos m)) }
{
    let s = next(Signed { below, n: m }, 2147483647);
    *n = s.n;
    s.below
}

// Kept: the signature is the C interface's (1o)
#[unsafe(no_mangle)]
pub extern "C" fn probe_next_i64(below: bool, m: u64, n: &mut u64) -> bool
    ensures { cond result (negsuc n.new) (pos n.new) ≡ next_of 63 (cond below (negsuc m) (pos m)) }
{
    let s = next(Signed { below, n: m }, 9223372036854775807);
    *n = s.n;
    s.below
}

#[unsafe(no_mangle)]
pub extern "C" fn probe_to_unit(v: u8) -> f32
    ensures { result ≡ unit_of v }
{
    channels::to_unit(v)
}

#[unsafe(no_mangle)]
pub extern "C" fn probe_to_byte(v: f32) -> u8
    ensures { result ≡ byte_of v }
{
    channels::to_byte(v)
}

#[unsafe(no_mangle)]
pub extern "C" fn probe_rounded_byte(x: f32) -> u8
    ensures { result ≡ round_byte_of x }
{
    channels::rounded_byte(x)
}

// The byte of each float: both slices have one length.
#[tactic(auto, using(crate::proofs::Mapped::mapped_none, crate::proofs::Mapped::mapped_all))]
#[unsafe(no_mangle)]
pub extern "C" fn probe_to_bytes(src: &[f32], out: &mut [u8])
    // Kept: the signature is the C interface's, which hands both slices over (5a)
    requires { length src.now ≡ length out.old }
    ensures { out.new ≡ tab (length src.now) (λ (i : ℕ). byte_of (get_or src.now i nan)) }
{
    for (i, x) in out.iter_mut().enumerate() {
        *x = channels::to_byte(src[i]);
    }
}

// The floor of each float: both slices have one length.
#[tactic(auto, using(crate::proofs::Mapped::mapped_none, crate::proofs::Mapped::mapped_all))]
#[unsafe(no_mangle)]
pub extern "C" fn probe_floors(src: &[f32], out: &mut [f32])
    // Kept: the signature is the C interface's, which hands both slices over (5a)
    requires { length src.now ≡ length out.old }
    ensures { out.new ≡ tab (length src.now) (λ (i : ℕ). floor_of (get_or src.now i nan)) }
{
    for (i, x) in out.iter_mut().enumerate() {
        *x = rounding::floor(src[i]);
    }
}
