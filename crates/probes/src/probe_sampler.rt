// The level of detail and the sampler.
ghost use Rattle.std.specs.Prelude.{◌≡◌, cond, true, ℕ, ◌+◌, ◌*◌, ◌≤◌, length, get_or};
ghost use Rattle.std.specs.Float.{nan};
ghost use Rattle.lists.specs.Lists.{tab};
ghost use Rattle.levels.specs.Levels.{valid_of};
ghost use Rattle.detail.specs.Pairs.{q_of};
ghost use Rattle.sampler.specs.Samples.{sample_of, sample_check};
ghost use Rattle.probes.specs.Sampling.{steps_if, steps_from, texture_from, coordinates_from, packed};

use answers::Refusal;
use detail::LevelTable;
use levels::Texture;
use mipmaps::Coordinates;
use replay::numbered::Numbers;
use std::array;

#[unsafe(no_mangle)]
pub extern "C" fn probe_q_of(
    width: u32,
    height: u32,
    dsdx: f32,
    dtdx: f32,
    dsdy: f32,
    dtdy: f32,
) -> f64
    ensures { result ≡ q_of width height dsdx dtdx dsdy dtdy }
{
    detail::q_of(width, height, dsdx, dtdx, dsdy, dtdy)
}

// n of a finite q above 1; no other q has any.
fn steps_of(table: &LevelTable, q: f64) -> Option<u64>
    ensures { result ≡ steps_if q }
{
    if q > 1.0 && q < f64::INFINITY {
        return Some(table.steps(q));
    }
    None
}

// n of each q: both slices have one length.
#[unsafe(no_mangle)]
pub extern "C" fn probe_steps(src: &[f64], out: &mut [u64])
    // Kept: the C interface lends two slices. (5a)
    requires { length src.now ≡ length out.old }
    ensures { out.new ≡ tab (length src.now) (λ (i : ℕ). steps_from (get_or src.now i nan)) }
{
    let table = LevelTable::new();
    for (i, n) in out.iter_mut().enumerate() {
        *n = steps_of(&table, src[i]).unwrap_or(0);
    }
}

// Kept: the C interface of the probes lends the coordinates laid flat, six a sample. (6d)
fn coordinates_from(coords: &[f32], i: usize) -> Coordinates
    requires { i * 6 + 6 ≤ length coords.now }
    ensures { result ≡ coordinates_from coords.now i }
{
    Coordinates::from(array::from_fn(|k| coords[i * 6 + k]))
}

// Kept: what sample_with_gradients asks for, as it asks. (5c)
fn fill(store: &[u8], table: &LevelTable, texture: &Texture, coords: &[f32], out: &mut [u32])
    // Kept: what sample_with_gradients asks for, as it asks. (5a)
    requires valid { valid_of (length store.now) texture.now ≡ true }
    requires coordinates { length coords.now ≡ length out.old * 6 }
    ensures { out.new ≡ tab (length out.old) (λ (i : ℕ). packed (sample_of store.now texture.now (coordinates_from coords.now i))) }
{
    for (i, texel) in out.iter_mut().enumerate() {
        let p = coordinates_from(coords, i);
        *texel = u32::from(sampler::sample_with_gradients(store, table, texture, p));
    }
}

// Samples of one texture: the record is checked and the table made once, as in a draw.
#[unsafe(no_mangle)]
pub extern "C" fn probe_samples(
    store: &[u8],
    numbers: &[u32],
    coords: &[f32],
    out: &mut [u32],
) -> u32
    requires { (length numbers.now ≡ 49) × (length coords.now ≡ length out.old * 6) }
    ensures { (result ≡ sample_check (length store.now) (texture_from numbers.now)) × (out.new ≡ cond (valid_of (length store.now) (texture_from numbers.now)) (tab (length out.old) (λ (i : ℕ). packed (sample_of store.now (texture_from numbers.now) (coordinates_from coords.now i)))) out.old) }
{
    let texture = Numbers { all: numbers }.texture();
    if !levels::is_valid(texture, store.len()) {
        return Refusal::Record.number();
    }
    fill(store, &LevelTable::new(), &texture, coords, out);
    0
}
