// Samples where a texture coordinate, or its place among the texels, is -0.25: it is floored, and not truncated.
ghost use Rattle.std.specs.Prelude.{◌≤◌};

use crate::lines;
use answers::Refusal;
use consts::{GL_LINEAR, GL_NEAREST, GL_TEXTURE_MAG_FILTER};
use levels::Texture;
use mipmaps::Coordinates;
use sampler::Texel;

// A sample of a texture of one row or column, whose texels are grey 10, 20 and so on. Without gradients it is magnified.
fn sampled<const BYTES: usize>(
    width: u32,
    height: u32,
    filter: u32,
    s: f32,
    t: f32,
) -> Result<Texel, Refusal>
    requires { BYTES ≤ 16 }
{
    let texels = [
        10u8, 10, 10, 255, 20, 20, 20, 255, 30, 30, 30, 255, 40, 40, 40, 255,
    ];
    let mut store = [0u8; 16];
    let rgba = &texels[..BYTES];
    let new = Texture::new();
    let defined = texture::define_level(&mut store, new, 0, width, height, 0, rgba)?;
    let texture = texture::set_parameter(defined, GL_TEXTURE_MAG_FILTER, filter)?;
    let p = Coordinates {
        s,
        t,
        dsdx: 0.0,
        dtdx: 0.0,
        dsdy: 0.0,
        dtdy: 0.0,
    };
    sampler::sample(&store, texture, p)
}

// The coordinate v along s, and then along t.
fn both<const SIDE: u32, const BYTES: usize>(
    rt: &impl Print,
    along_s: &str,
    along_t: &str,
    filter: u32,
    v: f32,
)
    requires { BYTES ≤ 16 }
{
    let by_s = sampled::<BYTES>(SIDE, 1, filter, v, 0.0);
    lines::sampled(rt, along_s, by_s.ok().map(|texel| texel.r));
    let by_t = sampled::<BYTES>(1, SIDE, filter, 0.0, v);
    lines::sampled(rt, along_t, by_t.ok().map(|texel| texel.r));
}

// Kept: its own cases; the others have the name alone (2c, 7b)
pub fn run(rt: &impl Print) {
    both::<2, 8>(
        rt,
        "nearest -0.25 of 2 texels along s",
        "nearest -0.25 of 2 texels along t",
        GL_NEAREST,
        -0.25,
    );
    both::<4, 16>(
        rt,
        "nearest -0.0625 of 4 texels along s",
        "nearest -0.0625 of 4 texels along t",
        GL_NEAREST,
        -0.0625,
    );
    both::<4, 16>(
        rt,
        "linear -0.25 of 4 texels along s",
        "linear -0.25 of 4 texels along t",
        GL_LINEAR,
        -0.25,
    );
    both::<4, 16>(
        rt,
        "linear 0.0625 of 4 texels along s",
        "linear 0.0625 of 4 texels along t",
        GL_LINEAR,
        0.0625,
    );
}
