// Samples. A record is lent as its layout.
ghost use Rattle.std.specs.Prelude.{◌≡◌, ◌<◌};
ghost use Rattle.tilefringe.specs.SampleCalls.{coordinates, told, layout_sample};

use crate::{WRONG_LAYOUT, give};
use mipmaps::Coordinates;

#[unsafe(no_mangle)]
pub extern "C" fn tf_sample(
    layout: &[u8],
    store: &[u8],
    s: f32,
    t: f32,
    dsdx: f32,
    dtdx: f32,
    dsdy: f32,
    dtdy: f32,
    texel: &mut u32,
) -> u32
    ensures { told result texel.new ≡ layout_sample layout.now store.now (coordinates s t dsdx dtdx dsdy dtdy) texel.old }
{
    let Some(texture) = layouts::read_record(layout) else {
        return WRONG_LAYOUT; // Kept: the C interface's answer for a layout that holds no record. (1j)
    };
    let p = Coordinates {
        s,
        t,
        dsdx,
        dtdx,
        dsdy,
        dtdy,
    };
    give(sampler::sample(store, texture, p).map(u32::from), texel)
}
