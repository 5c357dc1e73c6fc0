// The colours of a render target as 5-6-5 (raster.rs, RenderTarget::to_rgb565).
#![tactic(auto)]

ghost use Rattle.std.specs.Prelude.{◌≡◌, ◌++◌, ◌*◌, ◌≤◌, length, get_or, drop};
ghost use Rattle.lists.specs.Lists.{flat};
ghost use Rattle.answers.specs.Results.{answer_number};
ghost use Rattle.export.specs.Export.{packed, bytes_of, rgb565_at, export_check, rgb565_of};

use answers::Refusal;

// A pixel's two bytes: five bits of red, six of green and five of blue. As one number its four are one load, from which all three colours
// are taken.
fn pixel(rgba: [u8; 4]) -> [u8; 2]
    ensures { result ≡ bytes_of (packed (get_or rgba 0 0) (get_or rgba 1 0) (get_or rgba 2 0)) }
{
    let rgba = u32::from_le_bytes(rgba);
    let rgb = (rgba / 8 % 32) * 2048 + (rgba / 1024 % 64) * 32 + rgba / 524288 % 32;
    (rgb as u16).to_le_bytes()
}

fn export_pixels(colors: &[u8], n: usize, out: &mut [u8])
    requires { (n * 4 ≤ length colors.now) × (n * 2 ≤ length out.old) }
    ensures { out.new ≡ flat n (rgb565_at colors.now) ++ drop (n * 2) out.old }
{
    let (pixels, _) = colors.as_chunks::<4>();
    // Kept: an index: in a loop over `out.chunks_exact_mut(2)` no invariant can speak of `out`, and `returns` stays open (3c)
    for p in 0..n {
        let [low, high] = pixel(pixels[p]);
        out[p * 2] = low;
        out[p * 2 + 1] = high;
    }
}

// The colours as 5-6-5, low byte first, as far as whole pairs fit; alpha is dropped.
// Kept: check 1 is of sides and lengths as the caller has them: a struct of checked ones would ask more of callers, and one of unchecked
// ones would carry no fact; nothing reads the depths, and a slice of them would ask more too (5c, 6b)
pub fn to_rgb565(
    colors: &[u8],
    depths_len: usize,
    width: u32,
    height: u32,
    out: &mut [u8],
) -> Result<(), Refusal>
    ensures answer { answer_number result ≡ export_check width height (length colors.now) depths_len }
    ensures out_after { out.new ≡ rgb565_of width height depths_len colors.now out.old }
{
    if !scissor::target_fits(width, height, colors.len(), depths_len) {
        return Err(Refusal::Target);
    }
    let room = out.len() / 2;
    let pixels = width as usize * height as usize;
    export_pixels(colors, pixels.min(room), out);
    Ok(())
}
