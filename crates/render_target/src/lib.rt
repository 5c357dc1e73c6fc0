// Clears of a render target (raster.rs, RenderTarget).
#![tactic(auto)]

ghost use Rattle.std.specs.Prelude.{◌≡◌, ◌*◌, ◌<◌, ◌≤◌, length, get_or};
ghost use Rattle.answers.specs.Results.{answer_number};
ghost use Rattle.render_target.specs.Clear.{span_of, rows_of, element_at, cleared_of};
ghost use Rattle.render_target.specs.Clear.{clear_color_check, clear_depth_check, clear_color_of, clear_depth_of};

use answers::Refusal;
use scissor::PixelBox;
use settings::ScissorBox;

// The pixels from `from` to `to`, of K elements each.
// Kept: raster's fill walks a box's rows and draws a triangle's pixels there, and has the name alone in common (2c)
fn fill<T: Copy, const K: usize>(items: &mut [T], from: usize, to: usize, value: [T; K])
    // Kept: no caller's end is before its start, and a type of such pairs would be made for one clear (5a)
    requires { (from ≤ to) × (to * K ≤ length items.old) }
    ensures { (z : T) → items.new ≡ span_of (element_at K value z) z (from * K) (to * K) items.old }
{
    // Kept: an index: of what `chunks_exact_mut(K)` lends a proof knows only the length, and `returns` stays open (3c)
    for pixel in from..to {
        // Kept: `copy_from_slice` tests each pixel for overlap, by which a clear of depths takes four times as long; its bar is 1.0, and it
        // stands at 0.95 to 1.01 (3c, 4k)
        for i in 0..K {
            items[pixel * K + i] = value[i];
        }
    }
}

fn fill_rows<T: Copy, const K: usize>(items: &mut [T], width: usize, b: PixelBox, value: [T; K])
    // Kept: no caller has K = 0, and a type with 0 < K would be made for one clear (5a)
    requires { (0 < K) × (b.x0 ≤ b.x1) × (b.x1 ≤ width) × (b.y1 * width * K ≤ length items.old) }
    ensures { (z : T) → items.new ≡ rows_of K (element_at K value z) z width b.x0 b.y0 b.x1 b.y1 items.old }
{
    // Kept: a row from `chunks_exact_mut` would be a slice of which a proof knows only the length, as in `fill` (3d)
    for y in b.y0 as usize..b.y1 as usize {
        let row = y * width;
        fill(items, row + b.x0 as usize, row + b.x1 as usize, value);
    }
}

// The box's rows, at once where they are whole rows of the target.
fn fill_box<T: Copy, const K: usize>(items: &mut [T], width: usize, b: PixelBox, value: [T; K])
    // Kept: a type with 0 < K would be made for one clear (5a)
    requires { (0 < K) × (b.x0 ≤ b.x1) × (b.x1 ≤ width) × (b.y0 ≤ b.y1) × (b.y1 * width * K ≤ length items.old) }
    ensures { (z : T) → items.new ≡ rows_of K (element_at K value z) z width b.x0 b.y0 b.x1 b.y1 items.old }
{
    if (b.x1 - b.x0) as usize == width {
        fill(items, b.y0 as usize * width, b.y1 as usize * width, value);
    } else {
        fill_rows(items, width, b, value);
    }
}

// The pixels in the scissor box.
// Kept: sides and scissor are read once, for the box; as a struct they would be made for this call alone. (5c)
fn clear<T: Copy, const K: usize>(
    items: &mut [T],
    width: u32,
    height: u32,
    value: [T; K],
    scissor: Option<ScissorBox>,
)
    // Kept: a type with 0 < K would be made for one clear (5a)
    requires { (0 < K) × (length items.old ≡ K * (width * height)) }
    ensures { (z : T) → items.new ≡ cleared_of K (λ c. get_or value c z) z width height scissor items.old }
{
    if let Some(b) = scissor::scissor_bounds(width, height, scissor) {
        fill_box(items, width as usize, b, value);
    }
}

// Clears the colours in the scissor box.
// Kept: check 1 is of sides and lengths as the caller has them: a struct of checked ones would ask more of callers, and one of unchecked
// ones would carry no fact; nothing reads the depths, and a slice of them would ask more too (5c, 6b)
pub fn clear_color(
    colors: &mut [u8],
    depths_len: usize,
    width: u32,
    height: u32,
    rgba: [u8; 4],
    scissor: Option<ScissorBox>,
) -> Result<(), Refusal>
    ensures answer { answer_number result ≡ clear_color_check width height (length colors.old) depths_len scissor }
    ensures colors_after { colors.new ≡ clear_color_of width height depths_len rgba scissor colors.old }
{
    scissor::check(width, height, colors.len(), depths_len, scissor)?;
    clear(colors, width, height, rgba, scissor);
    Ok(())
}

// Clears the depths in the scissor box.
// Kept: what it shares with `clear_color` is `scissor::check` and `clear`; between them stands the check of the value, which a colour lacks.
// The parameters are as there (2e, 5c, 6b)
pub fn clear_depth(
    depths: &mut [f32],
    colors_len: usize,
    width: u32,
    height: u32,
    value: f32,
    scissor: Option<ScissorBox>,
) -> Result<(), Refusal>
    ensures answer { answer_number result ≡ clear_depth_check width height colors_len (length depths.old) value scissor }
    ensures depths_after { depths.new ≡ clear_depth_of width height colors_len value scissor depths.old }
{
    scissor::check(width, height, colors_len, depths.len(), scissor)?;
    if !floats::is_bounded(value) {
        return Err(Refusal::Float);
    }
    clear(depths, width, height, [value], scissor);
    Ok(())
}
