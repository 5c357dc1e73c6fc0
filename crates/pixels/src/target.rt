// What a draw writes.
ghost use Rattle.std.specs.Prelude.{◌*◌, ◌≡◌, ◌≤◌, length};

use scissor::PixelBox;

// The colours and depths of a target so many pixels wide, the box that a draw keeps to, and the number of pixels written so far.
// Kept: no code compares or shows one, and it would be by all its pixels (4n)
#[derive(Drop)]
pub struct Target<'a> {
    pub colors: &'a mut [u8],
    pub depths: &'a mut [f32],
    pub width: usize,
    pub within: PixelBox,
    pub written: usize,
    pub ghost fit: { (length colors.now ≡ 4 * length depths.now) × (width ≤ 4096) × (within.x1 ≤ width) × (within.y1 ≤ 4096) × (within.y1 * width ≤ length depths.now) },
}
