// What a decoder of blocks or of a palette writes.
ghost use Rattle.std.specs.Prelude.{◌*◌, ◌≡◌, length};

use crate::Sides;

// The texels of an image, four bytes each, and its sides.
// Kept: no code compares or shows one, and it would be by all its bytes. (4n)
#[derive(Drop)]
pub struct Image<'a> {
    pub out: &'a mut [u8],
    pub sides: Sides,
    pub ghost fit: { length out.now ≡ sides.h * sides.w * 4 },
}
