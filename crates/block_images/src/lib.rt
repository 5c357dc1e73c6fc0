// Images made of blocks of four by four texels (texture.rs, decode_compressed_to_rgba).
#![tactic(auto)]

ghost use Rattle.std.specs.Prelude.{◌≡◌, ◌+◌, ◌*◌, ◌≤◌, ◌<◌, ◌↔◌, IsTrue, length};
ghost use Rattle.texels.specs.Lent.{Same};
ghost use Rattle.blocks.specs.Blocks.{block_bytes, texel_from, block_texel};
ghost use Rattle.block_images.specs.Walk.{blocks_over, block_image, put_block};

use blocks::*;
use texels::Sides;
use texels::image::Image;

// Where a block stands: its column and its row among an image's blocks.
#[derive(Clone, Copy, Debug, PartialEq, Eq)]
struct Place {
    bx: usize,
    by: usize,
    ghost col: { bx ≤ 256 },
    ghost row: { by ≤ 256 },
}

impl Place {
    // Whether no texel of the block hangs over an edge.
    fn is_whole(self, sides: Sides) -> bool
        ensures { IsTrue result ↔ ((self.bx * 4 + 4 ≤ sides.w) × (self.by * 4 + 4 ≤ sides.h)) }
    {
        self.bx * 4 + 4 <= sides.w && self.by * 4 + 4 <= sides.h
    }
}

// Whether an image of these sides has a texel at (x, y).
fn has(sides: Sides, x: usize, y: usize) -> bool
    ensures { IsTrue result ↔ ((x < sides.w) × (y < sides.h)) }
{
    x < sides.w && y < sides.h
}

// The blocks that cover a side.
pub fn block_count(side: usize) -> usize
    ensures { result ≡ blocks_over side }
{
    side.div_ceil(4)
}

// A block stored. Of one that is not WHOLE a texel that hangs over the edge is dropped.
// Kept: colours and alphas come from two readers. With `zip` over both the loop's invariant sees the iterator's state and no `i`. (6c)
#[tactic(auto, using(lists::proofs::Turns::iter_none))]
fn put_texels<const WHOLE: bool>(
    rgb: [[u8; 3]; 16],
    alpha: [u8; 16],
    image: &mut Image,
    place: Place,
)
    requires { IsTrue WHOLE → (place.bx * 4 + 4 ≤ image.old.sides.w) × (place.by * 4 + 4 ≤ image.old.sides.h) }
    ensures drawn { image.new.out.now ≡ put_block image.old.sides.w image.old.sides.h (texel_from rgb alpha) place.bx place.by image.old.out.now }
    // Kept: a fact of the type cannot speak of the image as it was. (5b)
    ensures same { Same image.old image.new }
{
    let sides = image.sides;
    for (i, &[r, g, b]) in rgb.iter().enumerate() {
        let x = place.bx * 4 + i % 4;
        let y = place.by * 4 + i / 4;
        if WHOLE || has(sides, x, y) {
            texels::put4(image.out, (y * sides.w + x) * 4, [r, g, b, alpha[i]]);
        }
    }
}

fn decode_block(b: Block, s: &[u8], at: usize, image: &mut Image, place: Place)
    requires { at + block_bytes b ≤ length s.now }
    ensures drawn { image.new.out.now ≡ put_block image.old.sides.w image.old.sides.h (block_texel b s.now at) place.bx place.by image.old.out.now }
    // Kept: a fact of the type cannot speak of the image as it was. (5b)
    ensures same { Same image.old image.new }
{
    let colours = eight(s, at + b.alpha_bytes());
    let first = eight(s, at);
    let rgb = b.rgb(colours);
    let alpha = b.alpha(first);
    if place.is_whole(image.sides) {
        put_texels::<true>(rgb, alpha, image, place);
    } else {
        put_texels::<false>(rgb, alpha, image, place);
    }
}

#[tactic(auto, using(lists::proofs::Turns::iter_none))]
pub fn decode_blocks(b: Block, s: &[u8], image: &mut Image)
    requires { blocks_over image.old.sides.h * blocks_over image.old.sides.w * block_bytes b ≤ length s.now }
    ensures drawn { image.new.out.now ≡ block_image (block_texel b) (block_bytes b) image.old.sides.w image.old.sides.h s.now }
    // Kept: a fact of the type cannot speak of the image as it was. (5b)
    ensures same { Same image.old image.new }
{
    let bw = block_count(image.sides.w);
    let bytes = b.bytes();
    // Kept: by and bx are the block's row and column too; in chunks they would be a quotient and a remainder by bw, a division for each block. (3d)
    for by in 0..block_count(image.sides.h) {
        // Kept: as by. (3d)
        for bx in 0..bw {
            decode_block(b, s, (by * bw + bx) * bytes, image, Place { bx, by });
        }
    }
}
