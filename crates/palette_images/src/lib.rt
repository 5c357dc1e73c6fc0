// Paletted images, over the width of an index and the kind of an entry (texture.rs, decode_paletted).
#![tactic(auto)]

ghost use Rattle.std.specs.Prelude.{◌≡◌, ◌+◌, ◌*◌, ◌/◌, ◌%◌, ◌^◌, ◌≤◌, ◌<◌, length};
ghost use Rattle.std.proofs.Math.Seq.{paste};
ghost use Rattle.lists.specs.Lists.{flat};
ghost use Rattle.texels.specs.Texels.{texel_bytes};
ghost use Rattle.texels.specs.Lent.{Same};
ghost use Rattle.palette_images.specs.Paletted.{index_bits, row_bytes, palette_bytes, paletted_bytes, index_in, paletted_image, Entries, entry_at, indexed_image};

use texels::image::Image;
use texels::*;

// How many bits an index has: as many as divide a byte's.
#[derive(Clone, Copy, Debug, PartialEq, Eq, Hash)]
pub enum IndexBits {
    One,
    Two,
    Four,
    Eight,
}

// The bytes of a row of indices.
pub fn row_bytes(bits: usize, w: usize) -> usize
    // Kept: pub: a change may not ask more of callers, and a method of IndexBits takes 1, 2, 4 and 8 alone. (5a)
    requires { (bits ≤ 8) × (w ≤ 1024) }
    ensures { result ≡ row_bytes bits w }
{
    (w * bits).div_ceil(8)
}

impl IndexBits {
    pub fn bits(self) -> usize
        ensures { result ≡ index_bits self }
    {
        match self {
            IndexBits::One => 1,
            IndexBits::Two => 2,
            IndexBits::Four => 4,
            IndexBits::Eight => 8,
        }
    }

    // How many entries a palette has.
    fn entries(self) -> usize
        ensures { (result ≡ 2 ^ index_bits self) × (result ≤ 256) }
    {
        1 << self.bits()
    }

    // The bytes of an image: its palette, then its rows.
    pub fn image_bytes(self, t: TexelFormat, sides: Sides) -> usize
        ensures { result ≡ paletted_bytes (index_bits self) t sides.w sides.h }
    {
        self.entries() * t.bytes() + sides.h * row_bytes(self.bits(), sides.w)
    }

    // The first index of a byte has its highest bits.
    fn index_in(self, byte: u8, x: usize) -> usize
        ensures { (result ≡ index_in (index_bits self) byte x) × (result < 256) }
    {
        let bits = self.bits();
        let low = 8 - bits - x % 8 * bits % 8;
        ((u32::from(byte) >> low) % (1 << bits)) as usize
    }
}

// A palette's entries decoded.
#[derive(Drop, Debug, PartialEq, Eq)]
struct Palette {
    bits: IndexBits,
    // Kept: no heap, so there is room for the entries of eight bits, whatever the width. (6)
    entries: [[u8; 4]; 256],
}

impl Palette {
    // The palette in front of s.
    #[tactic(auto, using(lists::proofs::Tables::tab_none))]
    fn new(bits: IndexBits, t: TexelFormat, s: &[u8]) -> Palette
        requires { palette_bytes (index_bits bits) t ≤ length s.now }
        ensures bits { result.bits ≡ bits }
        ensures entries { Entries t s.now (2 ^ index_bits bits) result.entries }
    {
        let bytes = t.bytes();
        let mut entries = [[0u8; 4]; 256];
        for (i, entry) in entries[..bits.entries()].iter_mut().enumerate() {
            *entry = t.read(s, i * bytes);
        }
        Palette { bits, entries }
    }

    // Row y, whose indices stand in s from `at` on.
    // Kept: only put_rows shares them; compressed's decode_image has another self, a format. (5c)
    fn put_row(&self, s: &[u8], at: usize, image: &mut Image, y: usize)
        requires { (at + row_bytes (index_bits self.now.bits) image.old.sides.w ≤ length s.now) × (y < image.old.sides.h) }
        ensures drawn { image.new.out.now ≡ paste image.old.out.now (y * (image.old.sides.w * 4)) (flat image.old.sides.w (entry_at (index_bits self.now.bits) self.now.entries s.now at)) (image.old.sides.w * 4) }
        // Kept: a fact of the type cannot speak of the image as it was. (5b)
        ensures same { Same image.old image.new }
    {
        let bits = self.bits.bits();
        let w = image.sides.w;
        // Kept: by index, since of a texel that chunks_exact_mut has lent out a proof knows the length alone, as in texels::fill. (3d)
        for x in 0..w {
            let [r, g, b, a] = self.entries[self.bits.index_in(s[at + x * bits / 8], x)];
            put4(image.out, (y * w + x) * 4, [r, g, b, a]);
        }
    }

    // All rows, whose indices stand in s from `start` on.
    // Kept: as put_row. (5c)
    fn put_rows(&self, s: &[u8], start: usize, image: &mut Image)
        requires { start + image.old.sides.h * row_bytes (index_bits self.now.bits) image.old.sides.w ≤ length s.now }
        ensures drawn { image.new.out.now ≡ indexed_image (index_bits self.now.bits) self.now.entries image.old.sides.w image.old.sides.h s.now start }
        // Kept: a fact of the type cannot speak of the image as it was. (5b)
        ensures same { Same image.old image.new }
    {
        let row = row_bytes(self.bits.bits(), image.sides.w);
        // Kept: as in put_row. (3d)
        for y in 0..image.sides.h {
            self.put_row(s, start + y * row, image, y);
        }
    }
}

pub fn decode_paletted(bits: IndexBits, t: TexelFormat, s: &[u8], image: &mut Image)
    requires { paletted_bytes (index_bits bits) t image.old.sides.w image.old.sides.h ≤ length s.now }
    ensures drawn { image.new.out.now ≡ paletted_image (index_bits bits) t image.old.sides.w image.old.sides.h s.now }
    // Kept: a fact of the type cannot speak of the image as it was. (5b)
    ensures same { Same image.old image.new }
{
    let palette = Palette::new(bits, t, s);
    palette.put_rows(s, bits.entries() * t.bytes(), image);
}
