// Texel formats: decode plain, decode compressed, the size query.
ghost use Rattle.std.specs.Prelude.{◌≡◌, cond, eqb, length};
ghost use Rattle.texels.specs.Texels.{format_of, format_bytes};
ghost use Rattle.texels.specs.Plain.{plain_check, plain_left};
ghost use Rattle.compressed.specs.Compressed.{compressed_of, size_of, size_check, compressed_check, compressed_left};

use crate::give;

#[unsafe(no_mangle)]
pub extern "C" fn tf_bytes_per_texel(format: u32, ty: u32) -> usize
    ensures { result ≡ format_bytes (format_of format ty) }
{
    texels::bytes_per_texel(format, ty)
}

#[unsafe(no_mangle)]
pub extern "C" fn tf_decode_to_rgba(
    s: &[u8],
    width: u32,
    height: u32,
    format: u32,
    ty: u32,
    out: &mut [u8],
) -> u32
    ensures { (result ≡ plain_check (format_of format ty) width height (length s.now) (length out.old)) × (out.new ≡ plain_left (format_of format ty) width height s.now out.old) }
{
    answers::number(texels::decode_to_rgba(s, width, height, format, ty, out))
}

#[unsafe(no_mangle)]
pub extern "C" fn tf_decode_compressed_to_rgba(
    s: &[u8],
    width: u32,
    height: u32,
    format: u32,
    out: &mut [u8],
) -> u32
    ensures { (result ≡ compressed_check (compressed_of format) width height (length s.now) (length out.old)) × (out.new ≡ compressed_left (compressed_of format) width height s.now out.old) }
{
    answers::number(compressed::decode_compressed_to_rgba(s, width, height, format, out))
}

#[unsafe(no_mangle)]
pub extern "C" fn tf_compressed_image_size(
    format: u32,
    width: u32,
    height: u32,
    size: &mut usize,
) -> u32
    ensures { (result ≡ size_check (compressed_of format) width height) × (size.new ≡ cond (eqb (size_check (compressed_of format) width height) 0) (size_of (compressed_of format) width height) size.old) }
{
    give(
        compressed::compressed_image_size(format, width, height),
        size,
    )
}
