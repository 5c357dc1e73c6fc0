// Clears, the 5-6-5 export, and the codes of comparisons and blend factors.
ghost use Rattle.std.specs.Prelude.{◌≡◌, length, [], ◌∷◌};
ghost use Rattle.settings.specs.Settings.{read_compare, read_factor};
ghost use Rattle.answers.specs.Results.{answer_number};
ghost use Rattle.render_target.specs.Clear.{clear_color_check, clear_color_of, clear_depth_check, clear_depth_of};
ghost use Rattle.export.specs.Export.{export_check, rgb565_of};
ghost use Rattle.tilefringe.specs.Target.{scissor_of};

use settings::{BlendFactor, CompareFunc, ScissorBox};

// The scissor: none where boxed is 0.
// Kept: the C interface has no Option; here it becomes one. (1o)
#[tactic(auto, using(std::proofs::lemmas::Bool::Decides::nat_tests), unfolding(crate::specs::Target::scissor_of))]
fn scissor(boxed: u32, x: i32, y: i32, width: i32, height: i32) -> Option<ScissorBox>
    ensures { result ≡ scissor_of boxed x y width height }
{
    (boxed != 0).then_some(ScissorBox {
        x,
        y,
        width,
        height,
    })
}

#[unsafe(no_mangle)]
pub extern "C" fn tf_clear_color(
    colors: &mut [u8],
    depths_len: usize,
    width: u32,
    height: u32,
    r: u8,
    g: u8,
    b: u8,
    a: u8,
    boxed: u32, // Kept: the C interface has no Option. (1o)
    box_x: i32,
    box_y: i32,
    box_width: i32,
    box_height: i32,
) -> u32
    ensures answer { result ≡ clear_color_check width height (length colors.old) depths_len (scissor_of boxed box_x box_y box_width box_height) }
    ensures colors_after { colors.new ≡ clear_color_of width height depths_len (r ∷ g ∷ b ∷ a ∷ []) (scissor_of boxed box_x box_y box_width box_height) colors.old }
{
    let s = scissor(boxed, box_x, box_y, box_width, box_height);
    let rgba = [r, g, b, a];
    answers::number(render_target::clear_color(colors, depths_len, width, height, rgba, s))
}

#[unsafe(no_mangle)]
pub extern "C" fn tf_clear_depth(
    depths: &mut [f32],
    colors_len: usize,
    width: u32,
    height: u32,
    value: f32,
    boxed: u32, // Kept: the C interface has no Option. (1o)
    box_x: i32,
    box_y: i32,
    box_width: i32,
    box_height: i32,
) -> u32
    ensures answer { result ≡ clear_depth_check width height colors_len (length depths.old) value (scissor_of boxed box_x box_y box_width box_height) }
    ensures depths_after { depths.new ≡ clear_depth_of width height colors_len value (scissor_of boxed box_x box_y box_width box_height) depths.old }
{
    let s = scissor(boxed, box_x, box_y, box_width, box_height);
    answers::number(render_target::clear_depth(depths, colors_len, width, height, value, s))
}

#[unsafe(no_mangle)]
pub extern "C" fn tf_to_rgb565(
    colors: &[u8],
    depths_len: usize,
    width: u32,
    height: u32,
    out: &mut [u8],
) -> u32
    ensures answer { result ≡ export_check width height (length colors.now) depths_len }
    ensures out_after { out.new ≡ rgb565_of width height depths_len colors.now out.old }
{
    answers::number(export::to_rgb565(colors, depths_len, width, height, out))
}

// Whether a comparison's code is known.
#[unsafe(no_mangle)]
pub extern "C" fn tf_compare_func(code: u32) -> u32
    ensures { result ≡ answer_number (read_compare code) }
{
    answers::number(CompareFunc::try_from(code))
}

// Whether a blend factor's code is known.
#[unsafe(no_mangle)]
pub extern "C" fn tf_blend_factor(code: u32) -> u32
    ensures { result ≡ answer_number (read_factor code) }
{
    answers::number(BlendFactor::try_from(code))
}
