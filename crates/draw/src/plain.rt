// draw_triangle without a stage: no record and no texel is passed along.
ghost use Rattle.std.specs.Prelude.{◌≡◌, []};
ghost use Rattle.draw.specs.Draw.{draw_args, draw_of, outcome, answer_of};

use answers::Refusal;
use plain_raster::Plain;
use settings::PipelineState;
use vertices::Triangle;

// A draw of which no stage is in use: the same as draw_triangle with a count of 0, whatever its stages, records and texels are.
// 6 and 8 find nothing to refuse.
// Kept: 1 refuses lengths that do not fit the sides, so a target of the four would say nothing of them yet (5c, 6c)
// Kept: crate::draw_triangle is handed records, stages and texels, which this way has not (2c, 7b)
pub fn draw_triangle(
    colors: &mut [u8],
    depths: &mut [f32],
    width: u32,
    height: u32,
    state: PipelineState,
    t: Triangle,
) -> Result<usize, Refusal>
    ensures { outcome (answer_of result) colors.new depths.new ≡ draw_of [] width height (draw_args state [] 0 t.a t.b t.c) [] colors.old depths.old }
{
    draw_checks::check_settings(width, height, colors.len(), depths.len(), state)?;
    draw_checks::check_late(&[], 0, t)?;
    let paint = Plain { state };
    Ok(crate::draw_checked(colors, depths, width, height, &paint, t))
}
