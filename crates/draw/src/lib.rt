// draw_triangle (raster.rs): the checks of document 01 in their order, then the draw.
#![tactic(auto)]

pub mod plain;

ghost use Rattle.std.specs.Prelude.{◌≡◌, true, length, take};
ghost use Rattle.scissor.specs.Check.{target_fits};
ghost use Rattle.pixels.specs.Way.{drawn_to};
ghost use Rattle.raster.specs.Fill.{drawn_of};
ghost use Rattle.draw_checks.specs.Checks.{stages_fit};
ghost use Rattle.draw.specs.Draw.{bound_to, draw_args, draw_of, outcome, answer_of};

use answers::Refusal;
use detail::LevelTable;
use levels::Texture;
use pixels::Staged;
use pixels::target::Target;
use raster::Draw;
use settings::{PipelineState, TextureStage};
use stages::Stages;
use vertices::Triangle;

// The record that each stage reads, in the stage's place of the four; what stands behind them says nothing.
fn bind(
    units: &[Texture; PipelineState::MAX_TEXTURE_UNITS],
    stages: &[TextureStage],
) -> [Texture; PipelineState::MAX_TEXTURE_STAGES]
    requires { stages_fit stages.now (length stages.now) ≡ true }
    ensures { take (length stages.now) result ≡ take (length stages.now) (bound_to stages.now (length stages.now) units.now) }
{
    let mut bound = *units;
    // Kept: with `bound.iter_mut().zip(stages)` the goals loop-slot-preserved and returns stay open: std's laws of zip are of two shared slices (3c)
    for (i, stage) in stages.iter().enumerate() {
        bound[i] = units[stage.unit as usize];
    }
    bound
}

// The draw past its checks.
// Kept: the target is made of these here, where its box is found (5c, 6c)
#[tactic(auto, unfolding(raster::specs::Fill::drawn_of))]
fn draw_checked<D: Draw>(
    colors: &mut [u8],
    depths: &mut [f32],
    width: u32,
    height: u32,
    paint: &D,
    t: Triangle,
) -> usize
    requires { target_fits width height (length colors.old) (length depths.old) ≡ true }
    ensures { drawn_to colors.new depths.new result ≡ drawn_of (D.store paint.now) (D.drawing paint.now) width height t.a t.b t.c (drawn_to colors.old depths.old 0) }
{
    let state = paint.state();
    let viewport = state.viewport;
    if !screen::viewport_draws(viewport) {
        return 0;
    }
    let scissor = state.scissor;
    let Some(pixels) = scissor::scissor_bounds(width, height, scissor) else {
        return 0;
    };
    let view = screen::view_of(viewport, height);
    let mut target = Target {
        colors,
        depths,
        width: width as usize,
        within: pixels,
        written: 0,
    };
    raster::draw_into(&mut target, paint, view, t);
    target.written
}

// Draws one triangle on a target of width by height pixels, and answers the number of pixel writes, which its guest is billed for. units: the four units' texture records, with their texels in the store.
// The first count stages are in use.
// Kept: 1 refuses lengths that do not fit the sides, so a target of the four would say nothing of them yet (5c, 6c)
// Kept: the count is the number of layouts that C lends, and check 6 refuses one above four: a struct of both, whose count is at most four, could not be made before it (6a)
// Kept: a draw without a stage makes and hands on no record; one function over both would be handed four of nothing (2c, 7b)
pub fn draw_triangle(
    colors: &mut [u8],
    depths: &mut [f32],
    width: u32,
    height: u32,
    store: &[u8],
    units: [Texture; PipelineState::MAX_TEXTURE_UNITS],
    state: PipelineState,
    stages: [TextureStage; PipelineState::MAX_TEXTURE_STAGES],
    count: usize,
    t: Triangle,
) -> Result<usize, Refusal>
    ensures { outcome (answer_of result) colors.new depths.new ≡ draw_of store.now width height (draw_args state stages count t.a t.b t.c) units colors.old depths.old }
{
    draw_checks::check_early(
        width,
        height,
        colors.len(),
        depths.len(),
        state,
        stages,
        count,
    )?;
    let stages = &stages[..count];
    let bound = bind(&units, stages);
    let textures = &bound[..count];
    draw_checks::check_late(textures, store.len(), t)?;
    let table = LevelTable::new();
    let stages = Stages {
        store,
        table: &table,
        stages,
        textures,
    };
    let paint = Staged { state, stages };
    Ok(draw_checked(colors, depths, width, height, &paint, t))
}
