// The scissor box cut to a render target (raster.rs, RenderTarget::scissor_bounds), and the checks on targets and boxes.
#![tactic(auto)]

ghost use Rattle.std.specs.Prelude.{◌≡◌, ◌^◌, pos, ◌<ℤ◌};
ghost use Rattle.answers.specs.Results.{answer_number};
ghost use Rattle.scissor.specs.Scissor.{from_zero, box_of, cut_of, bounds_of};
ghost use Rattle.scissor.specs.Check.{target_fits, number_fits, numbers_fit, scissor_fits, check_of};

use answers::Refusal;
use settings::{PipelineState, ScissorBox};

// Columns x0 to x1 and rows y0 to y1 of a target, rows from the top, the ends left out.
#[derive(Clone, Copy, Debug, PartialEq, Eq, Hash)]
pub struct PixelBox {
    pub x0: u32,
    pub y0: u32,
    pub x1: u32,
    pub y1: u32,
}

// The number, or 0 below zero.
fn from_zero(v: i64) -> u32
    requires { v <ℤ pos (2 ^ 32) }
    ensures { result ≡ from_zero v }
{
    u32::try_from(v).unwrap_or(0)
}

// The box of these columns and rows, where it has any.
pub fn box_of(x0: u32, y0: u32, x1: u32, y1: u32) -> Option<PixelBox>
    ensures { result ≡ box_of x0 y0 x1 y1 }
{
    (x0 < x1 && y0 < y1).then_some(PixelBox { x0, y0, x1, y1 })
}

// The scissor's y counts from the bottom.
#[tactic(auto, unfolding(crate::specs::Scissor::cut_of))]
fn cut(width: u32, height: u32, b: ScissorBox) -> Option<PixelBox>
    ensures { result ≡ cut_of width height b.x b.y b.width b.height }
{
    let (x, y) = (i64::from(b.x), i64::from(b.y));
    let (right, top) = (x + i64::from(b.width), y + i64::from(b.height));
    box_of(
        from_zero(x),
        height.saturating_sub(from_zero(top)),
        from_zero(right).min(width),
        height.saturating_sub(from_zero(y)),
    )
}

// Kept: sides and scissor come apart, the sides from a target and the scissor from a clear's call or a draw's settings; each caller would
// build a struct for this one call (5c)
#[tactic(auto, unfolding(crate::specs::Scissor::bounds_of))]
pub fn scissor_bounds(width: u32, height: u32, scissor: Option<ScissorBox>) -> Option<PixelBox>
    ensures { result ≡ bounds_of width height scissor }
{
    let whole = PixelBox {
        x0: 0,
        y0: 0,
        x1: width,
        y1: height,
    };
    scissor.map_or(Some(whole), |b| cut(width, height, b))
}

// A scissor's or viewport's number.
#[tactic(auto, unfolding(crate::specs::Check::number_fits))]
pub fn number_fits(v: i32) -> bool
    ensures { result ≡ number_fits v }
{
    (-PipelineState::MAX_WINDOW_NUMBER..=PipelineState::MAX_WINDOW_NUMBER).contains(&v)
}

// Kept: a vertex's test is of other fields, floats, and has the chain alone in common (2b)
#[tactic(auto, unfolding(crate::specs::Check::numbers_fit))]
fn box_fits(b: ScissorBox) -> bool
    ensures { result ≡ numbers_fit b.x b.y b.width b.height }
{
    number_fits(b.x) && number_fits(b.y) && number_fits(b.width) && number_fits(b.height)
}

#[tactic(auto, unfolding(crate::specs::Check::scissor_fits))]
pub fn scissor_fits(scissor: Option<ScissorBox>) -> bool
    ensures { result ≡ scissor_fits scissor }
{
    scissor.is_none_or(box_fits)
}

// Kept: check 1 needs both lengths, and a clear or an export has one of the two slices: a slice, or a struct of both, would ask more of
// callers (5c, 6b)
#[tactic(auto, using(std::proofs::lemmas::Bool::Decides::nat_tests), unfolding(crate::specs::Check::target_fits))]
pub fn target_fits(width: u32, height: u32, colors: usize, depths: usize) -> bool
    ensures { result ≡ target_fits width height colors depths }
{
    let pixels = width as usize * height as usize;
    width <= PipelineState::MAX_TARGET_SIDE
        && height <= PipelineState::MAX_TARGET_SIDE
        && colors == 4 * pixels
        && depths == pixels
}

// Checks 1 and 2. colors, depths: how many there are.
// Kept: the parameters are target_fits's own, handed on (5c, 6b)
// Kept: draw_checks' check_late has one refusal after another in common with it, and other tests (2b)
#[tactic(auto, unfolding(crate::specs::Check::check_of))]
pub fn check(
    width: u32,
    height: u32,
    colors: usize,
    depths: usize,
    scissor: Option<ScissorBox>,
) -> Result<(), Refusal>
    ensures { answer_number result ≡ check_of width height colors depths scissor }
{
    if !target_fits(width, height, colors, depths) {
        return Err(Refusal::Target);
    }
    if !scissor_fits(scissor) {
        return Err(Refusal::Scissor);
    }
    Ok(())
}
