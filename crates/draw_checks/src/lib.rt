// The checks of a draw, in document 01's order: 1, 2, 3, 4, 7, 6, and then 8, 5.
#![tactic(auto)]

ghost use Rattle.std.specs.Prelude.{◌≡◌, [], length};
ghost use Rattle.std.specs.List.{list_all};
ghost use Rattle.answers.specs.Results.{answer_number};
ghost use Rattle.floats.specs.Num.{bounded_of};
ghost use Rattle.draw_checks.specs.Checks.{viewport_fits, color_fits, state_fits, fog_fits, stage_fits, stages_fit, records_fit, vertex_fits, vertices_fit, early_check, late_check};

use answers::Refusal;
use levels::Texture;
use settings::{FogMode, PipelineState, Rgba, TextureStage, Viewport};
use vertices::{Triangle, Vertex};

#[tactic(auto, unfolding(crate::specs::Checks::viewport_fits))]
fn viewport_fits(v: Viewport) -> bool
    ensures { result ≡ viewport_fits v }
{
    scissor::number_fits(v.x)
        && scissor::number_fits(v.y)
        && v.width <= PipelineState::MAX_VIEWPORT_SIDE
        && v.height <= PipelineState::MAX_VIEWPORT_SIDE
}

// Kept: one call of all, as records_fit, each over its own test (2b)
fn all_fit(v: &[f32]) -> bool
    ensures { result ≡ list_all bounded_of v.now }
{
    v.iter().all(|x| floats::is_bounded(*x))
}

#[tactic(auto, unfolding(crate::specs::Checks::color_fits))]
fn color_fits(c: Rgba) -> bool
    ensures { result ≡ color_fits c }
{
    all_fit(&<[f32; 4]>::from(c))
}

#[tactic(auto, unfolding(crate::specs::Checks::state_fits, crate::specs::Checks::color_fits))]
fn state_fits(s: PipelineState) -> bool
    ensures { result ≡ state_fits s }
{
    let range = s.depth_range;
    all_fit(&[range.near, range.far, s.alpha_ref])
        && color_fits(s.fog_color)
        && all_fit(&[s.fog_start, s.fog_end, s.fog_density])
}

#[tactic(auto, unfolding(crate::specs::Checks::fog_fits))]
fn fog_fits(s: PipelineState) -> bool
    ensures { result ≡ fog_fits s }
{
    !s.fog || s.fog_mode == FogMode::Linear
}

#[tactic(auto, using(std::proofs::lemmas::Bool::Decides::nat_tests), unfolding(crate::specs::Checks::stage_fits))]
fn stage_fits(x: TextureStage) -> bool
    ensures { result ≡ stage_fits x }
{
    (x.unit as usize) < PipelineState::MAX_TEXTURE_UNITS && color_fits(x.env_color)
}

// Kept: check 6 refuses a count above four, so that before it the count is no length of the four; a struct of the pair would hold no fact,
// since the count is that of the layouts that C lends (6a)
fn stages_fit(stages: [TextureStage; PipelineState::MAX_TEXTURE_STAGES], count: usize) -> bool
    ensures { result ≡ stages_fit stages count }
{
    count <= PipelineState::MAX_TEXTURE_STAGES && stages[..count].iter().all(|x| stage_fits(*x))
}

// The records that the stages in use read, valid over a store of len bytes.
// Kept: levels::is_valid's own parameter, handed on; 2b as all_fit (2b, 6b)
fn records_fit(textures: &[Texture], len: usize) -> bool
    ensures { result ≡ records_fit len (length textures.now) textures.now }
{
    textures.iter().all(|x| levels::is_valid(*x, len))
}

// Kept: a scissor's box has four whole numbers, and the chain alone in common with a vertex (2b)
#[tactic(auto, unfolding(crate::specs::Checks::vertex_fits))]
fn vertex_fits(v: Vertex) -> bool
    ensures { result ≡ vertex_fits v }
{
    all_fit(&v.pos) && all_fit(&v.color) && all_fit(&v.texcoord) && floats::is_bounded(v.fog_depth)
}

// Kept: an array of the three with all over it is no shorter, and copies them; a PerCorner::all stops at the first false, so that its clause
// would have to tell which calls are made: longer than the two && (2b, 3f)
#[tactic(auto, unfolding(crate::specs::Checks::vertices_fit))]
pub fn vertices_fit(t: Triangle) -> bool
    ensures { result ≡ vertices_fit t.a t.b t.c }
{
    vertex_fits(t.a) && vertex_fits(t.b) && vertex_fits(t.c)
}

// 1, 2, 3, 4 and 7. colors, depths: how many there are.
// Kept: handed on to scissor::check, which clears call with one slice and the other's length (5c, 6b)
#[tactic(auto, using(std::proofs::lemmas::Bool::Decides::nat_tests), unfolding(crate::specs::Checks::early_check, crate::specs::Checks::stages_fit, crate::specs::Checks::all_below))]
pub fn check_settings(
    width: u32,
    height: u32,
    colors: usize,
    depths: usize,
    s: PipelineState,
) -> Result<(), Refusal>
    ensures { answer_number result ≡ early_check width height colors depths s [] 0 }
{
    scissor::check(width, height, colors, depths, s.scissor)?;
    if !viewport_fits(s.viewport) {
        return Err(Refusal::Viewport);
    }
    if !state_fits(s) {
        return Err(Refusal::Float);
    }
    if !fog_fits(s) {
        return Err(Refusal::FogCurve);
    }
    Ok(())
}

// 1, 2, 3, 4, 7 and 6.
// Kept: handed on to scissor::check, which clears call with one slice and the other's length (5c, 6b)
// Kept: check 6 refuses a count above four, so that before it the count is no length of the four; a struct of the pair would hold no fact,
// since the count is that of the layouts that C lends (6a)
#[tactic(auto, using(std::proofs::lemmas::Bool::Decides::nat_tests), unfolding(crate::specs::Checks::early_check))]
pub fn check_early(
    width: u32,
    height: u32,
    colors: usize,
    depths: usize,
    s: PipelineState,
    stages: [TextureStage; PipelineState::MAX_TEXTURE_STAGES],
    count: usize,
) -> Result<(), Refusal>
    ensures { answer_number result ≡ early_check width height colors depths s stages count }
{
    check_settings(width, height, colors, depths, s)?;
    if !stages_fit(stages, count) {
        return Err(Refusal::Stage);
    }
    Ok(())
}

// 8 and 5. textures: the records that the stages in use read; len: the store's length.
// Kept: levels::is_valid's own parameter, handed on (6b)
// Kept: scissor's check has one refusal after another in common with it, and other tests (2b)
#[tactic(auto, using(std::proofs::lemmas::Bool::Decides::nat_tests), unfolding(crate::specs::Checks::late_check))]
pub fn check_late(textures: &[Texture], len: usize, t: Triangle) -> Result<(), Refusal>
    ensures { answer_number result ≡ late_check len (length textures.now) textures.now t.a t.b t.c }
{
    if !records_fit(textures, len) {
        return Err(Refusal::Record);
    }
    if !vertices_fit(t) {
        return Err(Refusal::Vertex);
    }
    Ok(())
}
