// The draw. Its settings, stages, vertices and records are lent as their layouts, which are read before any check.
ghost use Rattle.std.specs.Prelude.{◌≡◌, []};
ghost use Rattle.tilefringe.specs.DrawCalls.{called, call_number, draw_call};

use crate::WRONG_LAYOUT;
use answers::Refusal;
use vertices::Triangle;

// The refusal's number above, and the count of pixel writes below.
// Kept: the C interface's one number. (1k)
fn call_number(answer: Option<Result<usize, Refusal>>) -> u64
    ensures { result ≡ call_number answer }
{
    match answer {
        None => u64::from(WRONG_LAYOUT) * 4294967296,
        Some(Ok(n)) => n as u64,
        Some(Err(why)) => u64::from(why.number()) * 4294967296,
    }
}

// A draw of which no stage is in use reads no record, so nothing but the length of the units' layout is looked at.
// Kept: colours, depths and sides are parameters of the C interface and of draw, handed on as they come. (5c, 6c)
fn draw_plain(
    colors: &mut [u8],
    depths: &mut [f32],
    width: u32,
    height: u32,
    units: &[u8],
    settings: &[u8],
    vertices: &[u8],
) -> Option<Result<usize, Refusal>>
    ensures { called (call_number result) colors.new depths.new ≡ draw_call [] width height units.now settings.now [] vertices.now colors.old depths.old }
{
    if units.len() != draw_layouts::UNITS_SIZE {
        return None;
    }
    let state = draw_layouts::read_settings(settings)?;
    let [a, b, c] = draw_layouts::read_vertices(vertices)?;
    Some(draw::plain::draw_triangle(colors, depths, width, height, state, Triangle { a, b, c }))
}

// Kept: as in `draw_plain`. (5c, 6c)
fn draw_staged(
    colors: &mut [u8],
    depths: &mut [f32],
    width: u32,
    height: u32,
    store: &[u8],
    units: &[u8],
    settings: &[u8],
    stages: &[u8],
    vertices: &[u8],
) -> Option<Result<usize, Refusal>>
    ensures { called (call_number result) colors.new depths.new ≡ draw_call store.now width height units.now settings.now stages.now vertices.now colors.old depths.old }
{
    let stages = draw_layouts::read_stages(stages)?;
    let units = draw_layouts::read_units(units, stages.used())?;
    let state = draw_layouts::read_settings(settings)?;
    let [a, b, c] = draw_layouts::read_vertices(vertices)?;
    Some(draw::draw_triangle(
        colors,
        depths,
        width,
        height,
        store,
        units,
        state,
        stages.first,
        stages.count,
        Triangle { a, b, c },
    ))
}

#[unsafe(no_mangle)]
pub extern "C" fn tf_draw_triangle(
    colors: &mut [u8],
    depths: &mut [f32],
    width: u32,
    height: u32,
    store: &[u8],
    units: &[u8],
    settings: &[u8],
    stages: &[u8],
    vertices: &[u8],
) -> u64
    ensures { called result colors.new depths.new ≡ draw_call store.now width height units.now settings.now stages.now vertices.now colors.old depths.old }
{
    if stages.is_empty() {
        return call_number(draw_plain(colors, depths, width, height, units, settings, vertices));
    }
    call_number(draw_staged(
        colors, depths, width, height, store, units, settings, stages, vertices,
    ))
}
