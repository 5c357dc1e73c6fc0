// Replays the Rust's answers to draws and, of refused calls, document 01's.
// An entry, in 4 bytes each: width and height; the number answered and the count; the lengths of the stages, the store, the colours
// and the depths. Then settings, vertices and units as docs/INTERFACE.md has them; the stages; the store; the colours and the bits of
// the depths before the call; and those after it.
#![tactic(auto)]

use answers::Refusal;
use vertices::Triangle;

// Where settings, vertices, units and stages start in an entry.
const SETTINGS: usize = 32;

const VERTICES: usize = 176;

const UNITS: usize = 380;

const STAGES: usize = 1356;

// The draw of the layouts, if all four hold something: by its own way where no stage is in use.
// Kept: load and are_same take the colours or the depths alone, and the draw takes them side by side (5c, 6c)
fn drawn(
    entry: &[u8],
    stages: &[u8],
    store: &[u8],
    colors: &mut [u8],
    depths: &mut [f32],
) -> Option<Result<usize, Refusal>> {
    if entry.len() < STAGES {
        return None;
    }
    let stages = draw_layouts::read_stages(stages)?;
    let units = draw_layouts::read_units(&entry[UNITS..STAGES], stages.used())?;
    let state = draw_layouts::read_settings(&entry[SETTINGS..VERTICES])?;
    let [a, b, c] = draw_layouts::read_vertices(&entry[VERTICES..UNITS])?;
    let width = replay::u32_at(entry, 0);
    let height = replay::u32_at(entry, 4);
    let t = Triangle { a, b, c };
    if stages.count == 0 {
        return Some(draw::plain::draw_triangle(colors, depths, width, height, state, t));
    }
    Some(draw::draw_triangle(
        colors,
        depths,
        width,
        height,
        store,
        units,
        state,
        stages.first,
        stages.count,
        t,
    ))
}

// The call on the colours and depths of before: its answer, and that it leaves those of after.
// Kept: as drawn (6c)
fn is_right(entry: &[u8], colors: &mut [u8], depths: &mut [f32]) -> bool {
    let k = (replay::u32_at(entry, 16) as usize).min(168);
    let l = (replay::u32_at(entry, 20) as usize).min(640);
    let n = (replay::u32_at(entry, 24) as usize).min(1028);
    let m = (replay::u32_at(entry, 28) as usize).min(259);
    let store = STAGES + k;
    let before = store + l;
    if entry.len() < before {
        return false;
    }
    let (Some(colors), Some(depths)) = (colors.get_mut(..n), depths.get_mut(..m)) else {
        return false;
    };
    replay::load(colors, entry, before);
    replay::load(depths, entry, before + n);
    let Some(answer) = drawn(
        entry,
        &entry[STAGES..store],
        &entry[store..before],
        colors,
        depths,
    ) else {
        return false;
    };
    let after = before + n + m * 4;
    // A refused call has no count, and what stands at its place is not looked at.
    answers::number(answer) == replay::u32_at(entry, 8)
        && answer.map_or(true, |n| n == replay::u32_at(entry, 12) as usize)
        && replay::are_same(colors, entry, after)
        && replay::are_same(depths, entry, after + n)
}

fn main(rt: HostRuntime) {
    let mut colors = [0u8; 1028];
    let mut depths = [0.0f32; 259];
    replay::replay(&rt, |entry| is_right(entry, &mut colors, &mut depths));
}
