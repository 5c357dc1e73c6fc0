// The worked runs of document 01: triangles that share an edge, a fan with a corner that cannot be divided, and the largest sides.
ghost use Rattle.std.specs.Prelude.{◌≤◌};

use crate::lines;
use answers::Refusal;
use levels::{MipLevel, Texture};
use settings::{PipelineState, Rgba, TexEnvMode, TextureStage, Viewport};
use vertices::{Triangle, Vertex};

// A white corner of depth 0.
fn corner(x: f32, y: f32, w: f32) -> Vertex {
    Vertex {
        pos: [x, y, 0.0, w],
        ..Vertex::new()
    }
}

// The corners that all but the fan use: lower left, lower right, upper left.
fn lower_left_half() -> Triangle {
    Triangle {
        a: corner(-1.0, -1.0, 1.0),
        b: corner(1.0, -1.0, 1.0),
        c: corner(-1.0, 1.0, 1.0),
    }
}

fn stage() -> TextureStage {
    TextureStage {
        unit: 0,
        env: TexEnvMode::Replace,
        env_color: Rgba::default(),
    }
}

// The default comparison is Less.
fn settings(width: i32, height: i32, depth_test: bool) -> PipelineState {
    PipelineState {
        viewport: Viewport {
            x: 0,
            y: 0,
            width,
            height,
        },
        depth_test,
        ..PipelineState::new()
    }
}

fn tell(rt: &impl Print, name: &str, answer: Result<usize, Refusal>) {
    match answer {
        Ok(n) => lines::drew(rt, name, n),
        Err(why) => lines::refused(rt, name, why.number()),
    }
}

// A draw of which no stage is in use.
// Kept: draw::draw_triangle's own parameters, which document 01's call takes apart (5c, 6c)
fn plain(
    rt: &impl Print,
    name: &str,
    colors: &mut [u8],
    depths: &mut [f32],
    width: u32,
    height: u32,
    s: PipelineState,
    t: Triangle,
) {
    let store = [0u8; 4];
    let units = [Texture::new(); 4];
    let stages = [stage(); 4];
    let answer = draw::draw_triangle(
        colors, depths, width, height, &store, units, s, stages, 0, t,
    );
    tell(rt, name, answer);
}

fn two_triangles(rt: &impl Print, depth_test: bool) {
    let mut colors = [0u8; 16];
    let mut depths = [0.0f32; 4];
    let cleared = render_target::clear_depth(&mut depths, 16, 2, 2, 1.0, None);
    lines::told(rt, "clear depth", 2, 2, answers::number(cleared));
    let s = settings(2, 2, depth_test);
    plain(
        rt,
        "lower left half",
        &mut colors,
        &mut depths,
        2,
        2,
        s,
        lower_left_half(),
    );
    lines::says(rt, "depth 0.5 at the lower left pixel", depths[2] == 0.5);
    plain(
        rt,
        "upper right half",
        &mut colors,
        &mut depths,
        2,
        2,
        s,
        Triangle {
            a: corner(1.0, -1.0, 1.0),
            b: corner(1.0, 1.0, 1.0),
            c: corner(-1.0, 1.0, 1.0),
        },
    );
}

fn undivided_corner(rt: &impl Print) {
    let mut colors = [0u8; 256];
    let mut depths = [0.0f32; 64];
    plain(
        rt,
        "a corner with w 0 on 8 by 8",
        &mut colors,
        &mut depths,
        8,
        8,
        settings(8, 8, false),
        Triangle {
            a: corner(-1.0, -1.0, 1.0),
            b: corner(1.0, -1.0, 1.0),
            c: corner(0.0, 1.0, 0.0),
        },
    );
}

// A target of one row, and then of one column, with as many colours and depths as its sides ask for. The largest side of a viewport is 4,096.
fn long_targets<const SIDE: usize, const BYTES: usize>(rt: &impl Print, row: &str, column: &str)
    requires { (SIDE ≤ 4097) × (BYTES ≤ 16388) }
{
    let mut colors = [0u8; BYTES];
    let mut depths = [0.0f32; SIDE];
    let side = SIDE as u32;
    plain(
        rt,
        row,
        &mut colors,
        &mut depths,
        side,
        1,
        settings(4096, 1, false),
        lower_left_half(),
    );
    plain(
        rt,
        column,
        &mut colors,
        &mut depths,
        1,
        side,
        settings(1, 4096, false),
        lower_left_half(),
    );
}

// A viewport that is wider or higher than the target of 2 by 2.
fn large_viewport(rt: &impl Print, name: &str, width: i32, height: i32) {
    let mut colors = [0u8; 16];
    let mut depths = [0.0f32; 4];
    plain(
        rt,
        name,
        &mut colors,
        &mut depths,
        2,
        2,
        settings(width, height, false),
        lower_left_half(),
    );
}

// A stage that reads a texture of these sides.
// Kept: as lines::told (5c)
fn textured(rt: &impl Print, name: &str, store: &[u8], width: u32, height: u32) {
    let mut colors = [0u8; 16];
    let mut depths = [0.0f32; 4];
    let mut x = Texture::new();
    x.levels[0] = MipLevel {
        present: true,
        place: 0,
        width,
        height,
    };
    let units = [x; 4];
    let stages = [stage(); 4];
    let answer = draw::draw_triangle(
        &mut colors,
        &mut depths,
        2,
        2,
        store,
        units,
        settings(2, 2, false),
        stages,
        1,
        lower_left_half(),
    );
    tell(rt, name, answer);
}

fn sides(rt: &impl Print) {
    large_viewport(rt, "viewport width 4096", 4096, 2);
    large_viewport(rt, "viewport height 4096", 2, 4096);
    large_viewport(rt, "viewport width 4097", 4097, 2);
    large_viewport(rt, "viewport height 4097", 2, 4097);
    let store = [7u8; 4100];
    textured(rt, "texture width 1024", &store, 1024, 1);
    textured(rt, "texture height 1024", &store, 1, 1024);
    textured(rt, "texture width 1025", &store, 1025, 1);
    textured(rt, "texture height 1025", &store, 1, 1025);
}

// Kept: its own cases; the others have the name alone (7b)
pub fn run(rt: &impl Print) {
    two_triangles(rt, false);
    two_triangles(rt, true);
    undivided_corner(rt);
    long_targets::<4096, 16384>(rt, "target width 4096", "target height 4096");
    long_targets::<4097, 16388>(rt, "target width 4097", "target height 4097");
    sides(rt);
}
