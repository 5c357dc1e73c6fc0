// Sides 4,096 and 4,097 of a target that is cleared and exported.
ghost use Rattle.std.specs.Prelude.{◌≤◌};

use crate::lines;

// A target of one row, and then of one column, with as many colours and depths as its sides ask for.
// Kept: each loop calls another operation on slices of its own; a closure for it would stand where the call stands (7b)
fn at_side<const SIDE: usize, const BYTES: usize, const OUT: usize>(rt: &impl Print)
    requires { (SIDE ≤ 4097) × (BYTES ≤ 16388) × (OUT ≤ 8194) }
{
    let mut colors = [0u8; BYTES];
    let mut depths = [0.0f32; SIDE];
    let mut out = [0u8; OUT];
    let side = SIDE as u32;
    for (width, height) in [(side, 1), (1, side)] {
        let done = render_target::clear_color(&mut colors, SIDE, width, height, [1, 2, 3, 4], None);
        lines::told(rt, "clear colour", width, height, answers::number(done));
    }
    for (width, height) in [(side, 1), (1, side)] {
        let done = render_target::clear_depth(&mut depths, BYTES, width, height, 0.5, None);
        lines::told(rt, "clear depth", width, height, answers::number(done));
    }
    for (width, height) in [(side, 1), (1, side)] {
        let done = export::to_rgb565(&colors, SIDE, width, height, &mut out);
        lines::told(rt, "export", width, height, answers::number(done));
    }
}

// Kept: its own cases; the others have the name alone (7b)
pub fn run(rt: &impl Print) {
    at_side::<4096, 16384, 8192>(rt);
    at_side::<4097, 16388, 8194>(rt);
}
