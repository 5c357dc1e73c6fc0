// Sides 1,024 and 1,025, and levels 10 and 11, of a level that is defined.
ghost use Rattle.std.specs.Prelude.{◌≤◌};

use crate::lines;
use levels::Texture;

// Level 0 of a new texture, of one row and then of one column.
fn sides<const BYTES: usize>(rt: &impl Print, side: u32)
    requires { BYTES ≤ 4100 }
{
    let rgba = [7u8; BYTES];
    let mut store = [0u8; BYTES];
    for (width, height) in [(side, 1), (1, side)] {
        let new = Texture::new();
        let done = texture::define_level(&mut store, new, 0, width, height, 0, &rgba);
        lines::told(rt, "define", width, height, answers::number(done));
    }
}

// A level of one texel.
fn number(rt: &impl Print, name: &str, level: u32) {
    let rgba = [7u8; 4];
    let mut store = [0u8; 4];
    let done = texture::define_level(&mut store, Texture::new(), level, 1, 1, 0, &rgba);
    lines::told(rt, name, 1, 1, answers::number(done));
}

// Kept: its own cases; the others have the name alone (2c, 7b)
pub fn run(rt: &impl Print) {
    sides::<4096>(rt, 1024);
    sides::<4100>(rt, 1025);
    number(rt, "define level 10", 10);
    number(rt, "define level 11", 11);
}
