// Sides 1,024 and 1,025 of a plain image, a compressed one and a size query.
use crate::lines;
use consts::{GL_ALPHA, GL_PALETTE8_RGB8_OES, GL_UNSIGNED_BYTE};

// An image of alphas.
// Kept: each loop calls another operation with numbers of its own; a closure for it would stand where the call stands (7b)
fn plain(rt: &impl Print) {
    let s = [0u8; 1024];
    let mut out = [0u8; 4096];
    for (width, height) in [(1024, 1), (1, 1024), (1025, 1), (1, 1025)] {
        let done = texels::decode_to_rgba(&s, width, height, GL_ALPHA, GL_UNSIGNED_BYTE, &mut out);
        lines::told(rt, "plain", width, height, answers::number(done));
    }
}

fn paletted(rt: &impl Print) {
    let s = [0u8; 1792];
    let mut out = [0u8; 4096];
    for (width, height) in [(1024, 1), (1, 1024), (1025, 1), (1, 1025), (1025, 0)] {
        let done = compressed::decode_compressed_to_rgba(
            &s,
            width,
            height,
            GL_PALETTE8_RGB8_OES,
            &mut out,
        );
        lines::told(rt, "compressed", width, height, answers::number(done));
    }
}

fn size(rt: &impl Print) {
    for (width, height) in [(1024, 1024), (1025, 1024), (1024, 1025)] {
        let sized = compressed::compressed_image_size(GL_PALETTE8_RGB8_OES, width, height);
        lines::told(rt, "size", width, height, answers::number(sized));
    }
}

// Kept: its own cases; the others have the name alone (7b)
pub fn run(rt: &impl Print) {
    plain(rt);
    paletted(rt);
    size(rt);
}
