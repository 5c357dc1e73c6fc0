// Replays the Rust's answers to clears and exports.
// An entry: the call (0 colour, 1 depth, 2 export), width and height (4 bytes each), whether there is a scissor, its four numbers (sign
// and 4 bytes each), the colour's bytes or the depth's bits, the answer, the lengths of colours, depths and output (2 bytes each); then
// what the call may write, before which an export has the colours, and what the Rust left of it.
#![tactic(auto)]

use answers::Refusal;
use settings::ScissorBox;

// Where the lent memory starts in an entry.
const BODY: usize = 41;

#[derive(Clone, Copy, Debug, PartialEq, Eq)]
enum Call {
    ClearColor,
    ClearDepth,
    Export,
}

// Any other number than 0 and 1 is an export.
impl From<u8> for Call {
    // Kept: each record numbers its own kinds, and the match is their table (2b, 2c, 7a)
    fn from(n: u8) -> Call {
        match n {
            0 => Call::ClearColor,
            1 => Call::ClearDepth,
            _ => Call::Export,
        }
    }
}

// Kept: another record's entry has other readers (2d)
#[derive(Clone, Copy, Debug, PartialEq, Eq)]
struct Entry<'a> {
    bytes: &'a [u8],
}

impl Entry<'_> {
    fn call(self) -> Call {
        Call::from(replay::byte_at(self.bytes, 0))
    }

    // Number k of the scissor: its sign, and its size.
    fn number(self, k: u8) -> i32 {
        let at = 10 + 5 * usize::from(k);
        let n = (replay::u32_at(self.bytes, at + 1) % 1073741824).cast_signed();
        if replay::byte_at(self.bytes, at) == 1 {
            return n.wrapping_neg();
        }
        n
    }

    fn scissor(self) -> Option<ScissorBox> {
        if replay::byte_at(self.bytes, 9) == 0 {
            return None;
        }
        Some(ScissorBox {
            x: self.number(0),
            y: self.number(1),
            width: self.number(2),
            height: self.number(3),
        })
    }

    // The lengths of colours, depths and output.
    fn lengths(self) -> (usize, usize, usize) {
        (
            usize::from(replay::u16_at(self.bytes, 35)),
            usize::from(replay::u16_at(self.bytes, 37)),
            usize::from(replay::u16_at(self.bytes, 39)),
        )
    }

    fn is_answer(self, answer: Result<(), Refusal>) -> bool {
        answers::number(answer) == u32::from(replay::byte_at(self.bytes, 34))
    }
}

// Kept: a target's colours and depths are two buffers in the C interface (6c)
fn is_right(entry: Entry, colors: &mut [u8], depths: &mut [f32], out: &mut [u8]) -> bool {
    let bytes = entry.bytes;
    let (width, height) = (replay::u32_at(bytes, 1), replay::u32_at(bytes, 5));
    let (colors_len, depths_len, out_len) = entry.lengths();
    let (n, m, k) = (colors_len.min(256), depths_len.min(64), out_len.min(160));
    let (Some(colors), Some(depths), Some(out)) = (
        colors.get_mut(..n),
        depths.get_mut(..m),
        out.get_mut(..k),
    ) else {
        return false;
    };
    match entry.call() {
        Call::ClearColor => {
            replay::load(colors, bytes, BODY);
            let rgba = replay::bytes_at(bytes, 30);
            let scissor = entry.scissor();
            let answer = render_target::clear_color(
                colors, depths_len, width, height, rgba, scissor,
            );
            entry.is_answer(answer) && replay::are_same(colors, bytes, BODY + n)
        }
        Call::ClearDepth => {
            replay::load(depths, bytes, BODY);
            let value = replay::f32_at(bytes, 30);
            let scissor = entry.scissor();
            let answer = render_target::clear_depth(
                depths, colors_len, width, height, value, scissor,
            );
            entry.is_answer(answer) && replay::are_same(depths, bytes, BODY + m * 4)
        }
        Call::Export => {
            replay::load(colors, bytes, BODY);
            replay::load(out, bytes, BODY + n);
            let answer = export::to_rgb565(colors, depths_len, width, height, out);
            entry.is_answer(answer) && replay::are_same(out, bytes, BODY + n + k)
        }
    }
}

fn main(rt: HostRuntime) {
    let mut colors = [0u8; 256];
    let mut depths = [0.0f32; 64];
    let mut out = [0u8; 160];
    replay::replay(
        &rt,
        |bytes| is_right(Entry { bytes }, &mut colors, &mut depths, &mut out),
    )
}
