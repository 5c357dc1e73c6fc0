// Replays the Rust's answers to the steps of a fragment, and to the codes of comparisons and factors.
// An entry: the step's number, two codes (4 bytes each), three colours and the answer's four floats by their bits (4 bytes each);
// for steps 7 and 8 a code and the number that reading it answers.
#![tactic(auto)]

use answers::Refusal;
use replay::numbered::Code;
use settings::{BlendFactor, CompareFunc, PipelineState, Rgba, TexEnvMode, TextureStage};

// What an entry has the answer of.
#[derive(Clone, Copy, Debug, PartialEq, Eq)]
enum Step {
    Test,
    Resolve,
    Blend,
    Environment,
    FogFactor,
    Fogged,
    Mask,
    ReadCompare,
    ReadFactor,
}

// A step's number is its place above; any other number is Fogged.
impl From<u8> for Step {
    // Kept: each record numbers its own kinds, and the match is their table (2c, 7a)
    fn from(n: u8) -> Step {
        match n {
            0 => Step::Test,
            1 => Step::Resolve,
            2 => Step::Blend,
            3 => Step::Environment,
            4 => Step::FogFactor,
            6 => Step::Mask,
            7 => Step::ReadCompare,
            8 => Step::ReadFactor,
            _ => Step::Fogged,
        }
    }
}

// Kept: another record's entry has other readers (2d)
#[derive(Clone, Copy, Debug, PartialEq, Eq)]
struct Entry<'a> {
    bytes: &'a [u8],
}

impl Entry<'_> {
    fn step(self) -> Step {
        Step::from(replay::byte_at(self.bytes, 0))
    }

    // The first code, and the second.
    fn codes(self) -> (u32, u32) {
        (replay::u32_at(self.bytes, 1), replay::u32_at(self.bytes, 5))
    }

    fn comparison(self) -> CompareFunc {
        CompareFunc::try_from(self.codes().0).unwrap_or(CompareFunc::Never)
    }

    // The factors of both codes.
    fn factors(self) -> (BlendFactor, BlendFactor) {
        let (src, dst) = self.codes();
        (
            BlendFactor::try_from(src).unwrap_or(BlendFactor::Zero),
            BlendFactor::try_from(dst).unwrap_or(BlendFactor::Zero),
        )
    }

    // The first code's environment, with a colour: from 4 on, addition.
    fn stage(self, env_color: Rgba) -> TextureStage {
        let (number, _) = self.codes();
        TextureStage {
            unit: 0,
            env: TexEnvMode::from(Code {
                number: number.min(4),
            }),
            env_color,
        }
    }

    fn channels_at(self, at: usize) -> Rgba {
        Rgba::from(replay::items_at::<f32, 4>(self.bytes, at))
    }

    fn colors(self) -> (Rgba, Rgba, Rgba) {
        (
            self.channels_at(9),
            self.channels_at(25),
            self.channels_at(41),
        )
    }

    fn stored(self) -> u8 {
        replay::byte_at(self.bytes, 13)
    }

    fn has_answer(self, c: Rgba) -> bool {
        replay::are_same(&<[f32; 4]>::from(c), self.bytes, 57)
    }

    // Whether reading a code answers the second code.
    fn has_number<T: Copy>(self, read: Result<T, Refusal>) -> bool {
        answers::number(read) == self.codes().1
    }
}

// A number as the first of four floats.
fn alone(r: f32) -> Rgba {
    Rgba {
        r,
        ..Rgba::default()
    }
}

fn with_fog(a: Rgba, fog_color: Rgba) -> PipelineState {
    PipelineState {
        fog: true,
        fog_start: a.r,
        fog_end: a.g,
        fog_color,
        ..PipelineState::new()
    }
}

fn is_right(entry: Entry) -> bool {
    let (a, b, c) = entry.colors();
    let (code, _) = entry.codes();
    let (src, dst) = entry.factors();
    match entry.step() {
        Step::Test => {
            let passes = entry.comparison().test(a.r, a.g);
            entry.has_answer(alone(f32::from(u8::from(passes))))
        }
        Step::Resolve => entry.has_answer(src.resolve(a, b)),
        Step::Blend => entry.has_answer(fragment::blend(src, dst, a, b)),
        Step::Environment => entry.has_answer(fragment::apply_tex_env(entry.stage(a), b, c)),
        Step::FogFactor => entry.has_answer(alone(fragment::fog_factor(with_fog(a, b), a.b))),
        Step::Fogged => entry.has_answer(fragment::fogged(with_fog(a, b), a.b, c)),
        Step::Mask => {
            let byte = fragment::masked_byte(code == 1, a.r, entry.stored());
            entry.has_answer(alone(f32::from(byte)))
        }
        Step::ReadCompare => entry.has_number(CompareFunc::try_from(code)),
        Step::ReadFactor => entry.has_number(BlendFactor::try_from(code)),
    }
}

fn main(rt: HostRuntime) {
    replay::replay(&rt, |bytes| is_right(Entry { bytes }));
}
