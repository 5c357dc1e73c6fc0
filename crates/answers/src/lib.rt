// Why an operation refuses: one reason, whose number document 01 gives. Done, it answers 0.
#![tactic(auto)]

ghost use Rattle.std.specs.Prelude.{◌≡◌};
ghost use Rattle.answers.specs.Numbers.{refusal_number};
ghost use Rattle.answers.specs.Results.{answer_number};

// The reasons, with their numbers in document 01.
#[derive(Clone, Copy, Debug, PartialEq, Eq, Hash)]
pub enum Refusal {
    Target = 1,
    Scissor = 2,
    Viewport = 3,
    Float = 4,
    Vertex = 5,
    Stage = 6,
    FogCurve = 7,
    Record = 8,
    Side = 9,
    Place = 10,
    Bytes = 11,
    Level = 12,
    Rectangle = 13,
    Format = 14,
    Output = 15,
    Code = 16,
}

impl Refusal {
    // Kept: a `From` would give the same cast, as `u32::from(why)` for `why.number()`, document 01's word (4e)
    pub fn number(self) -> u32
        ensures { result ≡ refusal_number self }
    {
        self as u32
    }
}

// The number of what an operation answers: 0, or the refusal's.
pub fn number<T: Copy>(answer: Result<T, Refusal>) -> u32
    ensures { result ≡ answer_number answer }
{
    match answer {
        Ok(_) => 0,
        Err(why) => why.number(),
    }
}
