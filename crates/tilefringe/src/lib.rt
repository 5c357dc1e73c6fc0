// The C interface: docs/INTERFACE.md. Answers are the numbers of document 01; 0 is done.
#![tactic(auto)]

ghost use Rattle.std.specs.Prelude.{◌≡◌};
ghost use Rattle.std.specs.Result.{result_unwrap_or};
ghost use Rattle.answers.specs.Results.{answer_number};

use answers::Refusal;

mod decode;
mod draw_calls;
mod sample_calls;
mod target;
mod texture_calls;

// What a call answers where a layout holds nothing.
const WRONG_LAYOUT: u32 = 255;

// Puts what an operation gives into `out` where it is done, and answers its number.
// Kept: of the C interface, once for its calls. (1k)
fn give<T: Copy>(answer: Result<T, Refusal>, out: &mut T) -> u32
    ensures number { result ≡ answer_number answer }
    ensures out_after { out.new ≡ result_unwrap_or answer out.old }
{
    match answer {
        Ok(x) => {
            *out = x;
            0
        }
        Err(why) => why.number(),
    }
}
