// Filling without a stage: no record and no texel is passed along.
#![tactic(auto)]

ghost use Rattle.std.specs.Prelude.{◌≡◌, []};
ghost use Rattle.pixels.specs.Way.{drawing};

use coverage::Primitive;
use gradients::PerCorner;
use pixels::Paint;
use pixels::target::Target;
use plain_pixels::solid::Solid;
use raster::Draw;
use scissor::PixelBox;
use settings::{PipelineState, Rgba};

// A draw without a stage.
#[derive(Clone, Copy, Debug, PartialEq)]
pub struct Plain {
    pub state: PipelineState,
}

impl Paint for Plain {
    ghost store = { λ _. [] };

    ghost drawing = { λ s. drawing s.state [] 0 [] };

    ghost paints = { λ _ _. Unit {0} };

    // Kept: a trait has no fields, so each paint hands out its own (2a)
    fn state(&self) -> PipelineState {
        self.state
    }

    // Kept: an impl repeats its trait's head (5c)
    fn fragment_at(&self, t: Primitive, w: PerCorner<f32>, stored: f32) -> Option<(f32, Rgba)> {
        plain_pixels::fragment_at(self.state, t, w, stored)
    }
}

impl Draw for Plain {
    // A triangle of one colour has its bytes made once.
    // Kept: an impl repeats its trait's head (5c)
    fn fill_triangle(&self, target: &mut Target, t: Primitive, pixels: PixelBox) {
        let state = self.state;
        if let Some(solid) = Solid::new(state, t) {
            raster::fill(target, &solid, t, pixels);
            return;
        }
        raster::fill(target, self, t, pixels);
    }
}
