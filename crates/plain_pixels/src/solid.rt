// A pixel of a triangle of one colour, whose bytes are made once: a draw without a stage, under settings that leave the colour as it is.
ghost use Rattle.std.specs.Prelude.{◌≡◌, true, false, []};
ghost use Rattle.std.specs.Option.{MatchOption};
ghost use Rattle.pixels.specs.Way.{drawing};
ghost use Rattle.plain_pixels.specs.Solid.{all_on, solid_of, solid_color};

use coverage::Primitive;
use gradients::PerCorner;
use pixels::Paint;
use pixels::target::Target;
use settings::{ColorMask, PipelineState, Rgba};

fn are_all_on(mask: ColorMask) -> bool
    ensures { result ≡ all_on mask }
{
    mask.r && mask.g && mask.b && mask.a
}

#[tactic(auto, unfolding(crate::specs::Solid::solid_of))]
pub fn is_solid(state: PipelineState) -> bool
    ensures { result ≡ solid_of state }
{
    !state.smooth_shading
        && !state.fog
        && !state.blend
        && !state.alpha_test
        && are_all_on(state.color_mask)
}

// The bytes of the last corner's colour.
pub fn solid_color(t: Primitive) -> [u8; 4]
    ensures { result ≡ solid_color t }
{
    t.vertices.c.color.map(channels::to_byte)
}

// Such a draw, with the bytes of a triangle's colour.
#[derive(Clone, Copy, Debug, PartialEq)]
pub struct Solid {
    pub state: PipelineState,
    pub color: [u8; 4],
    pub ghost solid: { solid_of state ≡ true },
}

impl Solid {
    // The draw of a triangle, if its settings leave the colour as it is.
    pub fn new(state: PipelineState, t: Primitive) -> Option<Solid>
        ensures { MatchOption result (solid_of state ≡ false) (λ s. (s.state ≡ state) × (s.color ≡ solid_color t)) }
    {
        if !is_solid(state) {
            return None;
        }
        let color = solid_color(t);
        Some(Solid { state, color })
    }
}

impl Paint for Solid {
    ghost store = { λ _. [] };

    ghost drawing = { λ s. drawing s.state [] 0 [] };

    ghost paints = { λ s t. s.color ≡ solid_color t };

    // Kept: a trait has no fields, so each paint hands out its own (2a)
    fn state(&self) -> PipelineState {
        self.state
    }

    // Kept: an impl repeats its trait's head; what is alike stands in reached and color_between (5c)
    fn fragment_at(&self, t: Primitive, w: PerCorner<f32>, stored: f32) -> Option<(f32, Rgba)> {
        let (z, _) = pixels::reached(self.state, t, w, stored)?;
        Some((z, pixels::color_between(false, w, t)))
    }

    // Kept: its bytes are made once; a put of its own, with the rest once, would have to ask that the colour is the fragment's, which each caller would owe at each pixel; what is repeated is weights, fragment and count (2c, 5c)
    fn draw_pixel(&self, target: &mut Target, t: Primitive, py: u32, px: u32) {
        let w = coverage::weights_at(t.raster, px, py);
        if !coverage::is_covered(w) {
            return;
        }
        let i = py as usize * target.width + px as usize;
        let Some((z, _)) = self.fragment_at(t, w, target.depths[i]) else {
            return;
        };
        texels::put4(target.colors, i * 4, self.color);
        pixels::write_depth(target.depths, i, self.state, z);
        target.written += 1;
    }
}
