// Comparisons, blend factors and the steps of a fragment. An unknown code stands for the first of its kind.
ghost use Rattle.std.specs.Prelude.{◌≡◌};
ghost use Rattle.floats.specs.Num.{clamp_of, zero32, one32};
ghost use Rattle.settings.specs.Compare.{test_of};
ghost use Rattle.settings.specs.Factor.{resolve_of};
ghost use Rattle.fragment.specs.Fragment.{env_of, linear_fog_of, fog_mix_of, blend_of, masked_of};
ghost use Rattle.settings.specs.Channels.{color_of, channels_of};
ghost use Rattle.probes.specs.Settings.{compare_of, factor_of, environment_of};

use replay::numbered::Code;
use settings::{BlendFactor, CompareFunc, PipelineState, Rgba, TexEnvMode, TextureStage};

#[unsafe(no_mangle)]
pub extern "C" fn probe_test(code: u32, lhs: f32, rhs: f32) -> bool
    ensures { result ≡ test_of (compare_of code) lhs rhs }
{
    CompareFunc::try_from(code)
        .unwrap_or(CompareFunc::Never)
        .test(lhs, rhs)
}

#[unsafe(no_mangle)]
pub extern "C" fn probe_resolve(code: u32, src: &[f32; 4], dst: &[f32; 4], out: &mut [f32; 4])
    ensures { out.new ≡ channels_of (resolve_of (factor_of code) (color_of src.now) (color_of dst.now)) }
{
    let factor = BlendFactor::try_from(code).unwrap_or(BlendFactor::Zero);
    *out = <[f32; 4]>::from(factor.resolve(Rgba::from(*src), Rgba::from(*dst)));
}

#[unsafe(no_mangle)]
pub extern "C" fn probe_blend(
    src_code: u32,
    dst_code: u32,
    src: &[f32; 4],
    dst: &[f32; 4],
    out: &mut [f32; 4],
)
    ensures { out.new ≡ channels_of (blend_of (factor_of src_code) (factor_of dst_code) (color_of src.now) (color_of dst.now)) }
{
    let src_factor = BlendFactor::try_from(src_code).unwrap_or(BlendFactor::Zero);
    let dst_factor = BlendFactor::try_from(dst_code).unwrap_or(BlendFactor::Zero);
    let blended = fragment::blend(src_factor, dst_factor, Rgba::from(*src), Rgba::from(*dst));
    *out = <[f32; 4]>::from(blended);
}

// An environment by its number: 0 Modulate, 1 Replace, 2 Decal, 3 Blend, 4 Add.
#[unsafe(no_mangle)]
pub extern "C" fn probe_tex_env(
    env: u32,
    env_color: &[f32; 4],
    frag: &[f32; 4],
    tex: &[f32; 4],
    out: &mut [f32; 4],
)
    ensures { out.new ≡ channels_of (env_of (environment_of env) (color_of env_color.now) (color_of frag.now) (color_of tex.now)) }
{
    let stage = TextureStage {
        unit: 0,
        env: TexEnvMode::from(Code { number: env }),
        env_color: Rgba::from(*env_color),
    };
    let combined = fragment::apply_tex_env(stage, Rgba::from(*frag), Rgba::from(*tex));
    *out = <[f32; 4]>::from(combined);
}

#[tactic(auto, unfolding(fragment::specs::Fragment::fog_factor_of))]
#[unsafe(no_mangle)]
pub extern "C" fn probe_fog_factor(start: f32, end: f32, depth: f32) -> f32
    ensures { result ≡ clamp_of (linear_fog_of start end depth) zero32 one32 }
{
    let s = PipelineState {
        fog_start: start,
        fog_end: end,
        ..PipelineState::new()
    };
    fragment::fog_factor(s, depth)
}

// The fog step with the fog on.
#[unsafe(no_mangle)]
pub extern "C" fn probe_fogged(
    start: f32,
    end: f32,
    depth: f32,
    fog_color: &[f32; 4],
    frag: &[f32; 4],
    out: &mut [f32; 4],
)
    ensures { out.new ≡ channels_of (fog_mix_of (clamp_of (linear_fog_of start end depth) zero32 one32) (color_of fog_color.now) (color_of frag.now)) }
{
    let s = PipelineState {
        fog: true,
        fog_start: start,
        fog_end: end,
        fog_color: Rgba::from(*fog_color),
        ..PipelineState::new()
    };
    *out = <[f32; 4]>::from(fragment::fogged(s, depth, Rgba::from(*frag)));
}

#[unsafe(no_mangle)]
pub extern "C" fn probe_masked_byte(on: bool, value: f32, stored: u8) -> u8
    ensures { result ≡ masked_of on value stored }
{
    fragment::masked_byte(on, value, stored)
}
