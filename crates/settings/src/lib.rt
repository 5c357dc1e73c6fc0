// The settings of a draw (raster.rs): comparisons, blend factors, modes, the scissor box, and all of them together by value.
#![tactic(auto)]

ghost use Rattle.std.specs.Prelude.{◌≡◌};
ghost use Rattle.settings.specs.Settings.{read_compare, read_factor, default_state};
ghost use Rattle.settings.specs.Codes.{mode_of, face_of, fog_of, env_of, compare_code, factor_code, mode_code, face_code, fog_code, env_code};
ghost use Rattle.settings.specs.Channels.{color_of, channels_of};
ghost use Rattle.settings.specs.Compare.{test_of};
ghost use Rattle.settings.specs.Factor.{splat_of, one_minus, saturated_of, resolve_of};

use answers::Refusal;
use consts::{
    GL_ADD, GL_ALWAYS, GL_BACK, GL_BLEND, GL_CCW, GL_CW, GL_DECAL, GL_DST_ALPHA, GL_DST_COLOR,
    GL_EQUAL, GL_EXP, GL_EXP2, GL_FRONT, GL_FRONT_AND_BACK, GL_GEQUAL, GL_GREATER, GL_LEQUAL,
    GL_LESS, GL_LINEAR_FOG, GL_MODULATE, GL_NEVER, GL_NOTEQUAL, GL_ONE, GL_ONE_MINUS_DST_ALPHA,
    GL_ONE_MINUS_DST_COLOR, GL_ONE_MINUS_SRC_ALPHA, GL_ONE_MINUS_SRC_COLOR, GL_REPLACE,
    GL_SRC_ALPHA, GL_SRC_ALPHA_SATURATE, GL_SRC_COLOR, GL_ZERO,
};

// Comparison of the depth and alpha tests.
#[derive(Clone, Copy, Debug, PartialEq, Eq, Hash)]
pub enum CompareFunc {
    Never = GL_NEVER as isize,
    Less = GL_LESS as isize,
    Equal = GL_EQUAL as isize,
    Lequal = GL_LEQUAL as isize,
    Greater = GL_GREATER as isize,
    Notequal = GL_NOTEQUAL as isize,
    Gequal = GL_GEQUAL as isize,
    Always = GL_ALWAYS as isize,
}

// Refused, a comparison's code is unknown.
impl TryFrom<u32> for CompareFunc {
    type Error = Refusal;

    ghost try_from_gives = { λ code r. r ≡ read_compare code };

    // Kept: one body for all kinds would search a list of each kind's variants by u32::from; each kind would still write its list, and the
    // search would need a proof that a match does not (2c, 7a)
    #[tactic(auto, using(std::proofs::lemmas::Bool::Decides::nat_tests), unfolding(crate::specs::Settings::read_compare))]
    fn try_from(code: u32) -> Result<Self, Refusal> {
        match code {
            GL_NEVER => Ok(CompareFunc::Never),
            GL_LESS => Ok(CompareFunc::Less),
            GL_EQUAL => Ok(CompareFunc::Equal),
            GL_LEQUAL => Ok(CompareFunc::Lequal),
            GL_GREATER => Ok(CompareFunc::Greater),
            GL_NOTEQUAL => Ok(CompareFunc::Notequal),
            GL_GEQUAL => Ok(CompareFunc::Gequal),
            GL_ALWAYS => Ok(CompareFunc::Always),
            _ => Err(Refusal::Code), // No other code is a comparison.
        }
    }
}

impl From<CompareFunc> for u32 {
    ghost from_gives = { λ v r. r ≡ compare_code v };

    // Kept: the code is the discriminant, and a trait has one impl for a type (2a, 4e)
    fn from(v: CompareFunc) -> u32 {
        v as u32
    }
}

impl CompareFunc {
    pub fn test(self, lhs: f32, rhs: f32) -> bool
        ensures { result ≡ test_of self lhs rhs }
    {
        match self {
            CompareFunc::Never => false,
            CompareFunc::Less => lhs < rhs,
            CompareFunc::Equal => lhs == rhs,
            CompareFunc::Lequal => lhs <= rhs,
            CompareFunc::Greater => lhs > rhs,
            CompareFunc::Notequal => lhs != rhs,
            CompareFunc::Gequal => lhs >= rhs,
            CompareFunc::Always => true,
        }
    }
}

// Source or destination blend factor.
#[derive(Clone, Copy, Debug, PartialEq, Eq, Hash)]
pub enum BlendFactor {
    Zero = GL_ZERO as isize,
    One = GL_ONE as isize,
    SrcColor = GL_SRC_COLOR as isize,
    OneMinusSrcColor = GL_ONE_MINUS_SRC_COLOR as isize,
    SrcAlpha = GL_SRC_ALPHA as isize,
    OneMinusSrcAlpha = GL_ONE_MINUS_SRC_ALPHA as isize,
    DstAlpha = GL_DST_ALPHA as isize,
    OneMinusDstAlpha = GL_ONE_MINUS_DST_ALPHA as isize,
    DstColor = GL_DST_COLOR as isize,
    OneMinusDstColor = GL_ONE_MINUS_DST_COLOR as isize,
    SrcAlphaSaturate = GL_SRC_ALPHA_SATURATE as isize,
}

// Refused, a factor's code is unknown.
impl TryFrom<u32> for BlendFactor {
    type Error = Refusal;

    ghost try_from_gives = { λ code r. r ≡ read_factor code };

    // Kept: one body for all kinds would search a list of each kind's variants by u32::from; each kind would still write its list, and the
    // search would need a proof that a match does not (2c, 7a)
    #[tactic(auto, using(std::proofs::lemmas::Bool::Decides::nat_tests), unfolding(crate::specs::Settings::read_factor))]
    fn try_from(code: u32) -> Result<Self, Refusal> {
        match code {
            GL_ZERO => Ok(BlendFactor::Zero),
            GL_ONE => Ok(BlendFactor::One),
            GL_SRC_COLOR => Ok(BlendFactor::SrcColor),
            GL_ONE_MINUS_SRC_COLOR => Ok(BlendFactor::OneMinusSrcColor),
            GL_SRC_ALPHA => Ok(BlendFactor::SrcAlpha),
            GL_ONE_MINUS_SRC_ALPHA => Ok(BlendFactor::OneMinusSrcAlpha),
            GL_DST_ALPHA => Ok(BlendFactor::DstAlpha),
            GL_ONE_MINUS_DST_ALPHA => Ok(BlendFactor::OneMinusDstAlpha),
            GL_DST_COLOR => Ok(BlendFactor::DstColor),
            GL_ONE_MINUS_DST_COLOR => Ok(BlendFactor::OneMinusDstColor),
            GL_SRC_ALPHA_SATURATE => Ok(BlendFactor::SrcAlphaSaturate),
            _ => Err(Refusal::Code),
        }
    }
}

impl From<BlendFactor> for u32 {
    ghost from_gives = { λ v r. r ≡ factor_code v };

    // Kept: the code is the discriminant, and a trait has one impl for a type (2a, 4e)
    fn from(v: BlendFactor) -> u32 {
        v as u32
    }
}

impl BlendFactor {
    // The factor's four multipliers.
    pub fn resolve(self, src: Rgba, dst: Rgba) -> Rgba
        ensures { result ≡ resolve_of self src dst }
    {
        match self {
            BlendFactor::Zero => splat(0.0),
            BlendFactor::One => splat(1.0),
            BlendFactor::SrcColor => src,
            BlendFactor::OneMinusSrcColor => one_minus(src),
            BlendFactor::SrcAlpha => splat(src.a),
            BlendFactor::OneMinusSrcAlpha => splat(1.0 - src.a),
            BlendFactor::DstAlpha => splat(dst.a),
            BlendFactor::OneMinusDstAlpha => splat(1.0 - dst.a),
            BlendFactor::DstColor => dst,
            BlendFactor::OneMinusDstColor => one_minus(dst),
            BlendFactor::SrcAlphaSaturate => saturated(src.a, dst.a),
        }
    }
}

fn splat(v: f32) -> Rgba
    ensures { result ≡ splat_of v }
{
    Rgba::from([v; 4])
}

fn one_minus(v: Rgba) -> Rgba
    ensures { result ≡ one_minus v }
{
    v.map(|x| 1.0 - x)
}

// SrcAlphaSaturate: its alpha channel is 1.
fn saturated(src: f32, dst: f32) -> Rgba
    ensures { result ≡ saturated_of src dst }
{
    let f = floats::min(src, 1.0 - dst);
    Rgba { a: 1.0, ..splat(f) }
}

// Which faces are discarded.
#[derive(Clone, Copy, Debug, PartialEq, Eq, Hash)]
pub enum CullMode {
    Front = GL_FRONT as isize,
    Back = GL_BACK as isize,
    FrontAndBack = GL_FRONT_AND_BACK as isize,
}

// Refused, a mode's code is unknown.
impl TryFrom<u32> for CullMode {
    type Error = Refusal;

    ghost try_from_gives = { λ code r. r ≡ mode_of code };

    // Kept: one body for all kinds would search a list of each kind's variants by u32::from; each kind would still write its list, and the
    // search would need a proof that a match does not (2c, 7a)
    #[tactic(auto, using(std::proofs::lemmas::Bool::Decides::nat_tests), unfolding(crate::specs::Codes::mode_of))]
    fn try_from(code: u32) -> Result<Self, Refusal> {
        match code {
            GL_FRONT => Ok(CullMode::Front),
            GL_BACK => Ok(CullMode::Back),
            GL_FRONT_AND_BACK => Ok(CullMode::FrontAndBack),
            _ => Err(Refusal::Code),
        }
    }
}

impl From<CullMode> for u32 {
    ghost from_gives = { λ v r. r ≡ mode_code v };

    // Kept: the code is the discriminant, and a trait has one impl for a type (2a, 4e)
    fn from(v: CullMode) -> u32 {
        v as u32
    }
}

#[derive(Clone, Copy, Debug, PartialEq, Eq, Hash)]
pub enum FrontFace {
    Cw = GL_CW as isize,
    Ccw = GL_CCW as isize,
}

// Refused, a face's code is unknown.
impl TryFrom<u32> for FrontFace {
    type Error = Refusal;

    ghost try_from_gives = { λ code r. r ≡ face_of code };

    // Kept: one body for all kinds would search a list of each kind's variants by u32::from; each kind would still write its list, and the
    // search would need a proof that a match does not (2c, 7a)
    #[tactic(auto, using(std::proofs::lemmas::Bool::Decides::nat_tests), unfolding(crate::specs::Codes::face_of))]
    fn try_from(code: u32) -> Result<Self, Refusal> {
        match code {
            GL_CW => Ok(FrontFace::Cw),
            GL_CCW => Ok(FrontFace::Ccw),
            _ => Err(Refusal::Code),
        }
    }
}

impl From<FrontFace> for u32 {
    ghost from_gives = { λ v r. r ≡ face_code v };

    // Kept: the code is the discriminant, and a trait has one impl for a type (2a, 4e)
    fn from(v: FrontFace) -> u32 {
        v as u32
    }
}

// How a texture's colour combines with the fragment's.
#[derive(Clone, Copy, Debug, PartialEq, Eq, Hash)]
pub enum TexEnvMode {
    Modulate = GL_MODULATE as isize,
    Replace = GL_REPLACE as isize,
    Decal = GL_DECAL as isize,
    Blend = GL_BLEND as isize,
    Add = GL_ADD as isize,
}

// Refused, an environment's code is unknown.
impl TryFrom<u32> for TexEnvMode {
    type Error = Refusal;

    ghost try_from_gives = { λ code r. r ≡ env_of code };

    // Kept: one body for all kinds would search a list of each kind's variants by u32::from; each kind would still write its list, and the
    // search would need a proof that a match does not (2c, 7a)
    #[tactic(auto, using(std::proofs::lemmas::Bool::Decides::nat_tests), unfolding(crate::specs::Codes::env_of))]
    fn try_from(code: u32) -> Result<Self, Refusal> {
        match code {
            GL_MODULATE => Ok(TexEnvMode::Modulate),
            GL_REPLACE => Ok(TexEnvMode::Replace),
            GL_DECAL => Ok(TexEnvMode::Decal),
            GL_BLEND => Ok(TexEnvMode::Blend),
            GL_ADD => Ok(TexEnvMode::Add),
            _ => Err(Refusal::Code),
        }
    }
}

impl From<TexEnvMode> for u32 {
    ghost from_gives = { λ v r. r ≡ env_code v };

    // Kept: the code is the discriminant, and a trait has one impl for a type (2a, 4e)
    fn from(v: TexEnvMode) -> u32 {
        v as u32
    }
}

#[derive(Clone, Copy, Debug, PartialEq, Eq, Hash)]
pub enum FogMode {
    Linear = GL_LINEAR_FOG as isize,
    Exp = GL_EXP as isize,
    Exp2 = GL_EXP2 as isize,
}

// Refused, a curve's code is unknown.
impl TryFrom<u32> for FogMode {
    type Error = Refusal;

    ghost try_from_gives = { λ code r. r ≡ fog_of code };

    // Kept: one body for all kinds would search a list of each kind's variants by u32::from; each kind would still write its list, and the
    // search would need a proof that a match does not (2c, 7a)
    #[tactic(auto, using(std::proofs::lemmas::Bool::Decides::nat_tests), unfolding(crate::specs::Codes::fog_of))]
    fn try_from(code: u32) -> Result<Self, Refusal> {
        match code {
            GL_LINEAR_FOG => Ok(FogMode::Linear),
            GL_EXP => Ok(FogMode::Exp),
            GL_EXP2 => Ok(FogMode::Exp2),
            _ => Err(Refusal::Code),
        }
    }
}

impl From<FogMode> for u32 {
    ghost from_gives = { λ v r. r ≡ fog_code v };

    // Kept: the code is the discriminant, and a trait has one impl for a type (2a, 4e)
    fn from(v: FogMode) -> u32 {
        v as u32
    }
}

// A colour of the pixel's way: straight, and in 0 to 1 where nothing else is said.
// Kept: with a generic `Rgba<T>` the 34 definitions in crates/*/specs whose types name Rgba or ColorMask would be over an applied type; map,
// zip and the conversions to floats would be of colours alone, since a mask is only tested (2d)
#[derive(Clone, Copy, Debug, Default, PartialEq)]
pub struct Rgba {
    pub r: f32,
    pub g: f32,
    pub b: f32,
    pub a: f32,
}

impl From<[f32; 4]> for Rgba {
    ghost from_gives = { λ v c. c ≡ color_of v };

    // Kept: a trait has one impl for a type: sampler's is of a colour of bytes (2c)
    fn from([r, g, b, a]: [f32; 4]) -> Rgba {
        Rgba { r, g, b, a }
    }
}

impl From<Rgba> for [f32; 4] {
    ghost from_gives = { λ c v. v ≡ channels_of c };

    // Kept: a trait has one impl for a type: sampler's is of a colour of bytes (2a)
    fn from(c: Rgba) -> [f32; 4] {
        [c.r, c.g, c.b, c.a]
    }
}

impl Rgba {
    // f of each channel.
    #[inline(always)]
    pub fn map<F: Fn(f32) -> f32>(self, f: F) -> Rgba
        requires { F.pre f self.r × F.pre f self.g × F.pre f self.b × F.pre f self.a }
        ensures red { F.post f self.r result.r }
        ensures green { F.post f self.g result.g }
        ensures blue { F.post f self.b result.b }
        ensures alpha { F.post f self.a result.a }
    {
        Rgba {
            r: f(self.r),
            g: f(self.g),
            b: f(self.b),
            a: f(self.a),
        }
    }

    // f of each channel and the other colour's.
    #[inline(always)]
    pub fn zip<F: Fn(f32, f32) -> f32>(self, other: Rgba, f: F) -> Rgba
        requires { F.pre f self.r other.r × F.pre f self.g other.g × F.pre f self.b other.b × F.pre f self.a other.a }
        ensures red { F.post f self.r other.r result.r }
        ensures green { F.post f self.g other.g result.g }
        ensures blue { F.post f self.b other.b result.b }
        ensures alpha { F.post f self.a other.a result.a }
    {
        Rgba {
            r: f(self.r, other.r),
            g: f(self.g, other.g),
            b: f(self.b, other.b),
            a: f(self.a, other.a),
        }
    }
}

// Which channels a draw writes.
// Kept: a mask is only tested, so that no method of a colour serves it; the definitions are counted at Rgba (2d)
#[derive(Clone, Copy, Debug, PartialEq, Eq, Hash)]
pub struct ColorMask {
    pub r: bool,
    pub g: bool,
    pub b: bool,
    pub a: bool,
}

// Kept: as one type with the scissor's box, a viewport could stand where a scissor is meant, and the other way round (2d)
#[derive(Clone, Copy, Debug, Default, PartialEq, Eq, Hash)]
pub struct Viewport {
    pub x: i32,
    pub y: i32,
    pub width: i32,
    pub height: i32,
}

#[derive(Clone, Copy, Debug, PartialEq)]
pub struct DepthRange {
    pub near: f32,
    pub far: f32,
}

// A box with its corner x, y at the bottom left, as OpenGL counts.
// Kept: as one type with the viewport, a scissor's box could stand where a viewport is meant, and the other way round (2d)
#[derive(Clone, Copy, Debug, PartialEq, Eq, Hash)]
pub struct ScissorBox {
    pub x: i32,
    pub y: i32,
    pub width: i32,
    pub height: i32,
}

// One enabled texture unit.
#[derive(Clone, Copy, Debug, PartialEq)]
pub struct TextureStage {
    // Kept: document 02 has a unit's number here; a stage may name one that check 6 refuses, and two may name the same (6e)
    pub unit: u32,
    pub env: TexEnvMode,
    pub env_color: Rgba,
}

// All that the fragments of a draw need.
#[derive(Clone, Copy, Debug, PartialEq)]
pub struct PipelineState {
    pub viewport: Viewport,
    pub depth_range: DepthRange,
    // Where a draw may write: the whole target, or a box of it.
    pub scissor: Option<ScissorBox>,
    // Kept: the source's own fields; a code is read, and an unknown one refused, while the flag is off too (1f)
    pub depth_test: bool,
    pub depth_func: CompareFunc,
    pub depth_write: bool,
    // Kept: the source's own fields; check 4 judges alpha_ref while the flag is off too (1f)
    pub alpha_test: bool,
    pub alpha_func: CompareFunc,
    pub alpha_ref: f32,
    // Kept: the source's own fields; a code is read, and an unknown one refused, while the flag is off too (1f)
    pub blend: bool,
    pub blend_src: BlendFactor,
    pub blend_dst: BlendFactor,
    pub cull: Option<CullMode>,
    pub front_face: FrontFace,
    pub color_mask: ColorMask,
    // Kept: the source's own fields; check 4 judges fog's numbers while the flag is off too (1f)
    pub fog: bool,
    pub fog_mode: FogMode,
    pub fog_color: Rgba,
    pub fog_start: f32,
    pub fog_end: f32,
    pub fog_density: f32,
    pub smooth_shading: bool,
}

impl PipelineState {
    // The limits of document 01: a target's side, a viewport's, a scissor's or viewport's number, texture stages, and the units that they name.
    pub const MAX_TARGET_SIDE: u32 = 4096;

    pub const MAX_VIEWPORT_SIDE: i32 = PipelineState::MAX_TARGET_SIDE as i32;

    pub const MAX_WINDOW_NUMBER: i32 = 8192;

    pub const MAX_TEXTURE_STAGES: usize = 4;

    pub const MAX_TEXTURE_UNITS: usize = 4;

    // Kept: the source has `Default` alone, which calls it; probes and programs start from `new` (4m)
    pub fn new() -> Self
        ensures { result ≡ default_state }
    {
        Self {
            viewport: Viewport::default(),
            depth_range: DepthRange {
                near: 0.0,
                far: 1.0,
            },
            scissor: None,
            depth_test: false,
            depth_func: CompareFunc::Less,
            depth_write: true,
            alpha_test: false,
            alpha_func: CompareFunc::Always,
            alpha_ref: 0.0,
            blend: false,
            blend_src: BlendFactor::One,
            blend_dst: BlendFactor::Zero,
            cull: None,
            front_face: FrontFace::Ccw,
            color_mask: ColorMask {
                r: true,
                g: true,
                b: true,
                a: true,
            },
            fog: false,
            fog_mode: FogMode::Exp,
            fog_color: Rgba::default(),
            fog_start: 0.0,
            fog_end: 1.0,
            fog_density: 1.0,
            smooth_shading: true,
        }
    }
}

impl Default for PipelineState {
    ghost is_default = { λ s. s ≡ default_state };

    fn default() -> Self {
        Self::new()
    }
}
