// The codes of consts.rs that document 01 uses, and those of document 02, under their names.
#![tactic(auto)]

// Texel formats and types
pub const GL_UNSIGNED_BYTE: u32 = 0x1401;

pub const GL_ALPHA: u32 = 0x1906;

pub const GL_RGB: u32 = 0x1907;

pub const GL_RGBA: u32 = 0x1908;

pub const GL_LUMINANCE: u32 = 0x1909;

pub const GL_LUMINANCE_ALPHA: u32 = 0x190A;

pub const GL_UNSIGNED_SHORT_4_4_4_4: u32 = 0x8033;

pub const GL_UNSIGNED_SHORT_5_5_5_1: u32 = 0x8034;

pub const GL_UNSIGNED_SHORT_5_6_5: u32 = 0x8363;

// Texture parameters and their values
pub const GL_TEXTURE_MAG_FILTER: u32 = 0x2800;

pub const GL_TEXTURE_MIN_FILTER: u32 = 0x2801;

pub const GL_TEXTURE_WRAP_S: u32 = 0x2802;

pub const GL_TEXTURE_WRAP_T: u32 = 0x2803;

pub const GL_NEAREST: u32 = 0x2600;

pub const GL_LINEAR: u32 = 0x2601;

pub const GL_NEAREST_MIPMAP_NEAREST: u32 = 0x2700;

pub const GL_LINEAR_MIPMAP_NEAREST: u32 = 0x2701;

pub const GL_NEAREST_MIPMAP_LINEAR: u32 = 0x2702;

pub const GL_LINEAR_MIPMAP_LINEAR: u32 = 0x2703;

pub const GL_REPEAT: u32 = 0x2901;

pub const GL_CLAMP_TO_EDGE: u32 = 0x812F;

pub const GL_TEXTURE_MIN_LOD_SGIS: u32 = 0x813A;

pub const GL_TEXTURE_MAX_LOD_SGIS: u32 = 0x813B;

pub const GL_TEXTURE_BASE_LEVEL_SGIS: u32 = 0x813C;

pub const GL_TEXTURE_MAX_LEVEL_SGIS: u32 = 0x813D;

pub const GL_TEXTURE_LOD_BIAS_EXT: u32 = 0x8501;

// Compressed formats: OES_compressed_paletted_texture
pub const GL_PALETTE4_RGB8_OES: u32 = 0x8B90;

pub const GL_PALETTE4_RGBA8_OES: u32 = 0x8B91;

pub const GL_PALETTE4_R5_G6_B5_OES: u32 = 0x8B92;

pub const GL_PALETTE4_RGBA4_OES: u32 = 0x8B93;

pub const GL_PALETTE4_RGB5_A1_OES: u32 = 0x8B94;

pub const GL_PALETTE8_RGB8_OES: u32 = 0x8B95;

pub const GL_PALETTE8_RGBA8_OES: u32 = 0x8B96;

pub const GL_PALETTE8_R5_G6_B5_OES: u32 = 0x8B97;

pub const GL_PALETTE8_RGBA4_OES: u32 = 0x8B98;

pub const GL_PALETTE8_RGB5_A1_OES: u32 = 0x8B99;

// Compressed formats: ATC and EXT_texture_compression_s3tc
pub const GL_ATC_RGB_AMD: u32 = 0x8C92;

pub const GL_ATC_RGBA_EXPLICIT_ALPHA_AMD: u32 = 0x8C93;

pub const GL_ATC_RGBA_INTERPOLATED_ALPHA_AMD: u32 = 0x87EE;

pub const GL_COMPRESSED_RGB_S3TC_DXT1_EXT: u32 = 0x83F0;

pub const GL_COMPRESSED_RGBA_S3TC_DXT1_EXT: u32 = 0x83F1;

pub const GL_COMPRESSED_RGBA_S3TC_DXT3_EXT: u32 = 0x83F2;

pub const GL_COMPRESSED_RGBA_S3TC_DXT5_EXT: u32 = 0x83F3;

// Comparisons
pub const GL_NEVER: u32 = 0x0200;

pub const GL_LESS: u32 = 0x0201;

pub const GL_EQUAL: u32 = 0x0202;

pub const GL_LEQUAL: u32 = 0x0203;

pub const GL_GREATER: u32 = 0x0204;

pub const GL_NOTEQUAL: u32 = 0x0205;

pub const GL_GEQUAL: u32 = 0x0206;

pub const GL_ALWAYS: u32 = 0x0207;

// Blend factors
pub const GL_ZERO: u32 = 0;

pub const GL_ONE: u32 = 1;

pub const GL_SRC_COLOR: u32 = 0x0300;

pub const GL_ONE_MINUS_SRC_COLOR: u32 = 0x0301;

pub const GL_SRC_ALPHA: u32 = 0x0302;

pub const GL_ONE_MINUS_SRC_ALPHA: u32 = 0x0303;

pub const GL_DST_ALPHA: u32 = 0x0304;

pub const GL_ONE_MINUS_DST_ALPHA: u32 = 0x0305;

pub const GL_DST_COLOR: u32 = 0x0306;

pub const GL_ONE_MINUS_DST_COLOR: u32 = 0x0307;

pub const GL_SRC_ALPHA_SATURATE: u32 = 0x0308;

// Faces
pub const GL_FRONT: u32 = 0x0404;

pub const GL_BACK: u32 = 0x0405;

pub const GL_FRONT_AND_BACK: u32 = 0x0408;

pub const GL_CW: u32 = 0x0900;

pub const GL_CCW: u32 = 0x0901;

// Texture environments and fog
pub const GL_BLEND: u32 = 0x0BE2;

pub const GL_MODULATE: u32 = 0x2100;

pub const GL_DECAL: u32 = 0x2101;

pub const GL_ADD: u32 = 0x0104;

pub const GL_REPLACE: u32 = 0x1E01;

pub const GL_EXP: u32 = 0x0800;

pub const GL_EXP2: u32 = 0x0801;

pub const GL_LINEAR_FOG: u32 = 0x2601;
