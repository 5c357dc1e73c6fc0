// Replays the Rust's answers to samples.
// An entry, in 4 bytes each: of each of eleven levels whether it is present, its place, width and height; the top level, the
// minifying filter (0 to 5) and the magnifying one (0 nearest), the wraps in s and t (0 repeat); s, t and the four gradients; the
// number answered and the texel. Then the store.
#![tactic(auto)]

use levels::Texture;
use mipmaps::Coordinates;
use replay::numbered::Numbers;
use sampler::Texel;

// The bytes of an entry before its store.
const HEAD: usize = 228;

fn texture_from(entry: &[u8]) -> Texture {
    let numbers: [u32; 49] = replay::items_at(entry, 0);
    Numbers { all: &numbers }.texture()
}

fn texel_from(entry: &[u8]) -> Texel {
    Texel::from(replay::bytes_at::<4>(entry, 224))
}

fn is_right(entry: &[u8]) -> bool {
    if entry.len() < HEAD {
        return false;
    }
    let answer = replay::u32_at(entry, 220);
    let texture = texture_from(entry);
    let p = Coordinates::from(replay::items_at::<f32, 6>(entry, 196));
    match sampler::sample(&entry[HEAD..], texture, p) {
        Ok(x) => answer == 0 && x == texel_from(entry),
        Err(why) => why.number() == answer,
    }
}

fn main(rt: HostRuntime) {
    replay::replay(&rt, is_right);
}
