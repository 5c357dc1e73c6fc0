// Replays calls on texture objects, answered as the Rust does and, where it has no answer, as document 01 says.
// An entry: the call's kind (0 define, 1 patch, 2 set); five numbers (4 bytes each); the place (8); the image's length (4) and seed; the
// store's length (4); the answer; the checksums of the record's layout and of the store after the call (4 each); the layout before it (244).
#![tactic(auto)]

use answers::Refusal;

// What a call on a layout that holds no record is recorded as.
const WRONG_LAYOUT: u32 = 255;

#[derive(Clone, Copy, Debug, PartialEq, Eq)]
enum Kind {
    Define,
    Patch,
    Set,
}

// Any other number than 0 and 1 is a setting.
impl From<u8> for Kind {
    // Kept: each record numbers its own kinds, and the match is their table (2b, 2c, 7a)
    fn from(n: u8) -> Kind {
        match n {
            0 => Kind::Define,
            1 => Kind::Patch,
            _ => Kind::Set,
        }
    }
}

// None where the layout holds no record; what a call that is done changes in it is put there.
fn call(
    kind: Kind,
    record: &mut [u8; 244],
    store: &mut [u8],
    image: &[u8],
    entry: &[u8],
) -> Option<Result<(), Refusal>> {
    let texture = layouts::read_record(record)?;
    let [a, b, c, d, e]: [u32; 5] = replay::items_at(entry, 1);
    let place = replay::u64_at(entry, 21) as usize;
    Some(match kind {
        Kind::Define => texture::define_level(store, texture, a, b, c, place, image).map(
            |texture| layouts::put_define(record, a as usize, texture),
        ),
        Kind::Patch => texture::patch_level(store, texture, a, b, c, d, e, image),
        Kind::Set => texture::set_parameter(texture, a, b).map(|_| layouts::put_parameter(
            record, a, b,
        )),
    })
}

// The call on a store and an image of the entry's lengths: its number, and the checksums of what it leaves.
fn is_call_right(store: &mut [u8], image: &mut [u8], entry: &[u8]) -> bool {
    let kind = Kind::from(replay::byte_at(entry, 0));
    let mut record = replay::bytes_at(entry, 47);
    replay::fill(store, 3, 7);
    replay::fill(image, replay::byte_at(entry, 33), 13);
    let answer = call(kind, &mut record, store, image, entry);
    answer.map_or(WRONG_LAYOUT, |done| answers::number(done))
        == u32::from(replay::byte_at(entry, 38))
        && replay::sum_bytes(0, store) == u64::from(replay::u32_at(entry, 43))
        && replay::sum_bytes(0, &record) == u64::from(replay::u32_at(entry, 39))
}

fn is_right(entry: &[u8], store: &mut [u8], image: &mut [u8]) -> bool {
    let n = replay::u32_at(entry, 34) as usize;
    let m = replay::u32_at(entry, 29) as usize;
    let (Some(store), Some(image)) = (store.get_mut(..n), image.get_mut(..m)) else {
        return false;
    };
    is_call_right(store, image, entry)
}

fn main(rt: HostRuntime) {
    let mut store = [0u8; 1000];
    let mut image = [0u8; 8448];
    replay::replay(&rt, |entry| is_right(entry, &mut store, &mut image));
}
