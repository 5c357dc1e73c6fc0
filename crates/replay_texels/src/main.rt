// Replays the Rust's answers to plain and compressed decodes and size queries.
// An entry: operation, then in 4 bytes each width, height, format, type, bytes of data, bytes of output and the number answered,
// then the size (8 bytes), the data, and what stands in the output afterwards.
#![tactic(auto)]

use answers::Refusal;

// The bytes of an entry before its data.
const HEAD: usize = 37;

#[derive(Clone, Copy, Debug, PartialEq, Eq)]
enum Data {
    Plain,
    Compressed,
}

// What an entry asks for.
// Kept: a size query is a call of its own, and no missing decode (1a)
#[derive(Clone, Copy, Debug, PartialEq, Eq)]
enum Operation {
    Decode(Data),
    Size,
}

// Any other number than 0 and 2 is a compressed decode.
impl From<u8> for Operation {
    // Kept: like the other conversions from codes, but with codes and variants of its own, whose table the match is. (2b, 2c, 7a)
    fn from(code: u8) -> Operation {
        match code {
            0 => Operation::Decode(Data::Plain),
            2 => Operation::Size,
            _ => Operation::Decode(Data::Compressed),
        }
    }
}

fn decoded(data: Data, entry: &[u8], s: &[u8], out: &mut [u8]) -> Result<(), Refusal> {
    let [width, height, format, ty]: [u32; 4] = replay::items_at(entry, 1);
    match data {
        Data::Plain => texels::decode_to_rgba(s, width, height, format, ty, out),
        Data::Compressed => { compressed::decode_compressed_to_rgba(s, width, height, format, out) }
    }
}

// The number of a decode into the first bytes of a room, and what stands there afterwards.
fn is_decode_right(data: Data, entry: &[u8]) -> bool {
    let mut room = [0u8; 1024];
    let n = replay::u32_at(entry, 17) as usize;
    let m = replay::u32_at(entry, 21) as usize;
    let from = HEAD + n;
    let (Some(s), Some(wanted), Some(out)) = (
        entry.get(HEAD..from),
        entry.get(from..),
        room.get_mut(..m),
    ) else {
        return false;
    };
    replay::fill(out, 11, 37);
    let number = answers::number(decoded(data, entry, s, out));
    number == replay::u32_at(entry, 25) && &*out == wanted
}

fn is_size_right(entry: &[u8]) -> bool {
    let [width, height, format]: [u32; 3] = replay::items_at(entry, 1);
    match compressed::compressed_image_size(format, width, height) {
        Ok(n) => replay::u32_at(entry, 25) == 0 && n as u64 == replay::u64_at(entry, 29),
        Err(why) => why.number() == replay::u32_at(entry, 25),
    }
}

fn is_right(entry: &[u8]) -> bool {
    match Operation::from(replay::byte_at(entry, 0)) {
        Operation::Decode(data) => is_decode_right(data, entry),
        Operation::Size => is_size_right(entry),
    }
}

fn main(rt: HostRuntime) {
    replay::replay(&rt, is_right);
}
