// What is printed of a case. A line that cannot be printed is passed over.

// A case's line: what was called, the sides, and the number answered.
// Kept: sides are handed to each call by themselves, and so they are here (5c)
pub fn told(rt: &impl Print, name: &str, width: u32, height: u32, number: u32) {
    let _ = println!(rt; "{name} {width} by {height}: {number}");
}

// A sample's line: the texel's red, none where it is refused.
pub fn sampled(rt: &impl Print, name: &str, red: Option<u8>) {
    let _ = match red {
        Some(red) => println!(rt; "sample {name}: {red}"),
        None => println!(rt; "sample {name}: refused"),
    };
}

// A draw's line: its count.
pub fn drew(rt: &impl Print, name: &str, count: usize) {
    let _ = println!(rt; "draw {name}: {count} pixels written");
}

pub fn refused(rt: &impl Print, name: &str, number: u32) {
    let _ = println!(rt; "draw {name}: refused by {number}");
}

pub fn says(rt: &impl Print, name: &str, so: bool) {
    let _ = println!(rt; "{name}: {}", if so { "yes" } else { "no" });
}
