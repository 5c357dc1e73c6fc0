// What the programs that replay recorded answers share: reading entries and numbers, counting, the checksum.
// A record is a list of entries: a length in 4 bytes, little-endian, and that many bytes.
#![tactic(auto)]

pub mod numbered;

ghost use Rattle.std.specs.Prelude.{◌≡◌, ℕ, ◌+◌, ◌≤◌, ◌↔◌, nat_eq, Some, length, slice_index, slice_get, IfSome, IsTrue, EachIndex, List, Bool};
ghost use Rattle.std.specs.Float.Ieee as Ieee;
ghost use Rattle.std.specs.Float.{binary32};
ghost use Rattle.lists.specs.Lists.{tab};
ghost use Rattle.replay.specs.Record.{step_of, sum_of, ascending, byte_or0, word16_of, word32_of, word64_of, same_zero_of, same_of, told_of};
ghost use Rattle.replay.specs.Text.{tally_text};
ghost use Rattle.replay.specs.Entries.{ConsumesEntry};
ghost use Rattle.replay.specs.Calls.{IsTallyOfRecord};
ghost use Rattle.replay.specs.Items.{place_of};

use std::io::{Input, Print, Read};
use std::{array, fmt, num};

// How many answers were right, how many there were, the bytes read and their checksum.
#[derive(Clone, Copy, Debug, Default, PartialEq, Eq)]
pub struct Tally {
    pub right: u64,
    pub answers: u64,
    pub bytes: u64,
    pub sum: u64,
}

// One more number under the checksum.
#[tactic(auto, unfolding(crate::specs::Record::step_of))]
fn step(sum: u64, value: u64) -> u64
    ensures { result ≡ step_of sum value }
{
    ((sum % 4294967291) * 257 + value % 4294967291 + 1) % 4294967291
}

pub fn sum_bytes(sum: u64, bytes: &[u8]) -> u64
    ensures { result ≡ sum_of sum bytes.now }
{
    bytes.iter().fold(sum, |s, b| step(s, u64::from(*b)))
}

impl Tally {
    // An entry was read, and its answer was right or not.
    pub fn told(self, entry: &[u8], right: bool) -> Tally
        ensures { result ≡ told_of self entry.now right }
    {
        let n = entry.len() as u64;
        Tally {
            right: self.right.wrapping_add(u64::from(right)),
            answers: self.answers.wrapping_add(1),
            bytes: self.bytes.wrapping_add(n.wrapping_add(4)),
            sum: sum_bytes(step(self.sum, n), entry),
        }
    }
}

impl fmt::Display for Tally {
    ghost output = { λ t. Some (tally_text t) };

    fn fmt<W: fmt::Write>(&self, f: &mut fmt::Formatter<W>) -> fmt::Result {
        let Tally {
            right,
            answers,
            bytes,
            sum,
        } = *self;
        write!(
            f,
            "right {right} of {answers}\nbytes {bytes}\nchecksum {sum}"
        )
    }
}

// Reads the next entry to the start of `buffer`: none where the record ends, or has none that fits.
pub fn next<'a, R: Read>(input: &mut R, buffer: &'a mut [u8]) -> Option<&'a [u8]>
    ensures within { IfSome result (λ entry. length entry.now ≤ length buffer.old) }
    ensures bytes { IfSome result
        (λ entry. ConsumesEntry (R.remaining input.old) entry.now (R.remaining input.new)) }
{
    let mut head = [0u8; 4];
    input.read_exact(&mut head).ok()?;
    let n = u32::from_le_bytes(head) as usize;
    if n == 0 || buffer.len() < n {
        return None;
    }
    let entry = &mut buffer[..n];
    input.read_exact(entry).ok()?;
    Some(entry)
}

// Tallies the entries of a record, each judged by `is_right`.
// Kept: it is the one run of a record; those of run_cases have its name and nothing else of it (7b)
pub fn run<R: Read, F: FnMut(&[u8]) -> bool>(
    input: &mut R,
    buffer: &mut [u8],
    mut is_right: F,
) -> Tally
    // Kept: what any function asks that calls a closure at values of its own (5a)
    requires { F.IsAlwaysCallable is_right }
    ensures { IsTallyOfRecord F.FnMut (R.remaining input.old) is_right result }
{
    let mut tally = Tally::default();
    // Kept: a proved loop has to end, and nothing says that the input does (3e)
    for _ in 0..u64::MAX {
        let Some(entry) = next(input, buffer) else {
            break;
        };
        tally = tally.told(entry, is_right(entry));
    }
    tally
}

// Replays the record on standard input, and prints its tally. A tally that cannot be printed is passed over.
pub fn replay<F: FnMut(&[u8]) -> bool>(rt: &(impl Input + Print), is_right: F)
    // Kept: as run (5a)
    requires { F.IsAlwaysCallable is_right }
{
    let mut buffer = [0u8; 65536];
    let _ = println!(rt; "{}", run(&mut rt.reader(), &mut buffer, is_right));
}

// The byte at an index, 0 past the end.
// Kept: an entry may end anywhere, and what is missing is judged as 0: an Option would be unwrapped to it at each of its calls (1n)
pub fn byte_at(b: &[u8], at: usize) -> u8
    ensures { result ≡ byte_or0 b.now at }
{
    b.get(at).copied().unwrap_or(0)
}

// The N bytes from an index on; those past the end are 0.
#[tactic(auto, using(crate::proofs::Words::saturated))]
pub fn bytes_at<const N: usize>(b: &[u8], at: usize) -> [u8; N]
    ensures { EachIndex result (λ k. slice_index result k ≡ byte_or0 b.now (at + k)) }
{
    array::from_fn(
        |k: usize| -> u8
            ensures { result ≡ byte_or0 b.entry.now (at + k) }
        { byte_at(b, at.saturating_add(k)) },
    )
}

// A number of 2 bytes, the low one first; bytes past the end are 0.
// Kept: a generic one needs a trait whose impls are these three lines, each with its own definition; 0 as byte_at (1n, 2a)
#[tactic(auto, using(crate::proofs::Words::of_two))]
pub fn u16_at(b: &[u8], at: usize) -> u16
    ensures { result ≡ word16_of b.now at }
{
    u16::from_le_bytes(bytes_at(b, at))
}

// A number of 4 bytes, the low one first; bytes past the end are 0.
// Kept: as u16_at; 0 as byte_at (1n, 2a, 2e)
#[tactic(auto, using(crate::proofs::Words::of_four))]
pub fn u32_at(b: &[u8], at: usize) -> u32
    ensures { result ≡ word32_of b.now at }
{
    u32::from_le_bytes(bytes_at(b, at))
}

// A number of 8 bytes, the low one first; bytes past the end are 0.
// Kept: as u16_at; 0 as byte_at (1n, 2a)
#[tactic(auto, using(crate::proofs::Words::of_eight))]
pub fn u64_at(b: &[u8], at: usize) -> u64
    ensures { result ≡ word64_of b.now at }
{
    u64::from_le_bytes(bytes_at(b, at))
}

// A float by its bits.
pub fn f32_at(b: &[u8], at: usize) -> f32
    ensures { result ≡ Ieee.of_bits binary32 (word32_of b.now at) }
{
    num::f32_from_bits_with_nan(u32_at(b, at))
}

// Whether b is the zero a; of any other a too, as same_zero_of has it by reciprocals, where the signs alone would not do.
// The reciprocals of a zero and of a small subnormal are the same infinity, so b is held to zero first.
#[tactic(auto, unfolding(crate::specs::Record::same_zero_of))]
fn same_zero(a: f32, b: f32) -> bool
    ensures { result ≡ same_zero_of a b }
{
    b == 0.0 && 1.0 / a == 1.0 / b
}

// Whether two floats are the same: NaN is NaN, and a zero has its sign.
// Kept: == holds no NaN for another and -0 for 0, the bits tell NaNs apart, and std's total order asks that there is none (4a)
#[tactic(auto, using(std::proofs::lemmas::Bool::Decides::nat_tests, floats::proofs::Signs::nan_is), unfolding(crate::specs::Record::same_of))]
pub fn same(a: f32, b: f32) -> bool
    ensures { result ≡ same_of a b }
{
    if a.is_nan() {
        return b.is_nan();
    }
    if a == 0.0 {
        return same_zero(a, b);
    }
    a == b
}

// What stands one after another in an entry: bytes, numbers of 4 bytes, and floats by their bits.
pub trait Item: Copy {
    ghost SIZE: { ℕ };

    ghost item_of: { List ℕ → ℕ → Self };

    ghost same_item_of: { Self → Self → Bool };

    // How many bytes one takes.
    const SIZE: usize;

    fn at(b: &[u8], at: usize) -> Self
        ensures { result ≡ item_of b.now at };

    fn is_same(self, other: Self) -> bool
        ensures { result ≡ same_item_of self other };
}

impl Item for u8 {
    ghost SIZE = { 1 };

    ghost item_of = { byte_or0 };

    ghost same_item_of = { nat_eq };

    const SIZE: usize = 1;

    fn at(b: &[u8], at: usize) -> u8 {
        byte_at(b, at)
    }

    // Kept: the byte is the value, and no code; a trait has an impl for each type (1m, 2a)
    fn is_same(self, other: u8) -> bool {
        self == other
    }
}

impl Item for u32 {
    ghost SIZE = { 4 };

    ghost item_of = { word32_of };

    ghost same_item_of = { nat_eq };

    const SIZE: usize = 4;

    fn at(b: &[u8], at: usize) -> u32 {
        u32_at(b, at)
    }

    // Kept: as of u8 (1m, 2a)
    fn is_same(self, other: u32) -> bool {
        self == other
    }
}

impl Item for f32 {
    ghost SIZE = { 4 };

    ghost item_of = { λ l i. Ieee.of_bits binary32 (word32_of l i) };

    ghost same_item_of = { same_of };

    const SIZE: usize = 4;

    fn at(b: &[u8], at: usize) -> f32 {
        f32_at(b, at)
    }

    fn is_same(self, other: f32) -> bool {
        same(self, other)
    }
}

// The bytes first, first + step, first + 2 step, .. modulo 256.
pub fn fill(out: &mut [u8], first: u8, step: u8)
    ensures { out.new ≡ tab (length out.old) (ascending first step) }
{
    for (i, b) in out.iter_mut().enumerate() {
        *b = first.wrapping_add(step.wrapping_mul((i % 256) as u8));
    }
}

// Where item i of those from `at` on stands: at most the largest index, which is past every end.
fn place<T: Item>(at: usize, i: usize) -> usize
    ensures { result ≡ place_of at T.SIZE i }
{
    at.saturating_add(i.saturating_mul(T::SIZE))
}

// The N items from `at` on.
pub fn items_at<T: Item, const N: usize>(b: &[u8], at: usize) -> [T; N]
    ensures { EachIndex result (λ k. slice_get result k ≡ Some (T.item_of b.now (place_of at T.SIZE k))) }
{
    array::from_fn(
        |k: usize| -> T
            ensures { result ≡ T.item_of b.entry.now (place_of at T.SIZE k) }
        { T::at(b, place::<T>(at, k)) },
    )
}

// Reads the items from `at` on.
pub fn load<T: Item>(out: &mut [T], b: &[u8], at: usize)
    ensures { EachIndex out.new (λ i. slice_get out.new i ≡ Some (T.item_of b.now (place_of at T.SIZE i))) }
{
    for (i, item) in out.iter_mut().enumerate() {
        *item = T::at(b, place::<T>(at, i));
    }
}

// Whether the items from `at` on are those found.
pub fn are_same<T: Item>(found: &[T], b: &[u8], at: usize) -> bool
    ensures { IsTrue result ↔ ((i : ℕ) (x : T) → slice_get found.now i ≡ Some x → IsTrue (T.same_item_of x (T.item_of b.now (place_of at T.SIZE i)))) }
{
    found
        .iter()
        .enumerate()
        .all(|(i, x)| x.is_same(T::at(b, place::<T>(at, i))))
}
