// Replays the Rust's answers to the float helpers.
// An entry: the helper's code, three operands by their bits (4 bytes each), whether the answer is below zero, the answer (8 bytes).
#![tactic(auto)]

use replay::numbered::Signed;
use std::num::{
    saturating_f32_to_i32, saturating_f32_to_i64, saturating_f32_to_u8, saturating_f32_to_u32,
};

// What a helper answers: a float, a number from 0 up or whether something holds, a signed number.
#[derive(Clone, Copy, Debug, PartialEq)]
enum Answer {
    Float(f32),
    Number(u64),
    Whole(i64),
}

// Kept: each code stands once, beside its helper; with an enum of the helpers it would stand in try_from, and the helper in a match besides: here no other place speaks of a helper (1l, 7a)
fn answer_to(entry: &[u8]) -> Answer {
    let code = replay::byte_at(entry, 0);
    let a = replay::f32_at(entry, 1);
    let b = replay::f32_at(entry, 5);
    match code {
        0 => Answer::Float(floats::min(a, b)),
        1 => Answer::Float(floats::max(a, b)),
        2 => Answer::Float(floats::clamp(a, b, replay::f32_at(entry, 9))),
        3 => Answer::Float(floats::abs(a)),
        4 | 9 => Answer::Float(a),
        5 => Answer::Float(rounding::floor(a)),
        6 => Answer::Float(rounding::ceil(a)),
        7 => Answer::Float(rounding::round(a)),
        8 => Answer::Float(channels::to_unit(replay::byte_at(entry, 1))),
        10 => Answer::Number(u64::from(a.is_nan())),
        11 => Answer::Number(u64::from(floats::is_finite(a))),
        12 => Answer::Number(u64::from(floats::is_bounded(a))),
        13 => Answer::Number(u64::from(saturating_f32_to_u8(a))),
        14 => Answer::Number(u64::from(saturating_f32_to_u32(a))),
        15 => Answer::Number(u64::from(channels::to_byte(a))),
        16 => Answer::Number(u64::from(channels::rounded_byte(a))),
        17..=19 => Answer::Number(0),
        20 => Answer::Whole(i64::from(saturating_f32_to_i32(rounding::floor(a)))),
        21 => Answer::Whole(i64::from(saturating_f32_to_i32(rounding::ceil(a)))),
        22 => Answer::Whole(i64::from(saturating_f32_to_i32(rounding::ceil(a)).saturating_add(1))),
        23 => Answer::Whole(saturating_f32_to_i64(rounding::floor(a))),
        24 => Answer::Whole(saturating_f32_to_i64(rounding::floor(a)).saturating_add(1)),
        25 => Answer::Whole(i64::from(saturating_f32_to_i32(a))),
        _ => Answer::Whole(saturating_f32_to_i64(a)),
    }
}

fn is_right(entry: &[u8]) -> bool {
    let right = replay::u64_at(entry, 14);
    match answer_to(entry) {
        Answer::Float(x) => replay::same(x, replay::f32_at(entry, 14)),
        Answer::Number(n) => n == right,
        Answer::Whole(z) => {
            let Signed { below, n } = Signed::from(z);
            replay::byte_at(entry, 13) == u8::from(below) && n == right
        }
    }
}

fn main(rt: HostRuntime) {
    replay::replay(&rt, is_right);
}
