// The operations on texture objects. A record is lent as its layout, and written where a call is done: its other bytes stay as found.
ghost use Rattle.std.specs.Prelude.{◌≡◌, [], length};
ghost use Rattle.answers.specs.Results.{answer_number};
ghost use Rattle.levels.specs.declared.Texture.{Texture};
ghost use Rattle.texture.specs.Define.{record_after};
ghost use Rattle.layouts.specs.Records.{put_define, put_parameter};
ghost use Rattle.tilefringe.specs.TextureCalls.{lent, written, new_call, define_call, patch_call, set_call};

use crate::WRONG_LAYOUT;
use answers::Refusal;
use layouts::Layout;
use levels::Texture;

// Puts a define of level k into the layout, where it is done.
fn put_defined(layout: &mut [u8], k: u32, answer: Result<Texture, Refusal>) -> Result<(), Refusal>
    requires { length layout.old ≡ 244 }
    ensures number { answer_number result ≡ answer_number answer }
    ensures layout { (t : Texture) → layout.new ≡ written (answer_number answer) layout.old (put_define k (record_after t answer) layout.old) }
{
    layouts::put_define(layout, k as usize, answer?);
    Ok(())
}

// Puts a setting into the layout, where it is done.
fn put_set(
    layout: &mut [u8],
    pname: u32,
    value: u32,
    answer: Result<Texture, Refusal>,
) -> Result<(), Refusal>
    requires { length layout.old ≡ 244 }
    ensures number { answer_number result ≡ answer_number answer }
    ensures layout { layout.new ≡ written (answer_number answer) layout.old (put_parameter pname value layout.old) }
{
    answer?;
    layouts::put_parameter(layout, pname, value);
    Ok(())
}

#[unsafe(no_mangle)]
pub extern "C" fn tf_new_texture(layout: &mut [u8]) -> u32
    ensures { lent result layout.new [] ≡ new_call layout.old }
{
    if layout.len() != layouts::SIZE {
        return WRONG_LAYOUT; // Kept: the C interface's answer; a Result would need a twin of each call beside it. (1j)
    }
    layouts::write_record(layout, Texture::new());
    0
}

#[unsafe(no_mangle)]
pub extern "C" fn tf_define_level(
    layout: &mut [u8],
    store: &mut [u8],
    level: u32,
    width: u32,
    height: u32,
    place: usize,
    rgba: &[u8],
) -> u32
    ensures { lent result layout.new store.new ≡ define_call layout.old store.old level width height place rgba.now }
{
    let Some(texture) = layouts::read_record(layout) else {
        return WRONG_LAYOUT; // Kept: the C interface's answer; a Result would need a twin of each call beside it. (1j)
    };
    let defined = texture::define_level(store, texture, level, width, height, place, rgba);
    answers::number(put_defined(layout, level, defined))
}

#[unsafe(no_mangle)]
pub extern "C" fn tf_patch_level(
    layout: &[u8],
    store: &mut [u8],
    level: u32,
    xoffset: u32,
    yoffset: u32,
    width: u32,
    height: u32,
    patch: &[u8],
) -> u32
    ensures { lent result layout.now store.new ≡ patch_call layout.now store.old level xoffset yoffset width height patch.now }
{
    // The record is told from its layout as it stands.
    let Some(texture) = Layout::new(layout) else {
        return WRONG_LAYOUT; // Kept: the C interface's answer; a Result would need a twin of each call beside it. (1j)
    };
    answers::number(texture::patch_level(
        store, texture, level, xoffset, yoffset, width, height, patch,
    ))
}

#[unsafe(no_mangle)]
pub extern "C" fn tf_set_parameter(layout: &mut [u8], pname: u32, value: u32) -> u32
    ensures { lent result layout.new [] ≡ set_call layout.old pname value }
{
    let Some(texture) = layouts::read_record(layout) else {
        return WRONG_LAYOUT; // Kept: the C interface's answer; a Result would need a twin of each call beside it. (1j)
    };
    let set = texture::set_parameter(texture, pname, value);
    answers::number(put_set(layout, pname, value, set))
}
