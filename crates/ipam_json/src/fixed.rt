//! The text of a refusal whose detail is fixed, which takes no memory.

ghost use Rattle.std.specs.Prelude.{◌≡◌, ◌≤◌, ◌+◌, ◌++◌, true, length};
ghost use Rattle.arrayvec.specs.ArrayVec.{array_vec_len};
ghost use Rattle.ipam_words.specs.Lines.{is_fixed};
ghost use Rattle.ipam_json.specs.Replies.{refusal_text};

use arrayvec::ArrayVec;
use ipam_data::replies::Refusal;
use ipam_words::{code, fixed_detail};

/// Appends the bytes, for which there is room.
fn push_all(text: &mut ArrayVec<u8, 128>, more: &[u8])
    requires { array_vec_len text.old + length more.now ≤ 128 }
    ensures items { text.new.items ≡ text.old.items ++ more.now }
    ensures len { array_vec_len text.new ≡ array_vec_len text.old + length more.now }
{
    match text.try_extend_from_slice(more) {
        Ok(()) => {}
        Err(_) => unreachable!(),
    }
}

/// The JSON text of a refusal whose detail names nothing: out of memory, and what is refused before a body is read, among them.
/// It takes no memory.
pub fn fixed_refusal_bytes(refusal: &Refusal) -> ArrayVec<u8, 128>
    requires { is_fixed refusal.now ≡ true }
    ensures { result.items ≡ refusal_text refusal.now }
{
    let mut text = ArrayVec::new();
    push_all(&mut text, b"{\"code\":\"");
    push_all(&mut text, code(refusal).as_bytes());
    push_all(&mut text, b"\",\"detail\":\"");
    push_all(&mut text, fixed_detail(refusal).as_bytes());
    push_all(&mut text, b"\"}");
    text
}
