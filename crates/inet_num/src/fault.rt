//! Why a text is no address.

ghost use Rattle.std.specs.Prelude.{◌≡◌, ◌<◌, ◌∷◌, [], ◌==◌, ◌&&◌, ◌||◌, not, IfSome, IfNone, length, count_by, slice_index, ◌+◌};
ghost use Rattle.std.specs.List.{list_all};
ghost use Rattle.std.specs.Char.{is_ascii_hexdigit};
ghost use Rattle.inet_num.specs.Fault.{is_colon, is_period, is_dotted, is_written, is_bad, is_misshapen, is_count_wrong, is_quad_misshapen, begins_single, ends_single, pieces_of, last_of, colon_pairs_of, pieces_fault_of, groups_fault_of, quad_fault_of, address_fault_of};

use crate::text::TextFault;

/// What is before the first colon, and what follows it.
fn next_piece(text: &[u8]) -> (&[u8], Option<&[u8]>)
    ensures some { IfSome result.1 (λ rest. pieces_of text.now ≡ result.0.now ∷ pieces_of rest.now) }
    ensures shorter { IfSome result.1 (λ rest. length rest.now < length text.now) }
    ensures none { IfNone result.1 (pieces_of text.now ≡ result.0.now ∷ []) }
{
    'scan: for i in 0..text.len() {
        if text[i] == b':' {
            return (&text[..i], Some(&text[i + 1..]));
        }
    }
    (text, None)
}

/// How many pieces are not empty.
fn written_pieces(text: &[u8]) -> usize
    ensures { result ≡ count_by is_written (pieces_of text.now) }
{
    let mut rest = text;
    let mut count = 0usize;
    'pieces: loop {
        let (piece, more) = next_piece(rest);
        if !piece.is_empty() {
            count += 1;
        }
        let Some(more) = more else {
            return count;
        };
        rest = more;
    }
}

/// The piece with which the text ends.
fn last_piece(text: &[u8]) -> &[u8]
    ensures { result.now ≡ last_of (pieces_of text.now) }
{
    let mut rest = text;
    'pieces: loop {
        let (piece, more) = next_piece(rest);
        let Some(more) = more else {
            return piece;
        };
        rest = more;
    }
}

/// Whether two colons are side by side here.
fn is_pair(text: &[u8], i: usize) -> bool
    requires { i < length text.now }
    ensures { result ≡ (is_colon (slice_index text.now i) && is_colon (slice_index text.now (i + 1))) }
{
    if text[i] != b':' {
        return false;
    }
    if i + 1 < text.len() {
        text[i + 1] == b':'
    } else {
        false
    }
}

/// How often two colons are side by side.
fn colon_pairs(text: &[u8]) -> usize
    ensures { result ≡ colon_pairs_of text.now }
{
    let mut pairs = 0usize;
    'scan: for i in 0..text.len() {
        if is_pair(text, i) {
            pairs += 1;
        }
    }
    pairs
}

/// Whether each byte is a hexadecimal digit.
fn is_hexadecimal(piece: &[u8]) -> bool
    ensures { result ≡ list_all is_ascii_hexdigit piece.now }
{
    for byte in piece {
        if !byte.is_ascii_hexdigit() {
            return false;
        }
    }
    true
}

/// Whether the piece is neither empty nor one to four hexadecimal digits.
fn is_bad(piece: &[u8]) -> bool
    ensures { result ≡ is_bad piece.now }
{
    if piece.is_empty() {
        return false;
    }
    if piece.len() > 4 {
        return true;
    }
    !is_hexadecimal(piece)
}

/// How many periods the piece has.
fn periods(piece: &[u8]) -> usize
    ensures { result ≡ count_by is_period piece.now }
{
    piece.iter().filter(|byte| **byte == b'.').count()
}

/// Whether the text has a wrong number of groups.
fn has_wrong_count(text: &[u8]) -> bool
    ensures { result ≡ is_count_wrong text.now }
{
    let pieces = written_pieces(text);
    let wanted = if last_piece(text).contains(&b'.') {
        7
    } else {
        8
    };
    if colon_pairs(text) == 0 {
        pieces != wanted
    } else {
        pieces >= wanted
    }
}

/// Whether a single colon comes first.
fn begins_single(text: &[u8]) -> bool
    ensures { result ≡ begins_single text.now }
{
    text.starts_with(b":") && !text.starts_with(b"::")
}

/// Whether a single colon comes last.
fn ends_single(text: &[u8]) -> bool
    ensures { result ≡ ends_single text.now }
{
    text.ends_with(b":") && !text.ends_with(b"::")
}

/// Whether the piece has periods, but not three.
fn is_quad_misshapen(piece: &[u8]) -> bool
    ensures { result ≡ is_quad_misshapen piece.now }
{
    piece.contains(&b'.') && periods(piece) != 3
}

/// Whether the text has a wrong shape.
fn is_misshapen(text: &[u8]) -> bool
    ensures { result ≡ is_misshapen text.now }
{
    if colon_pairs(text) > 1 {
        return true;
    }
    if begins_single(text) {
        return true;
    }
    if ends_single(text) {
        return true;
    }
    if has_wrong_count(text) {
        return true;
    }
    is_quad_misshapen(last_piece(text))
}

/// The fault of the last piece, if each one before it is good.
fn last_fault(piece: &[u8]) -> TextFault
    ensures { result ≡ pieces_fault_of (piece.now ∷ []) }
{
    if piece.contains(&b'.') {
        TextFault::Octet
    } else {
        TextFault::Group
    }
}

/// The fault of the first piece that is neither empty nor a group, or else of the last one.
fn pieces_fault(text: &[u8]) -> TextFault
    ensures { result ≡ pieces_fault_of (pieces_of text.now) }
{
    let mut rest = text;
    'pieces: loop {
        let (piece, more) = next_piece(rest);
        let Some(more) = more else {
            return last_fault(piece);
        };
        if is_bad(piece) {
            return TextFault::Group;
        }
        rest = more;
    }
}

/// The fault of a text that is one of no address.
pub fn address_fault(text: &[u8]) -> TextFault
    ensures { result ≡ address_fault_of text.now }
{
    if text.contains(&b':') {
        if is_misshapen(text) {
            TextFault::Shape
        } else {
            pieces_fault(text)
        }
    } else if periods(text) == 3 {
        TextFault::Octet
    } else {
        TextFault::Shape
    }
}
