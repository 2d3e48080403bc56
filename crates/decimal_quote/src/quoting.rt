//! One pass over a text, piece by piece.

ghost use Rattle.std.specs.Prelude.{◌≡◌, ℕ, List, length, map, ◌<◌, ◌≤◌, IfOk, OnOk, OnErr, ◌++◌};
ghost use Rattle.std.specs.Prelude.{IsTrue, ◌↔◌, ◌==◌, ◌&&◌, ◌||◌, not, true, slice_index, take};
ghost use Rattle.std.specs.List.{prefix_len};
ghost use Rattle.std.specs.Simd.Lanes.{mask_l};
ghost use Rattle.decimal_quote.specs.Quoted.{AreCut, HaveLongestRuns, IsQuoted, piece_length};
ghost use Rattle.decimal_quote.specs.Quoted.{string_length, shown, needs_marks, is_number_byte};
ghost use Rattle.decimal_quote.specs.Quoted.{begins_run, mark};

use crate::numbers::{LANES, behind_first, behind_number, is_short_whole};
use no_memory::NoMemory;
use std::alloc::Global;
use std::simd::prelude::*;

const MARK: u8 = b'"';

const BACKSLASH: u8 = b'\\';

/// The text with quotation marks round its numbers (RFC 8259, section 6), but for 0 and those of 1
/// to 18 digits, the first not 0, behind a minus or none. Strings stay as they are.
pub fn quote(alloc: Global, text: &[u8]) -> Result<Vec<u8>, NoMemory>
    ensures quoted { IfOk result (λ quoted. IsQuoted text.now quoted.items) }
    ensures only { IfOk result
        (λ quoted. (other : List ℕ) → IsQuoted text.now other → other ≡ quoted.items) }
{
    let mut quoted = Vec::with_capacity(alloc, text.len().saturating_mul(2))?;
    // What stands behind the last number with marks, and how much of it is to stay as it is.
    let mut held = text;
    let mut plain = 0;
    'pieces: while plain < held.len() {
        if stands_alone(held[plain]) {
            plain += 1;
            continue;
        }
        let (front, rest) = held.split_at(plain);
        let piece = first_piece(rest);
        if piece.is_marked {
            let (number, behind) = rest.split_at(piece.length);
            push_marked(&mut quoted, front, number)?;
            held = behind;
            plain = 0;
        } else {
            plain += piece.length;
        }
    }
    quoted.extend_from_slice(held)?;
    Ok(quoted)
}

/// A text is quoted in one way.
pub fn one_quoted_text()
    ensures { (text one other : List ℕ) → IsQuoted text one → IsQuoted text other → one ≡ other }
{}

/// Each text is quoted in some way.
pub fn each_text_is_quoted()
    ensures { (text : List ℕ) → (quoted : List ℕ) × IsQuoted text quoted }
{}

/// In a cut no byte of numbers stands behind a run of them.
pub fn runs_are_longest()
    ensures { (pieces : List (List ℕ)) → AreCut pieces → HaveLongestRuns pieces }
{}

/// The first piece of a text: how many bytes it takes, and whether marks are put round it.
#[derive(Clone, Copy)]
struct Piece {
    length: usize,
    is_marked: bool,
}

/// The first piece of a text that begins with a mark or a byte of numbers.
fn first_piece(text: &[u8]) -> Piece
    requires some { 0 < length text.now }
    requires kind { (slice_index text.now 0 == mark || is_number_byte (slice_index text.now 0))
        ≡ true }
    ensures length { result.length ≡ piece_length text.now }
    ensures some { 0 < result.length }
    ensures within { result.length ≤ length text.now }
    ensures marks { result.is_marked ≡ needs_marks (take result.length text.now) }
{
    if text[0] == MARK {
        Piece {
            length: 1 + bytes_of_string(behind_first(text)),
            is_marked: false,
        }
    } else {
        piece_of_number(text)
    }
}

/// The piece of a text that begins with a byte of numbers.
fn piece_of_number(text: &[u8]) -> Piece
    ensures length { result.length ≡ prefix_len is_number_byte text.now }
    ensures marks { result.is_marked ≡ needs_marks (take result.length text.now) }
{
    if let Some(behind) = behind_number(text) {
        if !begins_in_number(behind) {
            let (number, _) = text.split_at(text.len() - behind.len());
            return Piece {
                length: number.len(),
                is_marked: !is_short_whole(number),
            };
        }
    }
    Piece {
        length: bytes_of_number(text),
        is_marked: false,
    }
}

/// Whether a text begins with a byte of numbers.
fn begins_in_number(text: &[u8]) -> bool
    ensures { result ≡ begins_run text.now }
{
    match text {
        [first, ..] => is_in_number(*first),
        [] => false,
    }
}

/// Whether a byte is a piece of its own that stays as it is.
fn stands_alone(byte: u8) -> bool
    ensures { result ≡ (not (byte == mark) && not (is_number_byte byte)) }
{
    byte != MARK && !is_in_number(byte)
}

/// How many bytes a string takes behind its first mark, its last mark included.
fn bytes_of_string(text: &[u8]) -> usize
    ensures bytes { result ≡ string_length text.now }
    ensures within { result ≤ length text.now }
{
    let mut at = 0;
    'bytes: while at < text.len() {
        if text.len() - at >= LANES {
            let bytes = u8x16::from_slice(&text[at..]);
            if lanes_equal_to(bytes, BACKSLASH) == 0 {
                let marks = lanes_equal_to(bytes, MARK);
                if marks != 0 {
                    return at + marks.trailing_zeros() as usize + 1;
                }
                at += LANES;
                continue;
            }
        }
        let byte = text[at];
        if byte == MARK {
            return at + 1;
        }
        at += if byte == BACKSLASH { 2 } else { 1 };
    }
    text.len()
}

/// A bit for each of `bytes`, the lowest for the first: whether that one is `byte`.
#[inline(always)]
fn lanes_equal_to(bytes: u8x16, byte: u8) -> u64
    ensures { result ≡ mask_l (map (λ one. one == byte) bytes) }
{
    bytes.simd_eq(u8x16::splat(byte)).to_bitmask()
}

/// How many bytes of numbers stand at the front.
fn bytes_of_number(text: &[u8]) -> usize
    ensures bytes { result ≡ prefix_len is_number_byte text.now }
    ensures within { result ≤ length text.now }
{
    text.iter().take_while(|byte| is_in_number(**byte)).count()
}

fn is_in_number(byte: u8) -> bool
    ensures { result ≡ is_number_byte byte }
{
    byte.is_ascii_digit() || matches!(byte, b'.' | b'-' | b'+' | b'e' | b'E')
}

/// Puts what stays as it is, and behind it a number between marks.
fn push_marked(to: &mut Vec<u8>, front: &[u8], number: &[u8]) -> Result<(), NoMemory>
    requires { needs_marks number.now ≡ true }
    ensures ok { OnOk result (to.new.items ≡ (to.old.items ++ front.now) ++ shown number.now) }
{
    to.extend_from_slice(front)?;
    to.push(MARK)?;
    to.extend_from_slice(number)?;
    to.push(MARK)?;
    Ok(())
}
