// The name of a frame, read from its escapes.
ghost use Rattle.std.specs.Prelude.{ℕ, ◌≡◌, ◌≢◌, ◌+◌, ◌*◌, ◌/◌, ◌%◌, ◌<◌, ◌≤◌, ◌^◌, [], ◌∷◌};
ghost use Rattle.std.specs.Prelude.{length, slice_index, string_bytes, IsTrue, IsFalse};
ghost use Rattle.std.specs.Prelude.{IfOk, IfErr, IfSome, None, Some, true, false};
ghost use Rattle.cert_text.specs.Names.{is_plain, hex_digit};
ghost use Rattle.cert_text.specs.Stands.{Stands};
ghost use Rattle.cert_text.specs.Forms.{Reads, Refuses};
ghost use Rattle.cert_text.specs.LineForms as forms;
ghost use Rattle.cert_text.specs.Characters.{after, CanFollow, IsSound, escape, name_byte};

use crate::cert_refusal::CertRefusal;
use crate::characters::Character;
use crate::escaping::is_plain;
use crate::parts::bad_line;
use std::alloc::Global;

/// The value of a hexadecimal digit in upper case; None for another byte.
fn hex_value(byte: u8) -> Option<u8>
    ensures small { IfSome result (λ n. n < 16) }
    ensures digit { IfSome result (λ n. byte ≡ hex_digit n) }
    ensures other { result ≡ None → (n : ℕ) → n < 16 → hex_digit n ≢ byte }
{
    match byte {
        b'0'..=b'9' => Some(byte - b'0'),
        b'A'..=b'F' => Some(byte - b'A' + 10),
        _ => None,
    }
}

/// The value of the hexadecimal digit at a place; None if none is there.
fn hex_at(text: &[u8], at: usize) -> Option<u8>
    ensures small { IfSome result (λ n. n < 16) }
    ensures within { IfSome result (λ _. at < length text.now) }
    ensures digit { IfSome result (λ n. slice_index text.now at ≡ hex_digit n) }
    ensures other { result ≡ None → (n : ℕ) → n < 16 → at < length text.now
        → hex_digit n ≢ slice_index text.now at }
{
    if at >= text.len() {
        return None;
    }
    hex_value(text[at])
}

/// The rest of a name after an escaped byte; None for one that isn't escaped or can't come.
fn after_escape(state: Character, byte: u8) -> Option<Character>
    ensures escaped { IfSome result (λ _. is_plain byte ≡ false) }
    ensures follows { IfSome result (λ next. after state byte ≡ Some next) }
    ensures none { result ≡ None → CanFollow state byte → is_plain byte ≡ true }
{
    if is_plain(byte) {
        return None;
    }
    state.after(byte)
}

/// Whether some byte whose escape begins with this digit may come.
fn begins_escape(state: Character, high: u8) -> bool
    requires { high < 16 }
    ensures some { IsTrue result → (byte : ℕ) × ((byte / 16 ≡ high) × (escape state).Has byte) }
    ensures none { IsFalse result → (byte : ℕ) → byte / 16 ≡ high → CanFollow state byte
        → is_plain byte ≡ true }
{
    for low in 0..16u8 {
        if after_escape(state, high * 16 + low).is_some() {
            return true;
        }
    }
    false
}

/// Reads the two digits of an escape, after its `%`, and returns the byte that it stands for and
/// the rest of the name after it.
fn escape(text: &[u8], at: usize, state: Character) -> Result<(u8, Character), CertRefusal>
    requires short { length text.now < 2 ^ 32 }
    requires within { at ≤ length text.now }
    ensures reads { IfOk result (λ read. Reads (escape state) text.now at read.0 (at + 2)) }
    ensures follows { IfOk result (λ read. after state read.0 ≡ Some read.1) }
    ensures refused { IfErr result (λ e. IsSound state → Refuses (escape state) text.now at e) }
{
    let Some(high) = hex_at(text, at) else {
        return Err(bad_line(at));
    };
    if !begins_escape(state, high) {
        return Err(bad_line(at));
    }
    let Some(low) = hex_at(text, at + 1) else {
        return Err(bad_line(at + 1));
    };
    let byte = high * 16 + low;
    let Some(next) = after_escape(state, byte) else {
        return Err(bad_line(at + 1));
    };
    Ok((byte, next))
}

/// Reads one byte of a name, escaped or as it is, and returns the rest of the name after it and the
/// place too.
fn name_byte(
    text: &[u8],
    at: usize,
    state: Character,
) -> Result<(u8, Character, usize), CertRefusal>
    requires short { length text.now < 2 ^ 32 }
    requires within { at ≤ length text.now }
    ensures reads { IfOk result (λ read. Reads (name_byte state) text.now at read.0 read.2) }
    ensures follows { IfOk result (λ read. after state read.0 ≡ Some read.1) }
    ensures later { IfOk result (λ read. at < read.2) }
    ensures refused { IfErr result (λ e. IsSound state → Refuses (name_byte state) text.now at e) }
{
    if at >= text.len() {
        return Err(bad_line(at));
    }
    let byte = text[at];
    if byte == b'%' {
        let (byte, next) = escape(text, at + 1, state)?;
        return Ok((byte, next, at + 3));
    }
    if !is_plain(byte) {
        return Err(bad_line(at));
    }
    let Some(next) = state.after(byte) else {
        return Err(bad_line(at));
    };
    Ok((byte, next, at + 1))
}

/// Whether a name ends at a place, by the space after it.
fn is_over(text: &[u8], at: usize, state: Character) -> bool
    ensures over { IsTrue result → (state.left ≡ 0) × (at < length text.now)
        × (slice_index text.now at ≡ 32) }
    ensures on { IsFalse result → state.left ≡ 0 → at < length text.now
        → slice_index text.now at ≢ 32 }
{
    state.is_between() && at < text.len() && text[at] == b' '
}

/// Reads a name, which has at least one character, and the space after it, and returns the place
/// after that space too.
pub fn name(alloc: Global, text: &[u8], at: usize) -> Result<(String, usize), CertRefusal>
    requires short { length text.now < 2 ^ 32 }
    requires within { at ≤ length text.now }
    ensures reads { IfOk result (λ read.
        Reads forms.name text.now at (string_bytes read.0) read.1) }
    ensures refused { IfErr result (λ e. Refuses forms.name text.now at e) }
{
    let mut bytes = Vec::new(alloc);
    let mut state = Character::between();
    let mut end = at;
    while !is_over(text, end, state) {
        let (byte, next, place) = name_byte(text, end, state)?;
        bytes.push(byte)?;
        state = next;
        end = place;
    }
    if bytes.is_empty() {
        return Err(bad_line(end));
    }
    match String::from_utf8(bytes) {
        Ok(name) => Ok((name, end + 1)),
        Err(_) => Err(bad_line(end)),
    }
}
