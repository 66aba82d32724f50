//! Writing the text of a hash.

ghost use Rattle.std.specs.Prelude.{◌≡◌, ◌≢◌, ◌++◌, ◌∷◌, ◌+◌, ◌*◌, ◌/◌, ◌<◌, ◌≤◌, ℕ, List, Some, suc, length, drop};
ghost use Rattle.std.specs.Fmt.{decimal};
ghost use Rattle.argon2_base.specs.Texts.{strict_base64};
ghost use Rattle.argon2.specs.Settings.{algorithm_number};
ghost use Rattle.argon2_c.specs.Texts.{WritesAfter, costs_part, encode_code, hash_text, name_numbered, text_asked, version_part};

use crate::code::{ENCODING_FAIL, OK};
use crate::number::variant;
use crate::request::Request;
use argon2::Algorithm;
use arrayvec::ArrayString;
use base64::engine::general_purpose::STANDARD_NO_PAD;
use itoa::Buffer;

/// Writes the text of a hash with a zero byte after it, and returns 0. Returns -31 if the variant does not exist or `out` is
/// too short; `out` is then as before.
#[unsafe(no_mangle)]
pub extern "C" fn argon2_c_encode(request: &Request, salt: &[u8], tag: &[u8], out: &mut [u8]) -> i32
    ensures answer { let text = text_asked request.now salt.now tag.now in
        result ≡ encode_code request.now.algorithm text (length out.old) }
    ensures written { let text = text_asked request.now salt.now tag.now in
        result ≡ OK → out.new ≡ text ++ 0 ∷ drop (suc (length text)) out.old }
    ensures same { result ≢ OK → out.new ≡ out.old }
{
    let Request {
        algorithm,
        version,
        m_cost,
        t_cost,
        lanes,
        ..
    } = *request;
    let Some(algorithm) = variant(algorithm) else {
        return ENCODING_FAIL;
    };
    let prefix = prefix(algorithm, version, m_cost, t_cost, lanes);
    if text_len(prefix.as_str().len(), salt.len(), tag.len()) >= out.len() as u128 {
        return ENCODING_FAIL;
    }
    let at = put(prefix.as_str().as_bytes(), out, 0);
    let at = put_base64(salt, out, at);
    let at = put(b"$", out, at);
    let at = put_base64(tag, out, at);
    put(b"\0", out, at);
    OK
}

// The prefix of a text that ends before its salt.
fn prefix(
    algorithm: Algorithm,
    version: u32,
    m_cost: u32,
    t_cost: u32,
    lanes: u32,
) -> ArrayString<64>
    ensures { (left : List ℕ) → result.bytes ++ left ≡ 36 ∷ (name_numbered (algorithm_number algorithm)
        ++ 36 ∷ version_part (Some version) (costs_part m_cost t_cost lanes left)) }
{
    let mut text = ArrayString::new();
    text.push('$');
    text.push_str(algorithm.as_str());
    push_number(&mut text, "$v=", version);
    push_number(&mut text, "$m=", m_cost);
    push_number(&mut text, ",t=", t_cost);
    push_number(&mut text, ",p=", lanes);
    text.push('$');
    text
}

// Appends a name and a number to a text.
fn push_number(text: &mut ArrayString<64>, name: &str, n: u32)
    requires { length text.old.bytes + length name.now ≤ 54 }
    ensures bytes { text.new.bytes ≡ text.old.bytes ++ (name.now ++ decimal n) }
    ensures most { length text.new.bytes ≤ length text.old.bytes + length name.now + 10 }
{
    text.push_str(name);
    text.push_str(Buffer::new().format(n));
}

/// Writes bytes into `out` from the index `at` on, and returns the index after them.
pub fn put(bytes: &[u8], out: &mut [u8], at: usize) -> usize
    requires { at + length bytes.now ≤ length out.old }
    ensures at { result ≡ at + length bytes.now }
    ensures appends { WritesAfter at bytes.now out.old out.new result }
{
    let end = at + bytes.len();
    out[at..end].copy_from_slice(bytes);
    end
}

// Writes the Base64 of bytes into `out` from the index `at` on, and returns the index after it.
fn put_base64(bytes: &[u8], out: &mut [u8], at: usize) -> usize
    requires { at + (4 * length bytes.now + 2) / 3 ≤ length out.old }
    ensures at { result ≡ at + (4 * length bytes.now + 2) / 3 }
    ensures appends { WritesAfter at (strict_base64 bytes.now) out.old out.new result }
{
    at + STANDARD_NO_PAD.encode_slice(bytes, &mut out[at..]).unwrap()
}

/// The length of a text of version 19 with the zero byte after it, or 0 if the variant does not exist.
#[unsafe(no_mangle)]
pub extern "C" fn argon2_c_encoded_length(
    algorithm: u32,
    m_cost: u32,
    t_cost: u32,
    lanes: u32,
    salt_len: u32,
    tag_len: u32,
) -> usize
    ensures value { (salt tag : List ℕ) → algorithm ≤ 2 → length salt ≡ salt_len
        → length tag ≡ tag_len
        → result ≡ length (hash_text algorithm 19 m_cost t_cost lanes salt tag) + 1 }
    ensures none { 2 < algorithm → result ≡ 0 }
{
    let Some(algorithm) = variant(algorithm) else {
        return 0;
    };
    let prefix = prefix(algorithm, 19, m_cost, t_cost, lanes);
    text_len(prefix.as_str().len(), salt_len as usize, tag_len as usize) as usize + 1
}

// The length of a text, if `prefix` bytes come before its salt.
fn text_len(prefix: usize, salt: usize, tag: usize) -> u128
    ensures { result ≡ prefix + (4 * salt + 2) / 3 + (4 * tag + 2) / 3 + 1 }
{
    prefix as u128 + (4 * salt as u128 + 2) / 3 + (4 * tag as u128 + 2) / 3 + 1
}
