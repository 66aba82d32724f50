//! Reading the text of a hash, from left to right. The salt and the hash have any length.

ghost use Rattle.std.specs.Prelude.{◌≡◌, ◌∷◌, ◌++◌, ◌+◌, ◌*◌, ◌<◌, ◌≤◌, ◌^◌, ℕ, ℤ, List, Option, None, Some, IfOk, false, true, codes, length, IfSome, IsSomeAnd};
ghost use Rattle.std.specs.Result.{result_err};
ghost use Rattle.std.specs.List.{list_all};
ghost use Rattle.std.specs.Fmt.{decimal};
ghost use Rattle.base64.specs.Decode.{IsWrittenOver, decoded_estimate};
ghost use Rattle.argon2_base.specs.Texts.{IsBytes, is_value_char, strict_base64};
ghost use Rattle.argon2.specs.Settings.{algorithm_number};
ghost use Rattle.argon2_c.specs.Texts.{IsShown, Said, IsSaid, Says, costs_part, in_base64, plain_spelling, said_of, spelling, version_part};
ghost use Rattle.argon2_c.specs.Decoding.{call_refusal, shown_request, IsDecoded};

use crate::code::{DECODING_FAIL, INCORRECT_TYPE, MEMORY_ALLOCATION_ERROR, OK, PWD_TOO_LONG};
use crate::number::variant;
use crate::request::{Request, argon2_c_refusal};
use argon2::{Algorithm, MAX_PWD_LEN};
use argon2_base::phc::read_decimal;
use base64::engine::general_purpose::STANDARD_NO_PAD;

/// What a text says, except for the bytes of its salt and of its hash.
#[repr(C)]
#[derive(Clone, Copy)]
pub struct Shown {
    /// The version, 16 if the text has none.
    pub version: u32,
    /// The memory cost.
    pub m_cost: u32,
    /// The number of passes.
    pub t_cost: u32,
    /// The number of lanes.
    pub lanes: u32,
    /// The length of the salt.
    pub salt: usize,
    /// The length of the hash.
    pub tag: usize,
}

// The most bytes of a text. The reference library refuses a longer text.
const MAX_TEXT_LEN: usize = 4294967295;

/// Reads the text of a hash, to verify a password of `pwd` bytes, and returns 0. `lacks_pwd` says that the password's
/// pointer is null and its length is not 0.
///
/// If neither the call nor the text is refused, `shown` then holds what the text says, `room` begins with the salt and then
/// the hash, and the rest of `room` is as before. After the answer 0 that rest is long enough for another hash.
///
/// # Errors
/// The first of these that holds:
/// - the code of the call's first fault.
/// - -32: the text is not in the variant's grammar.
/// - the code of the first fault of the request that the text stands for.
#[unsafe(no_mangle)]
pub extern "C" fn argon2_c_decode(
    algorithm: u32,
    has_text: bool,
    text: &[u8],
    pwd: usize,
    lacks_pwd: bool,
    shown: &mut Shown,
    room: &mut [u8],
) -> i32
    ensures decoded { IsDecoded algorithm has_text text.now pwd lacks_pwd room.old result shown.new
        room.new }
    ensures refused { (e : ℤ) → call_refusal algorithm has_text (length text.now) pwd
        (length room.old) ≡ Some e → (shown.new ≡ shown.old) × (room.new ≡ room.old) }
    ensures unsaid { call_refusal algorithm has_text (length text.now) pwd (length room.old) ≡ None
        → ((v : Said) → Says algorithm text.now v → ⊥)
        → (result ≡ DECODING_FAIL) × (shown.new ≡ shown.old) }
    ensures within { result ≡ OK → shown.new.salt + 2 * shown.new.tag ≤ length room.old }
{
    let variant = match asked_variant(algorithm, has_text, text.len(), pwd, room.len()) {
        Ok(variant) => variant,
        Err(code) => return code,
    };
    let Some(found) = decode(variant, text, room) else {
        return DECODING_FAIL;
    };
    *shown = found;
    let request = shown_request(algorithm, lacks_pwd, &found);
    argon2_c_refusal(&request, found.tag, pwd, found.salt, 0, 0)
}

// The variant that a call asks for, or why the call is refused before the text is read.
fn asked_variant(
    algorithm: u32,
    has_text: bool,
    text: usize,
    pwd: usize,
    room: usize,
) -> Result<Algorithm, i32>
    ensures first { result_err result ≡ call_refusal algorithm has_text text pwd room }
    ensures ok { IfOk result (λ variant. (algorithm_number variant ≡ algorithm) × (2 * text ≤ room)) }
{
    if pwd > MAX_PWD_LEN {
        return Err(PWD_TOO_LONG);
    }
    if !has_text || text > MAX_TEXT_LEN {
        return Err(DECODING_FAIL);
    }
    let Some(variant) = variant(algorithm) else {
        return Err(INCORRECT_TYPE);
    };
    if room < 2 * text {
        return Err(MEMORY_ALLOCATION_ERROR);
    }
    Ok(variant)
}

// The request that a text stands for.
fn shown_request(algorithm: u32, lacks_pwd: bool, shown: &Shown) -> Request
    ensures { (v : Said) → IsShown v shown.now → result ≡ shown_request algorithm lacks_pwd v }
{
    Request {
        algorithm,
        version: shown.version,
        m_cost: shown.m_cost,
        t_cost: shown.t_cost,
        lanes: shown.lanes,
        threads: shown.lanes,
        lacks_output: false,
        lacks_pwd,
        lacks_salt: false,
        lacks_secret: false,
        lacks_associated: false,
        has_allocate: false,
        has_free: false,
    }
}

// Reads a text of this variant, and writes its salt and then its hash to the beginning of `room`. If the text is not in the
// variant's grammar, `room` may hold anything.
fn decode(algorithm: Algorithm, text: &[u8], room: &mut [u8]) -> Option<Shown>
    requires { 2 * length text.now ≤ length room.old }
    ensures found { IfSome result (λ shown. (v : Said) × Says (algorithm_number algorithm) text.now v
        × IsShown v shown × IsWrittenOver (v.salt ++ v.tag) room.old room.new) }
    ensures within { IfSome result (λ shown. shown.salt + shown.tag ≤ length text.now) }
    ensures only { (v : Said) → Says (algorithm_number algorithm) text.now v → IsSomeAnd result (λ shown.
        IsShown v shown × IsWrittenOver (v.salt ++ v.tag) room.old room.new) }
{
    let name = algorithm.as_str();
    let Ok(text) = std::str::from_utf8(text) else {
        return None;
    };
    let (version, (m_cost, t_cost, lanes), salt, tag) = split(name, text)?;
    let salt = bytes(salt, room)?;
    let tag = bytes(tag, &mut room[salt..])?;
    Some(Shown {
        version: version.unwrap_or(16),
        m_cost,
        t_cost,
        lanes,
        salt,
        tag,
    })
}

// Splits a text with this name into its version, its costs, and the Base64 of its salt and of its hash.
#[tactic(auto, using(argon2_base::proofs::phc_lemmas::ValueCharacters::base64_chars))]
fn split<'a>(name: &str, text: &'a str) -> Option<(Option<u32>, (u32, u32, u32), &'a str, &'a str)>
    ensures found { IfSome result (λ p. text.now
        ≡ plain_spelling name.now (said_of p.0 p.1.0 p.1.1 p.1.2 p.2.now p.3.now)) }
    ensures numbers { IfSome result (λ p. IfSome p.0 (λ n. n < 2 ^ 32)
        × (p.1.0 < 2 ^ 32) × (p.1.1 < 2 ^ 32) × (p.1.2 < 2 ^ 32)) }
    ensures short { IfSome result (λ p. length p.2.now + length p.3.now + 10
        ≤ length text.now) }
    ensures only { (v : Said) → IsSaid v → text.now ≡ spelling name.now v → IsSomeAnd result
        (λ p. said_of p.0 p.1.0 p.1.1 p.1.2 p.2.now p.3.now ≡ in_base64 v) }
{
    let text = after_name(name, text)?;
    let (version, text) = version(text)?;
    let (costs, text) = costs(text)?;
    let (salt, tag) = cut(text, '$')?;
    Some((version, costs, salt, tag))
}

// What follows the name.
fn after_name<'a>(name: &str, text: &'a str) -> Option<&'a str>
    ensures found { IfSome result (λ x. text.now ≡ 36 ∷ (name.now ++ 36 ∷ x.now)) }
    ensures only { (left : List ℕ) → text.now ≡ 36 ∷ (name.now ++ 36 ∷ left)
        → IsSomeAnd result (λ x. x.now ≡ left) }
{
    let text = after(text, "$")?;
    let text = after(text, name)?;
    after(text, "$")
}

// What follows a prefix.
fn after<'a>(text: &'a str, prefix: &str) -> Option<&'a str>
    ensures found { IfSome result (λ x. text.now ≡ prefix.now ++ x.now) }
    ensures only { (left : List ℕ) → text.now ≡ prefix.now ++ left → IsSomeAnd result
        (λ x. x.now ≡ left) }
{
    text.strip_prefix(prefix)
}

// The version, if the text has one, and what follows.
fn version(text: &str) -> Option<(Option<u32>, &str)>
    ensures found { IfSome result (λ x. text.now ≡ version_part x.0 x.1.now) }
    ensures only { (o : Option ℕ) (left : List ℕ) → IfSome o (λ n. n < 2 ^ 32)
        → text.now ≡ version_part o (codes "m=" ++ left)
        → IsSomeAnd result (λ x. (x.0 ≡ o) × (x.1.now ≡ codes "m=" ++ left)) }
{
    let Some(left) = after(text, "v=") else {
        return Some((None, text));
    };
    let (number, left) = number(left, '$')?;
    Some((Some(number), left))
}

// The costs, and what follows.
fn costs(text: &str) -> Option<((u32, u32, u32), &str)>
    ensures found { IfSome result (λ x. text.now ≡ costs_part x.0.0 x.0.1 x.0.2 x.1.now) }
    ensures only { (m t p : ℕ) (left : List ℕ) → m < 2 ^ 32 → t < 2 ^ 32 → p < 2 ^ 32
        → text.now ≡ costs_part m t p left
        → IsSomeAnd result (λ x. (x.0 ≡ (m, t, p)) × (x.1.now ≡ left)) }
{
    let (m_cost, text) = field(text, "m=", ',')?;
    let (t_cost, text) = field(text, "t=", ',')?;
    let (lanes, text) = field(text, "p=", '$')?;
    Some(((m_cost, t_cost, lanes), text))
}

// The number between a name and a mark, and what follows.
fn field<'a>(text: &'a str, name: &str, mark: char) -> Option<(u32, &'a str)>
    requires { (mark < 128) × (is_value_char mark ≡ false) }
    ensures found { IfSome result (λ x. text.now ≡ name.now ++ (decimal x.0 ++ mark ∷ x.1.now)) }
    ensures only { (n : ℕ) (left : List ℕ) → n < 2 ^ 32 → text.now ≡ name.now
        ++ (decimal n ++ mark ∷ left)
        → IsSomeAnd result (λ x. (x.0 ≡ n) × (x.1.now ≡ left)) }
{
    number(after(text, name)?, mark)
}

// The number before a mark, and what follows.
#[tactic(auto, using(argon2_base::proofs::phc_lemmas::ValueCharacters::decimal_chars))]
fn number(text: &str, mark: char) -> Option<(u32, &str)>
    requires { (mark < 128) × (is_value_char mark ≡ false) }
    ensures found { IfSome result (λ x. text.now ≡ decimal x.0 ++ mark ∷ x.1.now) }
    ensures only { (n : ℕ) (left : List ℕ) → n < 2 ^ 32 → text.now ≡ decimal n ++ mark ∷ left
        → IsSomeAnd result (λ x. (x.0 ≡ n) × (x.1.now ≡ left)) }
{
    let (digits, left) = cut(text, mark)?;
    Some((read_decimal(digits)?, left))
}

// The text up to the first mark of this kind, and what follows the mark.
fn cut(text: &str, mark: char) -> Option<(&str, &str)>
    requires { (mark < 128) × (is_value_char mark ≡ false) }
    ensures found { IfSome result (λ x. text.now ≡ x.0.now ++ mark ∷ x.1.now) }
    ensures only { (x left : List ℕ) → list_all is_value_char x ≡ true
        → text.now ≡ x ++ mark ∷ left
        → IsSomeAnd result (λ r. (r.0.now ≡ x) × (r.1.now ≡ left)) }
{
    text.split_once(mark)
}

// Decodes strict Base64 into the beginning of `out`, and returns the number of bytes.
fn bytes(text: &str, out: &mut [u8]) -> Option<usize>
    requires { decoded_estimate (length text.now) ≤ length out.old }
    ensures found { IfSome result (λ n. (b : List ℕ) × IsBytes b × (text.now ≡ strict_base64 b)
        × (n ≡ length b) × IsWrittenOver b out.old out.new) }
    ensures within { IfSome result (λ n. n ≤ length text.now) }
    ensures only { (b : List ℕ) → IsBytes b → text.now ≡ strict_base64 b
        → IsSomeAnd result (λ n. (n ≡ length b) × IsWrittenOver b out.old out.new) }
{
    match STANDARD_NO_PAD.decode_slice_unchecked(text.as_bytes(), out) {
        Ok(n) => Some(n),
        Err(_) => None,
    }
}
