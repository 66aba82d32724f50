//! Values of parameters, and the decimals among them.

ghost use Rattle.std.specs.Prelude.{◌≡◌, ◌<◌, ◌+◌, ◌^◌, ◌++◌, ◌∷◌, [], ℕ, List, Some, Ok, IfSome, IfOk, IfErr, length};
ghost use Rattle.std.specs.Fmt.{decimal};
ghost use Rattle.std.specs.List.{list_all};
ghost use Rattle.argon2_base.specs.Texts.{is_value, is_value_char};
ghost use Rattle.argon2_base.specs.declared.error.password_hash.Error.TheVariants.{ParamsInvalid};

use crate::error::password_hash::{Error, Result};
use arrayvec::ArrayString;
use std::marker::Model;

/// The value of a parameter.
#[derive(Debug, Drop)]
pub struct Value<'a> {
    pub(super) text: &'a str,
}

impl<'a> Model for Value<'a> {
    ghost Value = { List ℕ };

    ghost view = { λ s. s.text.now };
}

impl<'a> Value<'a> {
    /// Its text.
    pub fn as_str(&self) -> &'a str
        ensures { result.now ≡ self.now }
    {
        self.text
    }

    /// The number up to 4294967295 whose decimal it is, or `ParamsInvalid` if it is no such
    /// decimal.
    pub fn decimal(&self) -> Result<u32>
        ensures found { IfOk result (λ n. self.now ≡ decimal n) }
        ensures only { (n : ℕ) → n < 2 ^ 32 → self.now ≡ decimal n → result ≡ Ok n }
        ensures invalid { IfErr result (λ e. e ≡ ParamsInvalid) }
    {
        read_decimal(self.text).ok_or(Error::ParamsInvalid)
    }
}

// The decimal of a number.
#[tactic(auto, using(crate::proofs::phc_lemmas::DecimalLemmas::decimal_steps))]
pub(super) fn decimal_text(n: u32) -> ArrayString<10>
    ensures { result.bytes ≡ decimal n }
{
    if n < 10 {
        return with_digit(ArrayString::new(), n);
    }
    with_digit(decimal_text(n / 10), n % 10)
}

// The text with one more digit.
fn with_digit(mut text: ArrayString<10>, digit: u32) -> ArrayString<10>
    requires room { length text.bytes < 10 }
    requires small { digit < 10 }
    ensures { result.bytes ≡ text.bytes ++ (48 + digit) ∷ [] }
{
    text.push((b'0' + digit as u8) as char);
    text
}

/// The number up to 4294967295 whose decimal a text is, if it is one: no sign, and no zero before
/// other digits.
pub fn read_decimal(text: &str) -> Option<u32>
    ensures found { IfSome result (λ n. text.now ≡ decimal n) }
    ensures only { (n : ℕ) → n < 2 ^ 32 → text.now ≡ decimal n → result ≡ Some n }
{
    let Ok(number) = text.parse::<u32>() else {
        return None;
    };
    if decimal_text(number).as_str() != text {
        return None;
    }
    Some(number)
}

fn is_value_byte(c: u8) -> bool
    ensures { result ≡ is_value_char c }
{
    c.is_ascii_alphanumeric() || c == b'/' || c == b'+' || c == b'.' || c == b'-'
}

fn are_value_bytes(text: &str) -> bool
    ensures { result ≡ list_all is_value_char text.now }
{
    text.bytes().all(|c| is_value_byte(c))
}

// Whether a text is a value.
pub(super) fn is_value_text(text: &str) -> bool
    ensures { result ≡ is_value text.now }
{
    1 <= text.len() && text.len() <= 64 && are_value_bytes(text)
}
