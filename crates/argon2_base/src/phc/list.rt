//! Parameter lists.
#![tactic(auto, using(crate::proofs::phc_lemmas::ListSteps::list_steps))]

ghost use Rattle.std.specs.Prelude.{◌≡◌, ◌↔◌, ◌<◌, ◌≤◌, ◌++◌, ◌∷◌, ◌&&◌, [], ℕ, List, false, Some, Ok, is_ok, map, IfOk, IfErr, IfSome, OnOk, OnErr, MatchResult, IsTrue, ⊤, length, nat_le};
ghost use Rattle.std.specs.Fmt.{decimal};
ghost use Rattle.std.specs.List.{list_all};
ghost use Rattle.std.specs.Cmp.{partial_equiv_from_equiv};
ghost use Rattle.std.specs.Iterator.{YieldsFirstBy, item_count};
ghost use Rattle.argon2_base.specs.Texts.{strict_base64};
ghost use Rattle.argon2_base.specs.PhcText.{Pair, ident_text, item, params_text, value_of, is_param, are_params, IsParamsText, IsCut, pair_of, pairs_of, items_of, items_left, pairs_left, are_distinct, with_item, pairs_eq, pairs_eq_equiv};
ghost use Rattle.argon2_base.specs.declared.error.password_hash.Error.TheVariants.{ParamsInvalid};

use super::bytes::base64_text;
use super::ident::{Ident, is_name_text};
use super::value::{Value, decimal_text, is_value_text};
use crate::error::password_hash::{Error, Result};
use arrayvec::ArrayString;
use std::alloc::AllocError;
use std::fmt;
use std::marker::Model;
use std::str::FromStr;

// The most bytes whose Base64 a value holds.
const MAX_VALUE_BYTES: usize = 48;

/// Parameters with distinct names, in the order of their text, which has at most 127 bytes.
#[derive(Drop)]
pub struct ParamsString {
    text: ArrayString<127>,
}

impl Model for ParamsString {
    ghost Value = { List (List ℕ × List ℕ) };

    ghost view = { λ s. pairs_of s.text.bytes };

    ghost invariant = { λ s. IsTrue (are_params (pairs_of s.text.bytes))
        × (s.text.bytes ≡ params_text (pairs_of s.text.bytes)) };
}

impl ParamsString {
    /// The empty list.
    pub fn new() -> ParamsString
        ensures { result ≡ [] }
    {
        ParamsString {
            text: ArrayString::new(),
        }
    }

    /// Its text.
    pub fn as_str(&self) -> &str
        ensures value { result.now ≡ params_text self.now }
        ensures params { IsTrue (are_params self.now) }
        ensures fits { length (params_text self.now) ≤ 127 }
    {
        self.text.as_str()
    }

    /// Whether there is no parameter.
    pub fn is_empty(&self) -> bool
        ensures { IsTrue result ↔ (self.now ≡ []) }
    {
        self.text.is_empty()
    }

    /// The names and values, in the order of the text.
    pub fn iter(&self) -> Iter<'_>
        ensures value { result ≡ self.now }
        ensures params { IsTrue (are_params self.now) }
    {
        Iter {
            rest: items_in(self.text.as_str()),
        }
    }

    /// The value of the parameter with this name.
    pub fn get(&self, name: &str) -> Option<Value<'_>>
        ensures { result ≡ value_of name.now self.now }
    {
        value_in(items_in(self.text.as_str()), name)
    }

    // Appends a parameter, if the longer list is in the grammar.
    fn add(&mut self, name: &str, value: &str) -> Result<()>
        ensures when { is_ok result ≡ are_params (self.old ++ (name.now, value.now) ∷ []) }
        ensures ok { OnOk result (self.new ≡ self.old ++ (name.now, value.now) ∷ []) }
        ensures err { OnErr result (self.new ≡ self.old) }
        ensures invalid { IfErr result (λ e. e ≡ ParamsInvalid) }
    {
        if !is_param_text(name, value) || self.get(name).is_some() {
            return Err(Error::ParamsInvalid);
        }
        if !push_item(&mut self.text, name, value) {
            return Err(Error::ParamsInvalid);
        }
        Ok(())
    }

    /// Appends a parameter whose value is the decimal of a number. `ParamsInvalid` if the longer
    /// list would be outside the grammar: the list is then as before.
    pub fn add_decimal(&mut self, name: &str, value: u32) -> Result<()>
        ensures when { is_ok result ≡ are_params (self.old ++ (name.now, decimal value) ∷ []) }
        ensures ok { OnOk result (self.new ≡ self.old ++ (name.now, decimal value) ∷ []) }
        ensures err { OnErr result (self.new ≡ self.old) }
        ensures invalid { IfErr result (λ e. e ≡ ParamsInvalid) }
    {
        self.add(name, decimal_text(value).as_str())
    }

    /// Appends a parameter whose value is the strict Base64 of bytes. `ParamsInvalid` if the
    /// longer list would be outside the grammar: the list is then as before.
    pub fn add_b64_bytes(&mut self, name: &str, bytes: &[u8]) -> Result<()>
        ensures when { is_ok result
            ≡ are_params (self.old ++ (name.now, strict_base64 bytes.now) ∷ []) }
        ensures ok { OnOk result (self.new ≡ self.old ++ (name.now, strict_base64 bytes.now) ∷ []) }
        ensures err { OnErr result (self.new ≡ self.old) }
        ensures invalid { IfErr result (λ e. e ≡ ParamsInvalid) }
    {
        if bytes.len() > MAX_VALUE_BYTES {
            return Err(Error::ParamsInvalid);
        }
        self.add(name, base64_text::<64>(bytes).as_str())
    }

    // The list whose text this is.
    pub(super) fn read(text: &str) -> Result<ParamsString>
        ensures found { IfOk result (λ ps. IsParamsText text.now ps) }
        ensures only { (ps : List Pair) → IsParamsText text.now ps → result ≡ Ok ps }
        ensures invalid { IfErr result (λ e. e ≡ ParamsInvalid) }
    {
        let Ok(copy) = ArrayString::from(text) else {
            return Err(Error::ParamsInvalid);
        };
        if !are_params_in(items_in(text)) {
            return Err(Error::ParamsInvalid);
        }
        Ok(ParamsString { text: copy })
    }
}

/// A copy, which allocates nothing and never fails.
impl Clone for ParamsString {
    ghost is_clone = { λ ps copy. copy ≡ ps };

    ghost is_infallible = { λ _. ⊤ };

    fn clone(&self) -> std::result::Result<ParamsString, AllocError> {
        Ok(ParamsString { text: self.text })
    }
}

/// The list whose text this is, or `ParamsInvalid` if it is the text of no list. The empty text is the
/// text of the empty list.
impl FromStr for ParamsString {
    type Err = Error;

    ghost from_str_gives = { λ text r.
        MatchResult r (λ ps. IsParamsText text ps) (λ e. e ≡ ParamsInvalid)
        × ((ps : List Pair) → IsParamsText text ps → r ≡ Ok ps) };

    fn from_str(text: &str) -> Result<ParamsString> {
        ParamsString::read(text)
    }
}

impl fmt::Display for ParamsString {
    ghost output = { λ ps. Some (params_text ps) };

    fn fmt<W: fmt::Write>(&self, f: &mut fmt::Formatter<W>) -> fmt::Result {
        f.pad(self.as_str())
    }
}

impl fmt::Debug for ParamsString {
    fn fmt<W: fmt::Write>(&self, f: &mut fmt::Formatter<W>) -> fmt::Result {
        fmt::Debug::fmt(&self.as_str(), f)
    }
}

impl PartialEq for ParamsString {
    ghost eq = { pairs_eq };

    ghost laws = { partial_equiv_from_equiv pairs_eq_equiv };

    fn eq(&self, other: &Self) -> bool {
        self.as_str() == other.as_str()
    }
}

impl Eq for ParamsString {
    ghost laws = { pairs_eq_equiv };
}

/// The names and values of a list, in the order of its text.
#[derive(Debug, Drop)]
pub struct Iter<'a> {
    rest: Option<&'a str>,
}

impl<'a> Model for Iter<'a> {
    ghost Value = { List (List ℕ × List ℕ) };

    ghost view = { λ s. map pair_of (items_left s.rest) };

    ghost invariant = { λ s. IsTrue (list_all is_param (map pair_of (items_left s.rest)))
        × (items_left s.rest ≡ map item (map pair_of (items_left s.rest))) };
}

impl<'a> Iterator for Iter<'a> {
    type Item = (Ident, Value<'a>);

    ghost next_gives = { YieldsFirstBy (λ p. (ident_text p.0, p.1)) (λ s. s) };

    ghost remaining = { item_count (λ s. s) };

    fn next(&mut self) -> Option<(Ident, Value<'a>)> {
        let (item, rest) = first_item(self.rest?);
        let (name, value) = split_item(item);
        let Ok(name) = Ident::new(name) else {
            unreachable!();
        };
        self.rest = rest;
        Some((name, Value { text: value }))
    }
}

fn is_param_text(name: &str, value: &str) -> bool
    ensures { result ≡ is_param (name.now, value.now) }
{
    is_name_text(name) && name != "v" && is_value_text(value)
}

// Appends an item, if it fits.
fn push_item(text: &mut ArrayString<127>, name: &str, value: &str) -> bool
    requires name_fits { length name.now ≤ 32 }
    requires value_fits { length value.now ≤ 64 }
    ensures when { result ≡ nat_le (length (with_item text.old.bytes (name.now, value.now))) 127 }
    ensures yes { IsTrue result → text.new.bytes ≡ with_item text.old.bytes (name.now, value.now) }
    ensures no { result ≡ false → text.new ≡ text.old }
{
    let comma = if text.is_empty() { "" } else { "," };
    if text.remaining_capacity() < comma.len() + name.len() + 1 + value.len() {
        return false;
    }
    text.push_str(comma);
    text.push_str(name);
    text.push_str("=");
    text.push_str(value);
    true
}

// The items of a text, which are none if it is empty.
fn items_in(text: &str) -> Option<&str>
    ensures { pairs_left result ≡ pairs_of text.now }
{
    if text.is_empty() { None } else { Some(text) }
}

// The value of a name among items.
fn value_in<'a>(mut left: Option<&'a str>, name: &str) -> Option<Value<'a>>
    ensures { result ≡ value_of name.now (pairs_left left.entry) }
{
    'items: while let Some(text) = left {
        let (item, more) = first_item(text);
        let (key, value) = split_item(item);
        if key == name {
            return Some(Value { text: value });
        }
        left = more;
    }
    None
}

// Whether items are parameters with distinct names.
fn are_params_in(mut left: Option<&str>) -> bool
    ensures { result
        ≡ (list_all is_param (pairs_left left.entry) && are_distinct (pairs_left left.entry)) }
{
    'items: while let Some(text) = left {
        let (item, more) = first_item(text);
        let (name, value) = split_item(item);
        if !is_param_text(name, value) || value_in(more, name).is_some() {
            return false;
        }
        left = more;
    }
    true
}

// What is before and after the first such byte. Items are short, so this takes less time than the
// search of `split_once`.
pub(super) fn cut(text: &str, at: u8) -> Option<(&str, &str)>
    requires { at < 128 }
    ensures { IsCut at text.now result }
{
    let bytes = text.as_bytes();
    for i in 0..bytes.len() {
        if bytes[i] == at {
            return Some((&text[..i], &text[i + 1..]));
        }
    }
    None
}

// The text up to the first `,`, and what follows that.
fn first_item(text: &str) -> (&str, Option<&str>)
    ensures items { items_of text.now ≡ result.0.now ∷ items_left result.1 }
    ensures shorter { IfSome result.1 (λ rest. length rest.now < length text.now) }
{
    match cut(text, b',') {
        Some((item, rest)) => (item, Some(rest)),
        None => (text, None),
    }
}

// The name and the value of an item: what has no `=` is a name without a value.
fn split_item(text: &str) -> (&str, &str)
    ensures { pair_of text.now ≡ (result.0.now, result.1.now) }
{
    match cut(text, b'=') {
        Some(parts) => parts,
        None => (text, ""),
    }
}
