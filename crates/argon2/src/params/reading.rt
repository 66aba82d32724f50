//! Reading parameters from a parameter list, from a list's text, or from a PHC text.

ghost use Rattle.std.specs.Prelude.{◌≡◌, None, Some, ok_or};
ghost use Rattle.std.specs.Option.{option_map};
ghost use Rattle.argon2_base.specs.Texts.{number_of};
ghost use Rattle.argon2_base.specs.Error.{bad_param, outcome_of};
ghost use Rattle.argon2_base.specs.PhcFields.{phc_of};
ghost use Rattle.argon2.specs.Argon2.{own_bytes, parameters_of};
ghost use Rattle.argon2.specs.ListedParameters.{IsTextAnswer, asked_of, found_of, item_taken, items_read, params_of, short_bytes};

use super::short_bytes::ShortBytes;
use super::{AssociatedData, KeyId, Params, ParamsBuilder};
use argon2_base::error::password_hash::{Error, Result};
use argon2_base::phc::{ParamsString, PasswordHash, Value};
use std::str::FromStr;

// Reads the decimal number of a value; `name` is the name in the error.
fn take_number(found: &mut Option<u32>, name: &'static str, value: &Value<'_>) -> Result<()>
    ensures { outcome_of (λ _. found.new) result
        ≡ ok_or (option_map Some (number_of value.now)) (bad_param name.now) }
{
    let Ok(n) = value.decimal() else {
        return Err(Error::ParamInvalid { name });
    };
    *found = Some(n);
    Ok(())
}

// Reads the bytes whose Base64 a text is; `name` is the name in the error.
fn take_bytes<const MAX_LEN: usize>(
    found: &mut Option<ShortBytes<MAX_LEN>>,
    name: &'static str,
    text: &str,
) -> Result<()>
    ensures { outcome_of (λ _. option_map own_bytes found.new) result
        ≡ ok_or (option_map Some (short_bytes MAX_LEN text.now)) (bad_param name.now) }
{
    let Ok(bytes) = ShortBytes::from_b64(text) else {
        return Err(Error::ParamInvalid { name });
    };
    *found = Some(bytes);
    Ok(())
}

// The values of a list under each name, if there are any.
#[derive(Clone, Copy)]
struct Found {
    m: Option<u32>,
    t: Option<u32>,
    p: Option<u32>,
    keyid: Option<KeyId>,
    associated: Option<AssociatedData>,
}

impl Found {
    // The values of a list.
    fn of(list: &ParamsString) -> Result<Found>
        ensures { outcome_of found_of result ≡ items_read list.now }
    {
        let mut found = Found {
            m: None,
            t: None,
            p: None,
            keyid: None,
            associated: None,
        };
        for (name, value) in list.iter() {
            found.take(name.as_str(), &value)?;
        }
        Ok(found)
    }

    // Reads one more item.
    fn take(&mut self, name: &str, value: &Value<'_>) -> Result<()>
        ensures { outcome_of (λ _. found_of self.new) result
            ≡ item_taken (name.now, value.now) (found_of self.old) }
    {
        match name {
            "m" => take_number(&mut self.m, "m", value),
            "t" => take_number(&mut self.t, "t", value),
            "p" => take_number(&mut self.p, "p", value),
            "keyid" => take_bytes(&mut self.keyid, "keyid", value.as_str()),
            "data" => take_bytes(&mut self.associated, "data", value.as_str()),
            _ => Err(Error::ParamsInvalid),
        }
    }
}

impl Params {
    // The parameters of a list, with this output length.
    fn read(list: &ParamsString, output_len: Option<usize>) -> Result<Params>
        ensures { outcome_of parameters_of result ≡ params_of output_len list.now }
    {
        let found = Found::of(list)?;
        let (Some(m), Some(t), Some(p)) = (found.m, found.t, found.p) else {
            return Err(Error::ParamsInvalid);
        };
        let builder = ParamsBuilder {
            m_cost: m,
            t_cost: t,
            p_cost: p,
            keyid: found.keyid,
            associated: found.associated,
            output_len,
        };
        Ok(builder.build()?)
    }
}

/// The parameters that a list stands for, with any length of output. The items are gone through in
/// the order of the text: a value of `m`, `t` or `p` that is no decimal up to 4294967295, and one of
/// `keyid` or `data` that is refused as Base64, is `ParamInvalid` with that name; any other name is
/// `ParamsInvalid`. Then `ParamsInvalid` if `m`, `t` or `p` is missing, and then the fault of
/// [`Params::new`].
impl TryFrom<&ParamsString> for Params {
    type Error = Error;

    ghost try_from_gives = { λ list r. outcome_of parameters_of r ≡ params_of None list.now };

    fn try_from(list: &ParamsString) -> Result<Params> {
        Params::read(list, None)
    }
}

/// The parameters of a PHC text, read as from its list. Their output length is the length of the
/// hash, if the text has one.
impl TryFrom<&PasswordHash> for Params {
    type Error = Error;

    ghost try_from_gives = { λ hash r. outcome_of parameters_of r ≡ asked_of (phc_of hash.now) };

    fn try_from(hash: &PasswordHash) -> Result<Params> {
        let output_len = hash.hash.as_ref().map(|bytes| bytes.len());
        Params::read(&hash.params, output_len)
    }
}

/// The parameters of a list's text, read as from the list, or `ParamsInvalid` if the text is
/// outside the grammar of lists.
impl FromStr for Params {
    type Err = Error;

    ghost from_str_gives = { IsTextAnswer };

    fn from_str(text: &str) -> Result<Params> {
        let list = text.parse::<ParamsString>()?;
        Params::read(&list, None)
    }
}
