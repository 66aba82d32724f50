//! Printing parameters as a parameter list.

ghost use Rattle.std.specs.Prelude.{◌≡◌, ◌≤◌, ◌++◌, IsTrue, Some, length};
ghost use Rattle.argon2_base.specs.PhcText.{are_params, params_text};
ghost use Rattle.argon2.specs.Argon2.{parameters_of};
ghost use Rattle.argon2.specs.ListedParameters.{AreReadAgain, IsListOf, bytes_item, list_of, parameter_items};

use super::Params;
use argon2_base::error::password_hash::{Error, Result};
use argon2_base::phc::ParamsString;
use std::fmt;

// The list of costs, a key identifier and associated data.
fn params_string(m: u32, t: u32, p: u32, keyid: &[u8], associated: &[u8]) -> ParamsString
    requires keyid_fits { length keyid.now ≤ 8 }
    requires associated_fits { length associated.now ≤ 32 }
    ensures list { result ≡ parameter_items m t p keyid.now associated.now }
    ensures again { AreReadAgain m t p keyid.now associated.now }
{
    let mut list = ParamsString::new();
    let Ok(()) = list.add_decimal("m", m) else {
        unreachable!();
    };
    let Ok(()) = list.add_decimal("t", t) else {
        unreachable!();
    };
    let Ok(()) = list.add_decimal("p", p) else {
        unreachable!();
    };
    add_bytes(&mut list, "keyid", keyid);
    add_bytes(&mut list, "data", associated);
    list
}

// Appends bytes, if there are any.
fn add_bytes(list: &mut ParamsString, name: &str, bytes: &[u8])
    requires { IsTrue (are_params (list.old ++ bytes_item name.now bytes.now)) }
    ensures { list.new ≡ list.old ++ bytes_item name.now bytes.now }
{
    if bytes.is_empty() {
        return;
    }
    let Ok(()) = list.add_b64_bytes(name, bytes) else {
        unreachable!();
    };
}

/// The list of the parameters, always Ok. Read again, it is the same parameters with any length of
/// output.
impl TryFrom<&Params> for ParamsString {
    type Error = Error;

    ghost try_from_gives = { λ params r. IsListOf (parameters_of params.now) r };

    fn try_from(params: &Params) -> Result<ParamsString> {
        let (m, t, p) = (params.m_cost(), params.t_cost(), params.p_cost());
        Ok(params_string(m, t, p, params.keyid(), params.data()))
    }
}

/// Lists parameters that are given by value, as by reference.
impl TryFrom<Params> for ParamsString {
    type Error = Error;

    ghost try_from_gives = { λ params r. IsListOf (parameters_of params) r };

    fn try_from(params: Params) -> Result<ParamsString> {
        ParamsString::try_from(&params)
    }
}

/// `m=`, `t=` and `p=` with decimals, then `keyid=` and `data=` with Base64 if they are not empty,
/// joined by `,`.
impl fmt::Display for Params {
    ghost output = { λ params. Some (params_text (list_of (parameters_of params))) };

    fn fmt<W: fmt::Write>(&self, f: &mut fmt::Formatter<W>) -> fmt::Result {
        let (m, t, p) = (self.m_cost(), self.t_cost(), self.p_cost());
        let list = params_string(m, t, p, self.keyid(), self.data());
        f.pad(list.as_str())
    }
}
