//! The options under which the program makes and verifies texts.

use argon2::Params;
use argon2::bound::Bound;

/// The options under which texts are made and verified.
#[derive(Clone, Copy)]
pub struct Options<'a> {
    /// The parameters of new texts, which are of Argon2id and version 0x13.
    pub params: Params,
    /// The most that a stored text may ask for, if it is given.
    pub bound: Option<Bound>,
    /// The file with the secret, if it is given.
    pub secret_file: Option<&'a str>,
    /// The file with the secret that was in use before, if it is given: a text that the other refuses is tried
    /// under it.
    pub old_secret_file: Option<&'a str>,
    /// Whether the message of a refused login says whether the name or the password is wrong.
    pub explain: bool,
}

impl Options<'_> {
    ghost use Rattle.std.specs.Prelude.{◌≡◌};
    ghost use Rattle.argon2_passwd.specs.Options.{bound_or_default};

    /// The library's parameters, the bound that goes with them, and no secret.
    pub const DEFAULT: Options<'static> = Options {
        params: Params::DEFAULT,
        bound: None,
        secret_file: None,
        old_secret_file: None,
        explain: false,
    };

    /// The most that a stored text may ask for: the bound that was given, or 2 GiB, 64 passes and 64
    /// lanes, each no less than the parameter.
    pub fn bound(&self) -> Bound
        ensures { result ≡ bound_or_default self.now }
    {
        self.bound.unwrap_or(Bound {
            m_cost: self.params.m_cost().max(2_097_152),
            t_cost: self.params.t_cost().max(64),
            p_cost: self.params.p_cost().max(64),
        })
    }
}
