//! The commands that the arguments of the program spell.

ghost use Rattle.std.specs.Prelude.{◌≡◌, ℕ, ◌≤◌, IfSome, IsSome};
ghost use Rattle.std.specs.Fmt.{decimal};

use argon2::phc::read_decimal;
use argon2::{Algorithm, Argon2, Params, Version};

/// The name of an algorithm, the number of a version, and costs. None of them is checked yet.
#[derive(Clone, Copy)]
pub struct Request<'a> {
    pub algorithm: &'a str,
    pub version: u32,
    pub m_cost: u32,
    pub t_cost: u32,
    pub p_cost: u32,
}

impl<'a> Request<'a> {
    ghost use Rattle.std.specs.Prelude.{◌≡◌, ◌++◌, List, ℕ, IfSome, IsSome, map, string_bytes};
    ghost use Rattle.argon2_tool.specs.Commands.{IsRequest, IsAsked, request_words};

    // The request that the first five words spell, if they spell one, and the words after them.
    fn split(words: &'a [String]) -> Option<(Request<'a>, &'a [String])>
        ensures found { IfSome result (λ it. IsRequest it.0
            × (map string_bytes words.now ≡ request_words it.0 ++ map string_bytes it.1.now)) }
        ensures only { (r : Request) (rest : List (List ℕ)) → IsRequest r
            → map string_bytes words.now ≡ request_words r ++ rest → IsSome result }
    {
        let [algorithm, version, m_cost, t_cost, p_cost, rest @ ..] = words else {
            return None;
        };
        let request = Request {
            algorithm: algorithm.as_str(),
            version: read_decimal(version.as_str())?,
            m_cost: read_decimal(m_cost.as_str())?,
            t_cost: read_decimal(t_cost.as_str())?,
            p_cost: read_decimal(p_cost.as_str())?,
        };
        Some((request, rest))
    }

    /// Hashing under the request, with no secret, no associated data and any length of output.
    ///
    /// # Errors
    /// The error of the first that is refused: the algorithm, the version or the costs.
    pub fn argon2(&self) -> argon2::Result<Argon2<'static>>
        ensures { IsAsked self.now result }
    {
        let algorithm = Algorithm::new(self.algorithm)?;
        let version = Version::try_from(self.version)?;
        let params = Params::new(self.m_cost, self.t_cost, self.p_cost, None)?;
        Ok(Argon2::new(algorithm, version, params))
    }
}

/// What the program is asked for.
#[derive(Clone, Copy)]
pub enum Command<'a> {
    /// `digest N`: the BLAKE2b digest of N bytes, 1 to 64.
    Digest(u32),
    /// `long N`: the variable-length hash of N bytes, at most 1024.
    Long(u32),
    /// `tag ALG VER M T P LEN SALT`: the tag of LEN bytes, at most 1024, of a password.
    Tag(Request<'a>, u32, &'a str),
    /// `phc ALG VER M T P SALT`: the PHC text of a password.
    Phc(Request<'a>, &'a str),
    /// `verify TEXT`: whether a PHC text accepts a password.
    Verify(&'a str),
    /// `--help`: what the program does.
    Help,
    /// `--version`: the program's version.
    Version,
}

impl<'a> Command<'a> {
    ghost use Rattle.std.specs.Prelude.{◌∷◌, codes, map, string_bytes};
    ghost use Rattle.argon2_tool.specs.Commands.{IsSpelled};

    /// The command that the arguments spell, if they spell one.
    pub fn parse(args: &'a [String]) -> Option<Command<'a>>
        ensures { IsSpelled (map string_bytes args.now) result }
    {
        let (name, values) = args.split_first()?;
        match (name.as_str(), values) {
            ("digest", [len]) => Some(Command::Digest(number_within(len.as_str(), 1, 64)?)),
            ("long", [len]) => Some(Command::Long(number_within(len.as_str(), 0, 1024)?)),
            ("tag", _) => Command::tag(values),
            ("phc", _) => Command::phc(values),
            ("verify", [text]) => Some(Command::Verify(text.as_str())),
            ("--help", []) => Some(Command::Help),
            ("--version", []) => Some(Command::Version),
            _ => None,
        }
    }

    // The command `tag` with these values, if they spell it.
    fn tag(values: &'a [String]) -> Option<Command<'a>>
        ensures { IsSpelled (codes "tag" ∷ map string_bytes values.now) result }
    {
        let (request, [len, salt]) = Request::split(values)? else {
            return None;
        };
        let len = number_within(len.as_str(), 0, 1024)?;
        Some(Command::Tag(request, len, salt.as_str()))
    }

    // The command `phc` with these values, if they spell it.
    fn phc(values: &'a [String]) -> Option<Command<'a>>
        ensures { IsSpelled (codes "phc" ∷ map string_bytes values.now) result }
    {
        let (request, [salt]) = Request::split(values)? else {
            return None;
        };
        Some(Command::Phc(request, salt.as_str()))
    }
}

// The number that a decimal spells, if it is within these bounds.
fn number_within(text: &str, least: u32, most: u32) -> Option<u32>
    ensures found { IfSome result (λ n. (least ≤ n) × (n ≤ most) × (text.now ≡ decimal n)) }
    ensures only { (n : ℕ) → least ≤ n → n ≤ most → text.now ≡ decimal n → IsSome result }
{
    read_decimal(text).filter(|n| least <= *n && *n <= most)
}
