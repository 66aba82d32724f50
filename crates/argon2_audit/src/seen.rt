//! The kinds, the schemes and the salts of the texts so far.

ghost use Rattle.std.specs.Prelude.{◌≡◌, ◌≤◌, ◌||◌, ℕ, List, IfOk, OnOk, length, not};
ghost use Rattle.std.specs.Str.{bytes_eq};
ghost use Rattle.argon2_audit.specs.Audit.{has_key};

use crate::claim::Claim;
use crate::finding::Finding;
use crate::kind::Kind;
use argon2::phc::Salt;
use argon2_schemes::Scheme;
use arrayvec::ArrayVec;
use std::alloc::{AllocError, Global};
use std::collections::{BTreeMap, BTreeSet};

/// The number of texts of each kind and of each other scheme, and the salts of the texts. Its memory grows by one salt for
/// each text.
#[derive(Drop)]
pub struct Seen {
    /// The number of texts of each kind.
    pub kinds: BTreeMap<Kind, u64>,
    /// The number of texts of each other scheme.
    pub schemes: BTreeMap<Scheme, u64>,
    // Salts of up to 24 bytes, as most are, and longer ones.
    short: BTreeSet<ArrayVec<u8, 24>>,
    long: BTreeSet<ArrayVec<u8, 48>>,
}

impl Seen {
    ghost use Rattle.std.specs.Prelude.{◌≡◌, ◌||◌, ℕ, List, false, IfOk, OnOk, not};
    ghost use Rattle.std.specs.Str.{bytes_eq};
    ghost use Rattle.argon2_audit.specs.Audit.{has_salt, is_salt};
    ghost use Rattle.argon2_audit.specs.Finding.{salt_of, some_passes};

    /// No texts.
    pub fn new(alloc: Global) -> Seen
        ensures { (salt : List ℕ) → has_salt result salt ≡ false }
    {
        Seen {
            kinds: BTreeMap::new(alloc),
            schemes: BTreeMap::new(alloc),
            short: BTreeSet::new(alloc),
            long: BTreeSet::new(alloc),
        }
    }

    /// Counts the text of a line, if the line has one, and returns whether an earlier text has its salt.
    ///
    /// # Errors
    /// Memory is refused. The salt may then be kept, and the text is not counted.
    pub fn add(&mut self, finding: &Finding) -> Result<bool, AllocError>
        ensures equal { IfOk result
            (λ equal. equal ≡ some_passes (has_salt self.old) (salt_of finding.now)) }
        ensures kept { OnOk result ((salt : List ℕ)
            → has_salt self.new salt
            ≡ (is_salt (salt_of finding.now) salt || has_salt self.old salt)) }
    {
        match finding {
            Finding::Shown(entry) => {
                let is_equal = match &entry.salt {
                    Some(salt) => !self.keep(salt)?,
                    None => false,
                };
                let count = self.kinds.entry(Kind::of(&entry.settings))?.or_insert(0);
                *count = count.saturating_add(1);
                Ok(is_equal)
            }
            Finding::Claimed(Claim::Other(scheme)) => {
                let count = self.schemes.entry(*scheme)?.or_insert(0);
                *count = count.saturating_add(1);
                Ok(false)
            }
            _ => Ok(false),
        }
    }

    // Keeps a salt, and returns whether it is new.
    fn keep(&mut self, salt: &Salt) -> Result<bool, AllocError>
        ensures new { IfOk result (λ new. new ≡ not (has_salt self.old salt.now)) }
        ensures kept { OnOk result ((other : List ℕ)
            → has_salt self.new other ≡ (bytes_eq salt.now other || has_salt self.old other)) }
    {
        if salt.len() <= 24 {
            insert(&mut self.short, salt.as_bytes())
        } else {
            insert(&mut self.long, salt.as_bytes())
        }
    }
}

// Adds a key with these bytes, and returns whether it is new.
fn insert<const N: usize>(
    keys: &mut BTreeSet<ArrayVec<u8, N>>,
    bytes: &[u8],
) -> Result<bool, AllocError>
    requires { length bytes.now ≤ N }
    ensures new { IfOk result (λ new. new ≡ not (has_key keys.old bytes.now)) }
    ensures kept { OnOk result ((other : List ℕ)
        → has_key keys.new other ≡ (bytes_eq bytes.now other || has_key keys.old other)) }
{
    let mut key = ArrayVec::new();
    let _fits = key.try_extend_from_slice(bytes);
    Ok(keys.insert(key)?)
}
