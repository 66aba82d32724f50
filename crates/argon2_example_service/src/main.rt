//! What a program does first, hashing and verifying a password, and then a service whose accounts are in a file: names with
//! passwords. The service signs up a name and logs it in.
#![tactic(auto)]

use argon2::bound::Bound;
use argon2::{Algorithm, Argon2, Params, Version};
use argon2_accounts::Accounts;
use argon2_policy::Policy;
use rand_chacha::ChaCha20Rng;
use rand_core::{Rng, SeedableRng};
use service::{has_password, open, sign_up};
use sqlite_disk::Disk;
use sqlite_std_file::Wary;
use sqlite_store::FileStore;
use std::random::RandomSource;

mod hashing;
mod service;

// A service reads its secrets from files that are not with the hashes. It refuses an empty file, because an empty secret is no
// secret.
const SECRET: &[u8] = b"the secret";

// The secret before the last change, or nothing if the hashes were made without a secret.
const OLD_SECRET: &[u8] = b"";

fn main(rt: HostRuntime) -> anyhow::Result<()> {
    hashing::hash_and_verify(&rt)?;

    let mut seed = [0; 32];
    rt.fill_bytes(&mut seed)?;
    let mut rng = ChaCha20Rng::from_seed(seed);

    // The least costs, for a quick test. The costs of a service are `Params::DEFAULT`.
    let params = Params::new(8, 1, 1, None)?;
    let target = Argon2::new_with_secret(SECRET, Algorithm::Argon2id, Version::V0x13, params)?;
    let bound = Bound {
        m_cost: 65536,
        t_cost: 4,
        p_cost: 4,
    };
    let policy = Policy::new(rt.alloc(), target, bound)?.with_old_secret(OLD_SECRET)?;

    serve(&rt, &mut rng, open(&rt, "accounts.db", Wary, policy)?)
}

// What a service does for a name. It knows the file's disk by what all disks do, which keeps its proof short.
fn serve<R: Rng, D: Disk + Drop>(
    rt: &HostRuntime,
    rng: &mut R,
    mut accounts: Accounts<'_, FileStore<D>>,
) -> anyhow::Result<()> {
    sign_up(&mut accounts, rng, "ann", b"correct horse")?;
    println!(rt; "ann is signed up")?;
    let accepts = has_password(&mut accounts, rng, "ann", b"correct horse")?;
    println!(rt; "correct horse: {accepts}")?;
    Ok(())
}
