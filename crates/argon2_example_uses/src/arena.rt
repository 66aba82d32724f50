//! One arena of blocks for many hashes: none of them asks for memory.

ghost use Rattle.std.specs.Prelude.{◌≡◌, IfOk, OnErr, OnOk, length, map};
ghost use Rattle.std.specs.Result.{result_err};
ghost use Rattle.argon2.specs.Argon2.{context_of};
ghost use Rattle.argon2.specs.Hashing.{IsHashed, KeepsRest};
ghost use Rattle.argon2_example_uses.specs.Arena.{first_refusal, input_refusal, input_tag};

use argon2::{Argon2, Block, Result};

/// A password and a salt.
#[derive(Clone, Copy)]
pub struct Input<'a> {
    /// The password.
    pub password: &'a [u8],
    /// The salt, 8 bytes or more.
    pub salt: &'a [u8],
}

/// The tag of an input, made on the first blocks of an arena, which are then the tag's matrix,
/// whatever they were; the blocks after them stay.
///
/// # Errors
/// The errors of [`Argon2::hash_password_into_with_memory`]; the arena is then as before.
pub fn hash_in(argon2: &Argon2<'_>, arena: &mut [Block], input: Input<'_>) -> Result<[u8; 32]>
    ensures hashed { IfOk result (λ tag.
        IsHashed argon2.now input.entry.password.now input.entry.salt.now tag arena.old arena.new) }
    ensures rest { KeepsRest (context_of argon2.now) arena.old arena.new }
    ensures answer { result_err result ≡ input_refusal argon2.now arena.old input.entry }
    ensures same { OnErr result (arena.new ≡ arena.old) }
{
    let mut tag = [0; 32];
    argon2.hash_password_into_with_memory(input.password, input.salt, &mut tag, arena)?;
    Ok(tag)
}

/// The tags of many inputs, one after another on the same blocks.
///
/// # Errors
/// The error of the first input that is refused.
pub fn hash_all(
    argon2: &Argon2<'_>,
    arena: &mut [Block],
    inputs: &[Input<'_>],
    tags: &mut [[u8; 32]],
) -> Result<()>
    requires { length tags.old ≡ length inputs.now }
    ensures tags { OnOk result (tags.new ≡ map (input_tag (context_of argon2.now)) inputs.now) }
    ensures rest { KeepsRest (context_of argon2.now) arena.old arena.new }
    ensures answer { result_err result ≡ first_refusal argon2.now arena.old inputs.now }
{
    for i in 0..inputs.len() {
        tags[i] = hash_in(argon2, arena, inputs[i])?;
    }
    Ok(())
}
