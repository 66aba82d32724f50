//! What needs a type: limits, defaults and orders. These calls have no values.

use crate::answer::Answer;
use crate::call::Call;
use argon2::password_hash::Result;
use argon2::phc::{Output, Salt};
use argon2::{
    Algorithm, Argon2, AssociatedData, Block, KeyId, MAX_PWD_LEN, MAX_SALT_LEN, MAX_SECRET_LEN,
    MIN_SALT_LEN, Params, ParamsBuilder, PasswordHash, RECOMMENDED_SALT_LEN, Version,
};
use argon2_base::phc::{ARGON2D_IDENT, ARGON2I_IDENT, ARGON2ID_IDENT, Ident};
use std::convert::AsSlice;
use std::hash::{DefaultHasher, Hash, Hasher};

pub(crate) fn make(call: &Call<'_, '_>, answer: &Answer) -> bool {
    match call.name {
        "types::limits" => limits(answer),
        // The others answer whether all is as it should be.
        "types::defaults" => answer.display_result(has_defaults()),
        "types::names" => answer.display(orders_names()),
        "types::lists" => answer.display_result(orders_lists()),
        "types::bytes" => answer.display_result(reads_bytes()),
        _ => return false,
    }
    true
}

// The limits and the defaults of costs, the limits of lengths with two recommended lengths, and the limits of lengths in texts.
fn limits(answer: &Answer) {
    let costs = [
        [Params::MIN_M_COST, Params::MAX_M_COST],
        [Params::MIN_T_COST, Params::MAX_T_COST],
        [Params::MIN_P_COST, Params::MAX_P_COST],
        [Params::DEFAULT_M_COST, Params::DEFAULT_T_COST],
    ];
    for [one, other] in costs {
        answer.display(one);
        answer.display(other);
    }
    answer.display(Params::DEFAULT_P_COST);
    let lengths = [
        [Params::MIN_OUTPUT_LEN, Params::MAX_OUTPUT_LEN],
        [MIN_SALT_LEN, MAX_SALT_LEN],
        [MAX_PWD_LEN, MAX_SECRET_LEN],
        [Params::DEFAULT_OUTPUT_LEN, RECOMMENDED_SALT_LEN],
        [Salt::MIN_LENGTH, Salt::MAX_LENGTH],
        [Output::MIN_LENGTH, Output::MAX_LENGTH],
        [Salt::RECOMMENDED_LENGTH, Block::SIZE],
        [Params::MAX_KEYID_LEN, KeyId::MAX_LEN],
        [Params::MAX_DATA_LEN, AssociatedData::MAX_LEN],
    ];
    for [one, other] in lengths {
        answer.display(one);
        answer.display(other);
    }
}

fn has_defaults() -> Result<bool> {
    let params = Params::default();
    let mut builder = ParamsBuilder::new();
    builder.keyid(KeyId::EMPTY);
    let is_other = builder != ParamsBuilder::new();
    builder.m_cost(8).t_cost(1).p_cost(1);
    let small = builder.build()?;
    let is_default = [
        params == Params::DEFAULT,
        Argon2::default().params() == &params,
        ParamsBuilder::new().build() == Ok(params),
        Params::try_from(ParamsBuilder::default()) == Ok(params),
        is_argon2id(&Argon2::from(small)),
        is_argon2id(&Argon2::from(&small)),
        is_argon2id(&builder.context(Algorithm::Argon2id, Version::V0x13)?),
    ];
    Ok(is_other && is_default == [true; 7])
}

// Whether a context gives the tag of four bytes of Argon2id, 0x13, in one pass over 8 blocks, for `abc` and `somesalt`.
fn is_argon2id(argon2: &Argon2<'_>) -> bool {
    let (mut tag, mut memory) = ([0; 4], [Block::new(); 8]);
    let answer = argon2.hash_password_into_with_memory(b"abc", b"somesalt", &mut tag, &mut memory);
    answer == Ok(()) && tag == [0xc9, 0xcb, 0x46, 0x1b]
}

fn orders_names() -> bool {
    is_name(Algorithm::Argon2d, "argon2d")
        && is_name(Algorithm::Argon2i, "argon2i")
        && is_name(Algorithm::default(), "argon2id")
        && Algorithm::Argon2d < Algorithm::Argon2i
        && Algorithm::Argon2i < Algorithm::Argon2id
        && Version::V0x10 < Version::V0x13
        && Version::default() == Version::V0x13
        && ARGON2D_IDENT < ARGON2I_IDENT
        && ARGON2I_IDENT < ARGON2ID_IDENT
}

// Whether the name is read as the algorithm, whose identifier it is.
fn is_name(algorithm: Algorithm, name: &str) -> bool {
    name.parse() == Ok(algorithm) && Ident::from(algorithm).as_str() == name
}

fn orders_lists() -> Result<bool> {
    let (key, empty) = (KeyId::new(&[0xf0; 4])?, AssociatedData::default());
    let hash = PasswordHash::new("$argon2d$v=16")?;
    Ok(
        "8PDw8A".parse() == Ok(key)
            && KeyId::default() < key
            && key.len() == 4
            && !key.is_empty()
            && empty.len() == 0
            && empty.is_empty()
            && AssociatedData::EMPTY < AssociatedData::from_b64("AA")?
            && "$argon2d$v=16".parse::<PasswordHash>()? == hash
            && PasswordHash::new("$argon2d$v=19")? != hash
            && Salt::new(b"somesalt")?.len() == 8,
    )
}

// Whether the types of bytes and names are made of a slice or a text, give their bytes, and are hashed as these.
fn reads_bytes() -> Result<bool> {
    let bytes: &[u8] = b"somesalt";
    let (key, data) = (KeyId::try_from(bytes)?, AssociatedData::try_from(bytes)?);
    let (salt, hash, name) = (
        Salt::new(bytes)?,
        Output::new(bytes)?,
        "argon2i".parse::<Ident>()?,
    );
    let are_equal = [
        key.as_slice() == bytes,
        data.as_slice() == bytes,
        salt.as_slice() == bytes,
        hash.as_slice() == bytes,
        name == ARGON2I_IDENT,
        hash_of(&key) == hash_of(&bytes),
        hash_of(&data) == hash_of(&bytes),
        hash_of(&name) == hash_of(&"argon2i"),
        hash_of(&key) != hash_of(&name),
    ];
    Ok(are_equal == [true; 9])
}

fn hash_of<T: Hash>(value: &T) -> u64 {
    let mut state = DefaultHasher::new();
    value.hash(&mut state);
    state.finish()
}
