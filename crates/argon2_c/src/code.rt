//! The codes of `argon2.h` that this crate returns.

/// All went well.
pub const OK: i32 = 0;
/// The output's pointer is null.
pub const OUTPUT_PTR_NULL: i32 = -1;
/// The output is shorter than 4 bytes.
pub const OUTPUT_TOO_SHORT: i32 = -2;
/// The output is longer than 4294967295 bytes.
pub const OUTPUT_TOO_LONG: i32 = -3;
/// The password is longer than 4294967295 bytes.
pub const PWD_TOO_LONG: i32 = -5;
/// The salt is shorter than 8 bytes.
pub const SALT_TOO_SHORT: i32 = -6;
/// The salt is longer than 4294967295 bytes.
pub const SALT_TOO_LONG: i32 = -7;
/// The associated data is longer than 4294967295 bytes.
pub const AD_TOO_LONG: i32 = -9;
/// The secret is longer than 4294967295 bytes.
pub const SECRET_TOO_LONG: i32 = -11;
/// There is no pass.
pub const TIME_TOO_SMALL: i32 = -12;
/// The memory cost is below 8, or below 8 times the number of lanes.
pub const MEMORY_TOO_LITTLE: i32 = -14;
/// There is no lane.
pub const LANES_TOO_FEW: i32 = -16;
/// There are more than 16777215 lanes.
pub const LANES_TOO_MANY: i32 = -17;
/// The password's pointer is null and its length is not 0.
pub const PWD_PTR_MISMATCH: i32 = -18;
/// The salt's pointer is null and its length is not 0.
pub const SALT_PTR_MISMATCH: i32 = -19;
/// The secret's pointer is null and its length is not 0.
pub const SECRET_PTR_MISMATCH: i32 = -20;
/// The associated data's pointer is null and its length is not 0.
pub const AD_PTR_MISMATCH: i32 = -21;
/// A request for memory was refused.
pub const MEMORY_ALLOCATION_ERROR: i32 = -22;
/// There is a function that gives memory and none that takes it back.
pub const FREE_MEMORY_CBK_NULL: i32 = -23;
/// There is a function that takes memory back and none that gives it.
pub const ALLOCATE_MEMORY_CBK_NULL: i32 = -24;
/// The memory has another size than the request asks for, or there is no such segment.
pub const INCORRECT_PARAMETER: i32 = -25;
/// There is no such variant, or no such version.
pub const INCORRECT_TYPE: i32 = -26;
/// There is no thread.
pub const THREADS_TOO_FEW: i32 = -28;
/// There are more than 16777215 threads.
pub const THREADS_TOO_MANY: i32 = -29;
/// A text can't be written.
pub const ENCODING_FAIL: i32 = -31;
/// A text can't be read.
pub const DECODING_FAIL: i32 = -32;
/// The password does not have this hash.
pub const VERIFY_MISMATCH: i32 = -35;

// Codes that only `argon2_phc.h` has.

/// The key identifier is longer than 8 bytes.
pub const KEYID_TOO_LONG: i32 = -69;
/// There is no such variant.
pub const NO_ALGORITHM: i32 = -70;
/// There is no such version.
pub const NO_VERSION: i32 = -71;
/// A text and a zero byte don't fit into the room for them.
pub const ROOM_TOO_SHORT: i32 = -72;
/// The parameters of new hashes ask for more than the bound, or for a hash that is shorter or longer than it says.
pub const WANTED_OUT_OF_BOUND: i32 = -75;
/// New hashes are made under another secret than the one that stored hashes are verified under.
pub const SECRETS_DIFFER: i32 = -76;
/// A text is outside the grammar.
pub const TEXT_INVALID: i32 = -80;
/// The memory cost of a text can't be read, or is not valid.
pub const TEXT_MEMORY: i32 = -81;
/// The passes of a text can't be read, or are not valid.
pub const TEXT_PASSES: i32 = -82;
/// The lanes of a text can't be read, or are not valid.
pub const TEXT_LANES: i32 = -83;
/// The key identifier of a text can't be read.
pub const TEXT_KEYID: i32 = -84;
/// The associated data of a text can't be read.
pub const TEXT_DATA: i32 = -85;
/// A text lacks a cost, or has a parameter that Argon2 does not have.
pub const TEXT_PARAMETERS: i32 = -86;
/// A text lacks its salt or its hash.
pub const TEXT_INCOMPLETE: i32 = -87;
/// A text asks for more than the bound.
pub const ABOVE_BOUND: i32 = -88;
/// The hash of a text is shorter or longer than the bound says.
pub const OUTPUT_OUT_OF_BOUND: i32 = -89;

// What `argon2_c_phc_renewal` and `argon2_c_phc_is_due` answer.

/// A text is as wanted, or stays.
pub const CURRENT: i32 = 0;
/// A text is not as wanted, and not below.
pub const OTHER: i32 = 1;
/// Something of a text is below what is wanted.
pub const BELOW: i32 = 2;
/// A text is to be replaced.
pub const DUE: i32 = 1;
