//! PHC texts and their parts, read and printed exactly.
//!
//! The grammar is the project's profile of the PHC string format, on the page docs/PHC.md, and the
//! definition `IsPhcText`. Each value has one spelling, and each text one reading. The longest text
//! has 326 bytes. No call allocates.

mod bytes;
mod compare;
mod fields;
mod hash;
mod ident;
mod list;
mod value;

pub use bytes::{Output, Salt};
pub use compare::are_equal;
pub use hash::{PasswordHash, Text};
pub use ident::{ARGON2D_IDENT, ARGON2I_IDENT, ARGON2ID_IDENT, Ident};
pub use list::{Iter, ParamsString};
pub use value::{Value, read_decimal};
