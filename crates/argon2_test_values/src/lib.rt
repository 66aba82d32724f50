//! Values that the definitions of `argon2_base` and `argon2` compute to. They are from RFC 4648, RFC 7693 and RFC 9106, and from
//! other implementations. They are only in `proofs/`. Nothing is built on them, so no program waits for their check.
#![tactic(auto)]
