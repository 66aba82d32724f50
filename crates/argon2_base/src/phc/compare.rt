//! Comparison of bytes that does not stop at the first that differs.

ghost use Rattle.std.specs.Prelude.{◌≡◌};
ghost use Rattle.std.specs.Str.{bytes_eq};

/// Whether two slices are equal. If they have one length, each byte of both is looked at.
#[tactic(auto, using(crate::proofs::phc_lemmas::Compared::comparison))]
pub fn are_equal(a: &[u8], b: &[u8]) -> bool
    ensures { result ≡ bytes_eq a.now b.now }
{
    if a.len() != b.len() {
        return false;
    }
    let mut difference = 0u8;
    for i in 0..a.len() {
        difference |= a[i] ^ b[i];
    }
    difference == 0
}
