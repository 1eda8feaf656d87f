//! Texts, as they are compared.

ghost use Rattle.std.specs.Prelude.{◌≡◌};
ghost use Rattle.std.specs.Str.{bytes_eq};

/// Whether two texts are the same. What compares with many is proved sooner by calls of this than with `==`, which borrows both once more.
pub(crate) fn is_same(text: &str, other: &str) -> bool
    ensures { result ≡ bytes_eq text.now other.now }
{
    text == other
}
