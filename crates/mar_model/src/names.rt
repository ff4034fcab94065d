//! Names that are compared.
ghost use Rattle.std.specs.Prelude.{◌≡◌, bytes_eq};

use mar_types::Named;

/// Whether two names have the same bytes.
pub fn is_same<D: Named>(name: D, other: D) -> bool
    ensures { result ≡ bytes_eq (D.bytes name) (D.bytes other) }
{
    name == other
}
