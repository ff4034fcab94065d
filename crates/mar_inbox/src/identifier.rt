//! Which block a caller asks for.
use mar_types::Height;

/// Which block a caller asks for, with digests of the kind `D`.
#[derive(Clone, Copy)]
pub enum Identifier<D> {
    /// The finalized block at this height.
    Height(Height),
    /// The block of this digest.
    Digest(D),
    /// The highest block that is known as finalized. Blocks below it may be missing.
    Latest,
}

impl<D> From<Height> for Identifier<D> {
    ghost use Rattle.std.specs.Prelude.{◌≡◌};
    ghost use Rattle.mar_inbox.specs.declared.identifier.Identifier.TheVariants.{Height as AtHeight};

    ghost from_gives = { λ height identifier. identifier ≡ AtHeight height };

    fn from(height: Height) -> Identifier<D> {
        Identifier::Height(height)
    }
}

impl<D: Copy> From<&D> for Identifier<D> {
    ghost use Rattle.std.specs.Prelude.{◌≡◌};
    ghost use Rattle.mar_inbox.specs.declared.identifier.Identifier.TheVariants.{Digest as OfDigest};

    ghost from_gives = { λ digest identifier. identifier ≡ OfDigest digest.now };

    fn from(digest: &D) -> Identifier<D> {
        Identifier::Digest(*digest)
    }
}

/// By what an archive looks up: an index is a height, and a key is a digest.
impl<D> From<mar_store::Identifier<D>> for Identifier<D> {
    ghost use Rattle.std.specs.Prelude.{◌≡◌};
    ghost use Rattle.mar_inbox.specs.Views.{asked_by};

    ghost from_gives = { λ found identifier. identifier ≡ asked_by found };

    fn from(found: mar_store::Identifier<D>) -> Identifier<D> {
        match found {
            mar_store::Identifier::Index(index) => Identifier::Height(Height::new(index)),
            mar_store::Identifier::Key(key) => Identifier::Digest(key),
        }
    }
}
