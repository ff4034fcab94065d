//! A value beside its digest.
ghost use Rattle.std.specs.Prelude.{◌≡◌, IfOk};

use crate::digest::{Digest, Digestible};
use std::alloc::{AllocError, Global};
use std::marker::Model;
use std::sync::Arc;

/// A value beside its digest, which is computed once. A clone shares the value.
#[derive(Drop)]
pub struct Digested<B: Digestible + Drop> {
    inner: Arc<B>,
    digest: B::Digest,
}

impl<B: Digestible + Drop> Model for Digested<B> {
    ghost Value = { B };

    ghost view = { λ digested. digested.inner.value };

    ghost invariant = { λ digested. B.Digest.bytes digested.digest
        ≡ B.digest_bytes digested.inner.value };
}

impl<B: Digestible + Drop> Digested<B> {
    /// Computes the value's digest.
    pub fn compute(alloc: Global, block: B) -> Result<Self, AllocError>
        ensures { IfOk result (λ digested. digested ≡ block) }
    {
        let digest = block.digest();
        Digested::precomputed(alloc, block, digest)
    }

    /// Takes the value's digest as it is.
    pub fn precomputed(alloc: Global, block: B, digest: B::Digest) -> Result<Self, AllocError>
        requires { B.Digest.bytes digest ≡ B.digest_bytes block }
        ensures { IfOk result (λ digested. digested ≡ block) }
    {
        let inner = Arc::new(alloc, block)?;
        Ok(Digested { inner, digest })
    }

    /// The value.
    pub fn inner(&self) -> &B
        ensures { result.now ≡ self.now }
    {
        &self.inner
    }

    /// The value's digest.
    pub fn digest(&self) -> B::Digest
        ensures { B.Digest.bytes result ≡ B.digest_bytes self.now }
    {
        self.digest
    }
}

impl<B: Digestible + Drop> Clone for Digested<B> {
    ghost is_clone = { λ digested copy. copy ≡ digested };

    fn clone(&self) -> Result<Self, AllocError> {
        let inner = self.inner.clone()?;
        let digest = self.digest;
        Ok(Digested { inner, digest })
    }
}
