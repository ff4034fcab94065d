//! How far a cache has come since its reopening.
ghost use Rattle.std.specs.Prelude.{◌≡◌};
ghost use Rattle.mar_cache.specs.Stages.{after_put};

/// How far a cache has come since its reopening.
#[derive(Clone, Copy)]
pub enum Stage {
    /// No epoch is open.
    Fresh,
    /// Something was put, but what a crash left wasn't taken up before.
    Begun,
    /// What a crash left was taken up.
    Loaded,
}

impl Stage {
    /// How far it has come after a put.
    pub const fn after_put(self) -> Stage
        ensures { result ≡ after_put self }
    {
        match self {
            Stage::Loaded => Stage::Loaded,
            Stage::Fresh | Stage::Begun => Stage::Begun,
        }
    }
}
