//! The archives of an epoch.
ghost use Rattle.std.specs.Prelude.{◌≡◌};
ghost use Rattle.mar_model.specs.Sections.{rank};

/// One of the five archives that a cache keeps of an epoch, in the order in which they are searched.
#[derive(Clone, Copy)]
pub enum Section {
    /// Verified blocks by view, several of one.
    Verified,
    /// Notarized blocks by view, one of each.
    Notarized,
    /// Certified blocks by height, several of one.
    Certified,
    /// Notarizations by view, one of each.
    Notarizations,
    /// Finalizations by view, one of each.
    Finalizations,
}

impl Section {
    /// Its place in the order of a search.
    pub const fn rank(self) -> u8
        ensures { result ≡ rank self }
    {
        match self {
            Section::Verified => 0,
            Section::Notarized => 1,
            Section::Certified => 2,
            Section::Notarizations => 3,
            Section::Finalizations => 4,
        }
    }
}
