//! What archives are, whoever reads them.
ghost use Rattle.std.specs.Prelude.{◌≡◌, ℕ, List, None};
ghost use Rattle.std.specs.List.{flat_map};
ghost use Rattle.mar_follower.specs.Chains.{AreFalling, AreTheChains};
ghost use Rattle.mar_follower.specs.Segments.{Committee, IsArchive, IsRefusedBehind, Segment, segment_blocks};
ghost use Rattle.mar_follower.specs.declared.why.Why.{Why};

/// Each block of an archive is the chain's at its height, of every lawful chain that has its verified finalizations,
/// where equal digests mean equal blocks; and no height stands in it twice, since each block stands below the one
/// before. Bytes are an archive of one list of segments alone, or they are refused behind one list of segments, for
/// one reason.
pub fn archives_are_the_chains()
    ensures chains { (committee : Committee) (bytes : List ℕ) (segments : List Segment)
        → IsArchive committee bytes segments → AreTheChains committee segments }
    ensures falling { (committee : Committee) (bytes : List ℕ) (segments : List Segment)
        → IsArchive committee bytes segments → AreFalling None (flat_map segment_blocks segments) }
    ensures one { (committee : Committee) (bytes : List ℕ) (xs ys : List Segment) → IsArchive committee bytes xs
        → IsArchive committee bytes ys → xs ≡ ys }
    ensures unrefused { (committee : Committee) (bytes : List ℕ) (xs ys : List Segment) (why : Why)
        → IsArchive committee bytes xs → IsRefusedBehind committee bytes ys why → ⊥ }
    ensures one_reason { (committee : Committee) (bytes : List ℕ) (xs ys : List Segment) (why other : Why)
        → IsRefusedBehind committee bytes xs why → IsRefusedBehind committee bytes ys other
        → (xs ≡ ys) × (why ≡ other) }
{}
