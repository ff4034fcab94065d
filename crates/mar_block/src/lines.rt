//! Lines of parents, by what a stream of ancestors yields: a law that callers rest on, the contract of a function.
ghost use Rattle.std.specs.Prelude.{List, ◌∷◌, ◌≡◌};
ghost use Rattle.std.specs.List.{Contains};
ghost use Rattle.mar_cert.specs.Block.{Block as PlainBlock};
ghost use Rattle.mar_block.specs.Links.{AreLinked, Ends, HaveOwnDigests, IsFront};
ghost use Rattle.mar_block.specs.Parents.{parents};

/// Where each block is the direct parent of the one before it, as a stream of ancestors yields them, and all behind the
/// first are among some blocks of which no two have one digest, they are the first parents of that first block among
/// those, in order, and all of them where the last stands at height zero or has no parent among those.
pub fn lines_are_parents()
    ensures front { (b : PlainBlock) (rest blocks : List PlainBlock) → AreLinked (b ∷ rest)
        → ((x : PlainBlock) → Contains rest x → Contains blocks x) → HaveOwnDigests blocks
        → IsFront (b ∷ rest) (parents b blocks) }
    ensures whole { (b : PlainBlock) (rest blocks : List PlainBlock) → AreLinked (b ∷ rest)
        → ((x : PlainBlock) → Contains rest x → Contains blocks x) → HaveOwnDigests blocks → Ends blocks b rest
        → parents b blocks ≡ b ∷ rest }
{}
