//! Who takes what peers send, and what they ask for.
ghost use Rattle.std.specs.Prelude.{IfOk, IfSome, OnErr, OnOk, Option, map, ◌≡◌};
ghost use Rattle.mar_key.specs.PeerQueue.{Enqueues, PeerQueue, deliver, peer_room, produce};
ghost use Rattle.mar_key.specs.Views.{annotation_of, key_of};

use crate::keys::Key;
use crate::outcomes::Delivery;
use bytes::Bytes;
use mar_types::Digest;
use std::alloc::AllocError;

/// Takes what peers send for the keys that are asked of them.
pub trait Consumer<D: Digest> {
    // What it has queued, where it tells that.
    ghost queue: { Self → Option PeerQueue };

    /// Takes the value that came for a key. What becomes of it is told under the ticket.
    fn deliver(
        &mut self,
        ticket: u64,
        delivery: Delivery<D>,
        value: Bytes,
    ) -> Result<(), AllocError>
        ensures ok { OnOk result (Enqueues (queue self.old) (deliver ticket (key_of D.bytes delivery.key) value
            (map annotation_of delivery.annotations.items)) (queue self.new)) }
        ensures err { OnErr result (queue self.new ≡ queue self.old) };
}

/// Takes what peers ask for.
pub trait Producer<D: Digest> {
    // What it has queued, where it tells that.
    ghost queue: { Self → Option PeerQueue };

    /// Takes a key that a peer asks for, or answers false where it takes no more of them. What is found of the key is
    /// told under the ticket.
    fn produce(&mut self, ticket: u64, key: Key<D>) -> Result<bool, AllocError>
        ensures ok { OnOk result (Enqueues (queue self.old) (produce ticket (key_of D.bytes key)) (queue self.new)) }
        ensures taken { IfOk result (λ taken. IfSome (queue self.old) (λ q. taken ≡ peer_room q)) }
        ensures err { OnErr result (queue self.new ≡ queue self.old) };
}
