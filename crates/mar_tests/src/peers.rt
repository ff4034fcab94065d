//! A type that takes what peers send and what they ask for.
ghost use Rattle.std.specs.Prelude.{IfOk, IfSome, None, OnErr, OnOk, Option, map, ◌≡◌};
ghost use Rattle.mar_key.specs.PeerQueue.{Enqueues, PeerQueue, deliver, peer_room, produce};
ghost use Rattle.mar_key.specs.Views.{annotation_of, key_of};

use crate::tell::*;
use bytes::Bytes;
use mar_key::{Consumer, Delivery, Key, Producer};
use mar_types::{Height, Sha256Digest};
use std::alloc::AllocError;

// Counts what it is handed.
#[derive(Drop)]
struct Counts {
    delivered: usize,
    produced: usize,
}

impl Consumer<Sha256Digest> for Counts {
    ghost queue = { λ _. None };

    fn deliver(
        &mut self,
        ticket: u64,
        delivery: Delivery<Sha256Digest>,
        value: Bytes,
    ) -> Result<(), AllocError>
        ensures ok { OnOk result (Enqueues None (deliver ticket (key_of Sha256Digest.bytes delivery.key) value
            (map annotation_of delivery.annotations.items)) None) }
        ensures err { OnErr result (let nothing : Option PeerQueue = None in nothing ≡ None) }
    {
        let whole = (ticket == 1) & (value.len() == 2) & delivery.annotations.is_empty();
        self.delivered = self.delivered.saturating_add(usize::from(whole));
        Ok(())
    }
}

impl Producer<Sha256Digest> for Counts {
    ghost queue = { λ _. None };

    fn produce(&mut self, ticket: u64, key: Key<Sha256Digest>) -> Result<bool, AllocError>
        ensures ok { OnOk result (Enqueues None (produce ticket (key_of Sha256Digest.bytes key)) None) }
        ensures taken { IfOk result (λ taken. IfSome None (λ q. taken ≡ peer_room q)) }
        ensures err { OnErr result (let nothing : Option PeerQueue = None in nothing ≡ None) }
    {
        self.produced = self.produced.saturating_add(1);
        Ok(ticket == 2)
    }
}

const fn key() -> Key<Sha256Digest> {
    Key::Finalized {
        height: Height::new(12345),
    }
}

#[test]
fn what_peers_send_and_ask_is_taken(rt: HostRuntime) {
    let mut counts = Counts {
        delivered: 0,
        produced: 0,
    };
    let delivery = Delivery {
        key: key(),
        annotations: Vec::new(rt.alloc()),
    };
    given(
        &rt,
        counts.deliver(1, delivery, Bytes::from_static(b"\x01\x02")),
    );
    holds(&rt, given(&rt, counts.produce(2, key())));
    holds(&rt, (counts.delivered == 1) & (counts.produced == 1));
}
