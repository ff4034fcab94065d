//! What is asked of peers and for whom, what stays open of it, and who takes what peers send: a queue of places with what waits
//! behind it.
#![tactic(auto)]

mod annotations;
mod cutoffs;
mod floors;
mod keys;
mod laws;
mod open_requests;
mod outcomes;
mod overflow;
mod peers;
mod pending;
mod queue;
mod receiver;
mod recorder;
mod requests;
mod resolvers;
mod subscription;

pub use annotations::{Annotation, Finalized, Retain};
pub use cutoffs::Cutoff;
pub use floors::{Floor, Processed};
pub use keys::Key;
pub use laws::{
    annotation_laws, cutoff_laws, digest_keys, floor_laws, key_laws, open_key_laws, request_laws,
};
pub use open_requests::{Asked, Judged, OpenRequests, same_key};
pub use outcomes::{Delivery, Outcome};
pub use overflow::Overflow;
pub use peers::{Consumer, Producer};
pub use pending::{Message, Pending};
pub use queue::Queue;
pub use receiver::{Handler, Receiver, init};
pub use recorder::{Ask, Recorder};
pub use requests::{Fetch, Request};
pub use resolvers::{Resolver, TargetedResolver};
pub use subscription::Subscription;
