//! Tests that cross crates: of the plain values, their texts, and each public call that no program makes; of the parts of a
//! node; and of the calls of stores, of the cache, of what callers are answered and of texts, which no script of the program
//! reaches.
#![tactic(auto)]

#[cfg(test)]
mod acknowledgements;
#[cfg(test)]
mod ancestry;
#[cfg(test)]
mod archives;
#[cfg(test)]
mod blocks;
#[cfg(test)]
mod buffers;
#[cfg(test)]
mod cache_calls;
#[cfg(test)]
mod cache_in_place;
#[cfg(test)]
mod cache_memory;
#[cfg(test)]
mod certificates;
#[cfg(test)]
mod certified;
#[cfg(test)]
mod codec;
#[cfg(test)]
mod commitments;
#[cfg(test)]
mod cutoffs;
#[cfg(test)]
mod epochs;
#[cfg(test)]
mod floors;
#[cfg(test)]
mod inbox;
#[cfg(test)]
mod laws;
#[cfg(test)]
mod light;
#[cfg(test)]
mod mocks;
#[cfg(test)]
mod numbers;
#[cfg(test)]
mod parts;
#[cfg(test)]
mod payload_sizes;
#[cfg(test)]
mod peer_queue;
#[cfg(test)]
mod peers;
#[cfg(test)]
mod requests;
#[cfg(test)]
mod stores;
#[cfg(test)]
mod subscriptions;
#[cfg(test)]
mod tell;
#[cfg(test)]
mod terms;
#[cfg(test)]
mod texts;
