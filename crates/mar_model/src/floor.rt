//! The floors of a node: what is processed, and a floor whose block is awaited.
ghost use Rattle.std.specs.Prelude.{◌≡◌, ◌^◌, ◌<◌, ◌≤◌, ◌∷◌, [], IfNone, IfOk, IfSome, None, OnErr, OnOk, Some, false, if◌then◌else◌, is_some, map, nat_lt, option_map};
ghost use Rattle.std.specs.List.{list_any};
ghost use Rattle.mar_key.specs.Hears.{Hears};
ghost use Rattle.mar_key.specs.Processed.{first_unprocessed, height_in, height_of};
ghost use Rattle.mar_key.specs.Views.{call_of, cutoff_of, processed_of, targeted_of};
ghost use Rattle.mar_model.specs.Faults.{is_at_limit};
ghost use Rattle.mar_model.specs.Floors.{admission, awaits, floor_of, pending_finalization, permits, permitted, round_before, with_witness, without_floor};

use mar_cert::CommitsTo;
use mar_key::{Cutoff, Fetch, Floor, Processed, Request, Resolver, Subscription, TargetedResolver};
use mar_types::{Height, Named, Round};
use std::alloc::{AllocError, Global};
use std::marker::Model;

/// Whether a request was issued.
#[derive(Clone, Copy, Debug, PartialEq, Eq)]
pub enum FetchAdmission {
    /// At least one was.
    Issued,
    /// Each is bound by a height or a round that is done with, so none was.
    Denied,
}

/// A floor whose block is awaited.
#[derive(Drop)]
struct Pending<C, F> {
    finalization: F,
    /// The buffer's promise to tell of the block.
    subscription: Option<Subscription<C>>,
}

/// The processed height, the round cutoff and the newest witnessed round, the floor that was set at the start until it
/// is taken, and a floor whose block is awaited. Finalizations are of the kind `F` over commitments `C`. A contract
/// sees a record of these as plain data.
#[derive(Drop)]
pub struct State<C: Named, F: CommitsTo<C>> {
    processed: Option<Processed>,
    cutoff: Cutoff,
    witnessed: Round,
    configured: Option<F>,
    pending: Option<Pending<C, F>>,
}

impl<C: Named, F: CommitsTo<C>> Model for State<C, F> {
    ghost use Rattle.std.specs.Prelude.{option_map};
    ghost use Rattle.mar_key.specs.Views.{cutoff_of, processed_of};
    ghost use Rattle.mar_model.specs.Floors.{Floors};

    ghost Value = { Floors };

    ghost view = { λ s. record {
      processed = option_map processed_of s.processed;
      cutoff = cutoff_of s.cutoff;
      witnessed = s.witnessed;
      configured = option_map F.plain s.configured;
      pending = option_map (λ p. record { finalization = F.plain p.finalization; told = option_map (λ x. C.bytes x.name) p.subscription }) s.pending;
    } };
}

impl<C: Named, F: CommitsTo<C>> State<C, F> {
    /// The state at an opening: the floor that is set, if any, the restored heights and cutoff, and the newest round of
    /// a finalization that is stored for a processed block or the one after it.
    pub fn new(configured: Option<F>, floor: Floor, witnessed: Round) -> Self
        ensures { result ≡ record {
          processed = floor.processed;
          cutoff = floor.cutoff;
          witnessed = witnessed;
          configured = option_map F.plain configured;
          pending = None;
        } }
    {
        State {
            processed: floor.processed(),
            cutoff: floor.cutoff(),
            witnessed,
            configured,
            pending: None,
        }
    }

    /// Takes the floor that was set at the start, if any.
    pub fn take_configured(&mut self) -> Option<F>
        ensures taken { option_map F.plain result ≡ self.old.configured }
        ensures rest { self.new ≡ record self.old { configured = None } }
    {
        self.configured.take()
    }

    /// The durable floor: neither the one that was set nor the one that is awaited.
    pub fn snapshot(&self) -> Floor
        ensures { result ≡ record { processed = self.now.processed; cutoff = self.now.cutoff } }
    {
        Floor::new(self.processed, self.cutoff)
    }

    /// The latest processed position, if any.
    pub fn processed(&self) -> Option<Processed>
        ensures { option_map processed_of result ≡ self.now.processed }
    {
        self.processed
    }

    /// The height at or below which no finalized block is stored or repaired: zero where nothing is processed.
    pub fn processed_height(&self) -> Height
        ensures { result ≡ height_of self.now.processed }
    {
        match self.processed {
            Some(processed) => processed.height(),
            None => Height::zero(),
        }
    }

    /// Whether the height is above the processed one, which is zero where nothing is processed.
    pub fn is_above(&self, height: Height) -> bool
        ensures { result ≡ nat_lt (height_of self.now.processed) height }
    {
        self.processed_height() < height
    }

    /// Whether the processed height is the last one.
    pub fn is_at_limit(&self) -> bool
        ensures value { result ≡ is_at_limit (option_map height_in self.now.processed) }
        ensures below { result ≡ false → first_unprocessed self.now.processed < 2 ^ 64 }
    {
        match self.processed {
            None => false,
            Some(processed) => processed.height().get() == u64::MAX,
        }
    }

    /// The first height that isn't processed, which has to fit 64 bits.
    pub fn next_height(&self) -> Height
        requires { first_unprocessed self.now.processed < 2 ^ 64 }
        ensures { result ≡ first_unprocessed self.now.processed }
    {
        match self.processed {
            None => Height::zero(),
            Some(processed) => processed.height().next(),
        }
    }

    /// The first height that isn't processed, where there is one.
    pub fn first_unprocessed(&self) -> Option<Height>
        ensures found { IfSome result (λ h. h ≡ first_unprocessed self.now.processed) }
        ensures none { IfNone result (2 ^ 64 ≤ first_unprocessed self.now.processed) }
    {
        match self.processed {
            None => Some(Height::zero()),
            Some(processed) if processed.height().get() == u64::MAX => None,
            Some(processed) => Some(processed.height().next()),
        }
    }

    /// The round cutoff.
    pub fn cutoff(&self) -> Cutoff
        ensures { cutoff_of result ≡ self.now.cutoff }
    {
        self.cutoff
    }

    /// The newest witnessed round.
    pub fn witnessed(&self) -> Round
        ensures { result ≡ self.now.witnessed }
    {
        self.witnessed
    }

    /// Sets the processed position.
    pub fn set_processed(&mut self, processed: Processed)
        ensures { self.new ≡ record self.old { processed = Some (processed_of processed) } }
    {
        self.processed = Some(processed);
    }

    /// Sets the round cutoff.
    pub fn set_cutoff(&mut self, cutoff: Cutoff)
        ensures { self.new ≡ record self.old { cutoff = cutoff_of cutoff } }
    {
        self.cutoff = cutoff;
    }

    /// Notes a round as the newest witnessed one and gives the one before it, or `None` where it isn't newer.
    pub fn witness(&mut self, round: Round) -> Option<Round>
        ensures before { result ≡ round_before round self.old }
        ensures noted { self.new ≡ with_witness round self.old }
    {
        let before = self.witnessed;
        if before < round {
            self.witnessed = round;
            Some(before)
        } else {
            None
        }
    }

    /// Whether repair and dispatch wait for a floor's block.
    pub fn blocks_progress(&self) -> bool
        ensures { result ≡ is_some self.now.pending }
    {
        self.pending.is_some()
    }

    /// The floor whose block is awaited, if any.
    pub fn pending(&self) -> Option<&F>
        ensures { option_map (λ f. F.plain f.now) result ≡ pending_finalization self.now.pending }
    {
        match &self.pending {
            Some(pending) => Some(&pending.finalization),
            None => None,
        }
    }

    /// Gives up the awaited floor, and the buffer's promise with it.
    pub fn clear_pending(&mut self)
        ensures { self.new ≡ record self.old { pending = None } }
    {
        self.pending = None;
    }

    /// Awaits the block of a verified floor, of which the buffer tells where it gave its promise. One that was awaited
    /// before is given up.
    pub fn set_pending(&mut self, finalization: F, subscription: Option<Subscription<C>>)
        ensures { self.new ≡ record self.old {
          pending = Some (record {
            finalization = F.plain finalization;
            told = option_map (λ s. C.bytes s.name)
                subscription;
          });
        } }
    {
        self.pending = Some(Pending {
            finalization,
            subscription,
        });
    }

    /// Takes the awaited floor where this is its payload.
    pub fn take_matching(&mut self, commitment: C) -> Option<F>
        ensures taken { option_map F.plain result ≡ floor_of (C.bytes commitment) self.old }
        ensures rest { self.new ≡ without_floor (C.bytes commitment) self.old }
    {
        if !self.is_awaited(&commitment) {
            return None;
        }
        let pending = self.pending.take()?;
        Some(pending.finalization)
    }

    /// Whether this is the payload of the awaited floor.
    pub fn is_awaited(&self, commitment: &C) -> bool
        ensures { result ≡ awaits (C.bytes commitment.now) self.now.pending }
    {
        match &self.pending {
            Some(pending) => pending.finalization.payload() == *commitment,
            None => false,
        }
    }

    /// Whether a request lives: where it is bound by a height, that is above the processed one or nothing is processed;
    /// where it is bound by a round, the cutoff doesn't cover that.
    pub fn permits(&self, request: &Request<C>) -> bool
        ensures { result ≡ permits self.now request.now }
    {
        let is_above = match self.processed {
            Some(processed) => request.above_height_floor(processed.height()),
            None => true,
        };
        is_above && request.above_round_floor(self.cutoff)
    }

    /// Asks peers for a key where the request lives. Where memory runs out nothing is asked.
    pub fn fetch_if_permitted<R: Resolver<C>>(
        &self,
        resolver: &mut R,
        request: Request<C>,
    ) -> Result<FetchAdmission, AllocError>
        ensures answer { IfOk result (λ a. a ≡ admission (permits self.now request)) }
        ensures ok { OnOk result (Hears (R.told resolver.old) (if permits self.now request then call_of C.bytes request ∷ [] else []) (R.told resolver.new)) }
        ensures err { OnErr result (Hears (R.told resolver.old) [] (R.told resolver.new)) }
    {
        if !self.permits(&request) {
            return Ok(FetchAdmission::Denied);
        }
        resolver.fetch(Fetch::from(request))?;
        Ok(FetchAdmission::Issued)
    }

    /// Asks these peers for a key where the request lives. Where memory runs out nothing is asked.
    pub fn fetch_targeted_if_permitted<R: TargetedResolver<C>>(
        &self,
        resolver: &mut R,
        request: Request<C>,
        targets: &[u32],
    ) -> Result<FetchAdmission, AllocError>
        ensures answer { IfOk result (λ a. a ≡ admission (permits self.now request)) }
        ensures ok { OnOk result (Hears (R.told resolver.old) (if permits self.now request then targeted_of C.bytes request targets.now ∷ [] else [])
            (R.told resolver.new)) }
        ensures err { OnErr result (Hears (R.told resolver.old) [] (R.told resolver.new)) }
    {
        if !self.permits(&request) {
            return Ok(FetchAdmission::Denied);
        }
        resolver.fetch_targeted(Fetch::from(request), targets)?;
        Ok(FetchAdmission::Issued)
    }

    /// Asks peers, in order, for the keys of those requests that live. Where memory runs out nothing is asked.
    pub fn fetch_all_if_permitted<R: Resolver<C>>(
        &self,
        alloc: Global,
        resolver: &mut R,
        requests: &[Request<C>],
    ) -> Result<FetchAdmission, AllocError>
        ensures answer { IfOk result (λ a. a ≡ admission (list_any (permits self.now) requests.now)) }
        ensures ok { OnOk result (Hears (R.told resolver.old) (map (call_of C.bytes) (permitted self.now requests.now)) (R.told resolver.new)) }
        ensures err { OnErr result (Hears (R.told resolver.old) [] (R.told resolver.new)) }
    {
        let fetches = self.permitted(alloc, requests)?;
        if fetches.is_empty() {
            return Ok(FetchAdmission::Denied);
        }
        resolver.fetch_all(fetches.as_slice())?;
        Ok(FetchAdmission::Issued)
    }

    // The requests that live, in order.
    fn permitted(&self, alloc: Global, requests: &[Request<C>]) -> Result<Vec<Fetch<C>>, AllocError>
        ensures { IfOk result (λ fetches. fetches.items ≡ permitted self.now requests.now) }
    {
        let mut fetches = Vec::new(alloc);
        for request in requests {
            if self.permits(request) {
                fetches.push(Fetch::from(*request))?;
            }
        }
        Ok(fetches)
    }
}
