//! What a node tells the application, asks of its peers, sends and answers callers while one line is done.
ghost use Rattle.std.specs.Prelude.{◌≡◌, ◌∷◌, [], OnErr, OnOk, Some, map};
ghost use Rattle.mar_key.specs.Hears.{Hears};
ghost use Rattle.mar_model.specs.Step.{nothing_made};
ghost use Rattle.mar_replay.specs.Turn.{made_in, plain_report};

use mar_actor::{Reporter, Update};
use mar_block::{EmptyBlock, Sent, StandardBlocks};
use mar_cert::MockFinalization;
use mar_inbox::{AnswerTable, Value};
use mar_key::Recorder;
use mar_types::{Digested, Sha256, Sha256Digest};
use std::alloc::{AllocError, Global};

/// What the application was told, in order.
#[derive(Drop)]
pub struct Told {
    pub updates: Vec<Update<Sha256Digest, Digested<EmptyBlock<Sha256>>>>,
}

/// What a node told, asked, sent and answered while one line was done.
#[derive(Drop)]
pub struct Heard {
    pub told: Told,
    pub asked: Recorder<Sha256Digest>,
    /// Taken out of the buffer as the line is done, so that no line looks at what earlier ones sent.
    pub sent: Vec<Sent<Digested<EmptyBlock<Sha256>>>>,
    pub answers: AnswerTable<Value<Sha256Digest, Digested<EmptyBlock<Sha256>>, MockFinalization>>,
}

impl Heard {
    /// Of a line that has told, asked, sent and answered nothing yet.
    pub fn new(alloc: Global) -> Self
        ensures { made_in result ≡ nothing_made }
    {
        Heard {
            told: Told {
                updates: Vec::new(alloc),
            },
            asked: Recorder::new(alloc),
            sent: Vec::new(alloc),
            answers: AnswerTable::new(alloc),
        }
    }
}

impl Reporter<StandardBlocks> for Told {
    ghost use Rattle.std.specs.Prelude.{Some, map};
    ghost use Rattle.mar_replay.specs.Turn.{plain_report};

    ghost told = { λ t. Some (map plain_report t.updates.items) };

    fn report(
        &mut self,
        update: Update<Sha256Digest, Digested<EmptyBlock<Sha256>>>,
    ) -> Result<(), AllocError>
        ensures ok { OnOk result (Hears (Some (map plain_report self.old.updates.items)) (plain_report update ∷ [])
            (Some (map plain_report self.new.updates.items))) }
        ensures err { OnErr result (Hears (Some (map plain_report self.old.updates.items)) [] (Some (map plain_report self.new.updates.items))) }
    {
        self.updates.push(update)?;
        Ok(())
    }
}
