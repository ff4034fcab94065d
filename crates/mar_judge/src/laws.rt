//! What is produced is judged Complete, and a judge with a node's settings judges as that node: laws that nodes rest on,
//! each the contract of a function.
ghost use Rattle.std.specs.Prelude.{◌≡◌, List};
ghost use Rattle.mar_key.specs.PeerQueue.{PeerMessage};
ghost use Rattle.mar_model.specs.Config.{Config};
ghost use Rattle.mar_model.specs.Judge.{mock_reading};
ghost use Rattle.mar_judge.specs.Produced.{BlocksComplete, FinalizedComplete, NotarizedComplete};
ghost use Rattle.mar_judge.specs.Rules.{settled};
ghost use Rattle.mar_judge.specs.Views.{JudgesEach, Verdict};

use crate::seat::Judge;
use crate::standard_judge::StandardJudge;
use mar_cert::{MockScheme, Provider};
use mar_types::Epocher;

/// What a node produces for a key, of a block, or of a certificate and its block, is judged Complete by one that goes
/// by equal epochs, schemes and codecs.
pub fn produces_complete<J: Judge>(judge: &J)
    ensures blocks { BlocksComplete (J.rules judge.now) }
    ensures finalized { FinalizedComplete (J.rules judge.now) }
    ensures notarized { NotarizedComplete (J.rules judge.now) }
{
    let _judge = judge;
}

/// What is judged so of blocks without content and of certificates of the mock scheme is judged as by a node whose
/// settings name as many members, and the same epochs, scopes and verdicts.
pub fn standard_judges_as_node<P: Provider<Scheme = MockScheme>, E: Epocher>(
    judge: &StandardJudge<P, E>,
)
    ensures { (config : Config) (messages : List PeerMessage) (verdicts : List Verdict)
        → config.members ≡ judge.now.members
        → settled (⟦<StandardJudge<P, E> as Judge>⟧.rules judge.now) config ≡ config
        → JudgesEach (⟦<StandardJudge<P, E> as Judge>⟧.rules judge.now).reading
        (settled (⟦<StandardJudge<P, E> as Judge>⟧.rules judge.now) config) messages verdicts
        → JudgesEach (mock_reading config) config messages verdicts }
{
    let _judge = judge;
}
