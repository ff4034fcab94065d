//! Laws over the definitions, each the contract of a function.

ghost use Rattle.mar_model_tests.specs.Laws.{HandsOverTheChain, IsRunOf, OutlivesRestarts};

/// A script: the settings, a genesis, a block in the buffer, its finalization, the end of the sync that covers
/// it, two acknowledgements.
const DELIVERY_SCRIPT: &[u8] = b"\
config 4 10 2 4 5 8 0 100\n\
open genesis 00000000000000000000000000000000000000000000000000000000000000000000\n\
buffer 17b0761f87b081d5cf10757ccc89f12be355c70e2e29df288b65b30710dcbcd10100\n\
final 000100ce32c67642e5135e430855a082568f3b774ee1efc23b9f2d1bc13c3f65ce873a030079de65bafcae2f1e15f9c1f69d6b12f47d809758ee0d43d8450694c3945c\
83d6011e903bade6550d2adf3cd78bed996c897aa4b77e86edc3970b60a55b0c40d08e02ca73cf9411c92583c370223e2b7ac7057728cd2f958e028efddfd5ed9da478f6\n\
sync 0\n\
ack 0\n\
ack 1\n";

/// What a node writes on it.
const DELIVERY_OUTPUT: &[u8] = b"\
node end p=- c=0.0 bs=- bm=- fs=- fm=-\n\
block 0 0 17b0761f87b081d5cf10757ccc89f12be355c70e2e29df288b65b30710dcbcd1\n\
node p=- o=0:0 c=0.0 w=- b=0-0 bs=0-0 f=- fs=- u=- s=- y=-\n\
node p=- o=0:0 c=0.0 w=- b=0-0 bs=0-0 f=- fs=- u=- s=- y=-\n\
tip 0.1 1 ce32c67642e5135e430855a082568f3b774ee1efc23b9f2d1bc13c3f65ce873a\n\
node p=- o=0:0 c=0.0 w=- b=0-1 bs=0-0 f=1-1 fs=- u=1 s=0:1 y=-\n\
block 1 1 ce32c67642e5135e430855a082568f3b774ee1efc23b9f2d1bc13c3f65ce873a\n\
node p=- o=0:0,1:1 c=0.0 w=- b=0-1 bs=0-1 f=1-1 fs=1-1 u=- s=- y=-\n\
retain height 0\n\
node p=b0 o=1:1 c=0.0 w=- b=0-1 bs=0-1 f=1-1 fs=1-1 u=- s=- y=-\n\
retain height 1\n\
retain round 0.1\n\
node p=b1 o=- c=0.1 w=- b=0-1 bs=0-1 f=1-1 fs=1-1 u=- s=- y=-\n";

/// In any run, whatever fails or crashes, each block that is handed over is the chain's at its height.
pub fn hands_over_the_chain()
    ensures { HandsOverTheChain }
{}

/// In any run no later state has a lower processed height than an earlier one, restarts included.
pub fn outlives_restarts()
    ensures { OutlivesRestarts }
{}

/// A script of seven lines and its output, which is the text of a run of lives on it.
pub fn delivery() -> (&'static [u8], &'static [u8])
    ensures { IsRunOf result.0.now result.1.now }
{
    (DELIVERY_SCRIPT, DELIVERY_OUTPUT)
}
