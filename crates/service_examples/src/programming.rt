// A host that programs blocks: it holds the grant while the flash is being written.
ghost use Rattle.std.specs.Prelude.{◌≡◌, Some, None, Err};
ghost use Rattle.service.specs.Service.{ReachedBy, StepsBy, Back, end_call, plain, ended};
ghost use Rattle.rules.specs.History.{History};
ghost use Rattle.service_examples.specs.Program.{Programs, ending_of};

use label::{BlockNumber, StreamLabel};
use map::Map;
use refusal::Refusal;
use rules::{Entry, Position};
use service::{Grant, Service};

// A flag and no closure: `took` is what the flash told of the write.
// A closure for each ending would repeat this contract.
fn settle<'a, L: BlockNumber, B: Map<L, Entry>, S: Map<StreamLabel, Position>>(
    service: &mut Service<'a, L, B, S>,
    grant: Grant,
    took: bool,
) -> Result<u32, (Refusal, Grant)>
    ensures step { StepsBy B.Map S.Map service.old (end_call (ending_of took) (plain grant)) (ended result) service.new }
    ensures back { Back grant result }
{
    if took {
        service.commit(grant)
    } else {
        service.condemn(grant)
    }
}

/// Writes the number n: a block that took the data is committed, and one that failed is condemned.
/// Where an ending is refused, the grant goes back to the caller, who must still end it.
pub fn program<'a, L: BlockNumber, B: Map<L, Entry>, S: Map<StreamLabel, Position>>(
    service: &mut Service<'a, L, B, S>,
    n: u32,
    took: bool,
) -> Result<u32, (Refusal, Option<Grant>)>
    ensures step { (h : History) → ReachedBy B.Map S.Map h service.old → Programs B.Map S.Map h n took result service.new }
    ensures faulty { (e : Refusal) → service.old.fault ≡ Some e → (result ≡ Err (e, None)) × (service.new ≡ service.old) }
{
    let grant = service.begin(n).map_err(|refusal| (refusal, None))?;
    settle(service, grant, took).map_err(|(refusal, grant)| (refusal, Some(grant)))
}
