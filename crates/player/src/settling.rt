// The end of a player's work.
ghost use Rattle.std.specs.Prelude.{IsOk, []};
ghost use Rattle.rules.specs.History.{History};
ghost use Rattle.service.specs.Service.{Fixed};
ghost use Rattle.player.specs.Playing.{ReachedWith, given_up};

use label::{BlockNumber, StreamLabel};
use map::Map;
use rules::{Entry, Position};
use service::{Grant, Service};

// Abandons all grants, the last first. Grants that are not the service's own come back.
pub(crate) fn settle<'a, L: BlockNumber, B: Map<L, Entry>, S: Map<StreamLabel, Position>>(
    service: &mut Service<'a, L, B, S>,
    mut held: Vec<Grant>,
) -> Result<(), Vec<Grant>>
    ensures fixed { Fixed B.Map S.Map service.old service.new }
    ensures settled { (h : History) → ReachedWith B.Map S.Map h service.old held.items → IsOk result × ReachedWith B.Map S.Map (given_up held.items h) service.new [] }
{
    while let Some(grant) = held.pop() {
        if let Err((_, grant)) = service.abandon(grant) {
            held.push_reserved(grant);
            return Err(held);
        }
    }
    held.destroy_empty();
    Ok(())
}
