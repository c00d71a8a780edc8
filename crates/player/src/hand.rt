// The grants that a player holds.
ghost use Rattle.std.specs.Prelude.{◌≡◌, ◌<◌, ◌==◌, IsSome, vec_len, vec_capacity};
ghost use Rattle.std.specs.List.{position};
ghost use Rattle.player.specs.Hands.{Taken, Keeps, GivenBack, Grown};
ghost use Rattle.service.specs.Service.{plain};

use refusal::Refusal;
use rules::{Answer, GrantId};
use service::Grant;

// What a grant shows.
pub(crate) fn shown(grant: &Grant) -> GrantId
    ensures { result ≡ plain grant.now }
{
    GrantId {
        number: grant.number(),
        block: grant.block(),
    }
}

fn place(held: &[Grant], n: u32) -> Option<usize>
    ensures { result ≡ position (λ g. g.number == n) held.now }
{
    held.iter().position(|g| g.number() == n)
}

// Takes out the grant for the number n.
pub(crate) fn take(held: &mut Vec<Grant>, n: u32) -> Option<Grant>
    ensures taken { Taken held.old.items n result held.new.items }
    ensures room { IsSome result → vec_len held.new < vec_capacity held.new }
    ensures grown { Grown 0 (vec_len held.old) (vec_capacity held.old) (vec_len held.new) (vec_capacity held.new) }
{
    match place(held, n) {
        Some(i) => Some(held.remove(i)),
        None => None,
    }
}

// Keeps a grant that was given, and tells of it.
pub(crate) fn keep(held: &mut Vec<Grant>, given: Result<Grant, Refusal>) -> Answer
    requires { vec_len held.old < vec_capacity held.old }
    ensures keeps { Keeps held.old.items given result held.new.items }
    ensures grown { Grown 1 (vec_len held.old) (vec_capacity held.old) (vec_len held.new) (vec_capacity held.new) }
{
    match given {
        Ok(grant) => {
            let id = shown(&grant);
            held.push_reserved(grant);
            Answer::Granted(id)
        }
        Err(refusal) => Answer::Refused(refusal),
    }
}

// Keeps a grant whose ending was refused, and tells what came of the ending.
pub(crate) fn give_back(held: &mut Vec<Grant>, ended: Result<u32, (Refusal, Grant)>) -> Answer
    requires { vec_len held.old < vec_capacity held.old }
    ensures back { GivenBack held.old.items ended result held.new.items }
    ensures grown { Grown 1 (vec_len held.old) (vec_capacity held.old) (vec_len held.new) (vec_capacity held.new) }
{
    match ended {
        Ok(block) => Answer::Block(Some(block)),
        Err((refusal, grant)) => {
            held.push_reserved(grant);
            Answer::Refused(refusal)
        }
    }
}
