// Two services obey the same commands.
ghost use Rattle.std.specs.Prelude.{◌+◌, ◌≤◌, length, vec_len, vec_capacity};
ghost use Rattle.player.specs.Hands.{Grown};
ghost use Rattle.player.specs.Playing.{Plays};
ghost use Rattle.player.specs.Twins.{PlayAlike};

use crate::command::Command;
use crate::obeying::ask;
use label::{BlockNumber, StreamLabel};
use map::Map;
use rules::{Answer, Call, Entry, Position};
use service::{Grant, Service};

// Services that stand the same make the same calls, get the same answers, and stand the same again.
pub(crate) fn play_both<
    'a,
    'b,
    L: BlockNumber,
    B: Map<L, Entry>,
    S: Map<StreamLabel, Position>,
    M: BlockNumber,
    C: Map<M, Entry>,
    T: Map<StreamLabel, Position>,
>(
    one: &mut Service<'a, L, B, S>,
    held: &mut Vec<Grant>,
    log: &mut Vec<(Call, Answer)>,
    other: &mut Service<'b, M, C, T>,
    other_held: &mut Vec<Grant>,
    other_log: &mut Vec<(Call, Answer)>,
    commands: &[Command],
)
    requires hand { vec_len held.old + length commands.now ≤ vec_capacity held.old }
    requires paper { vec_len log.old + length commands.now ≤ vec_capacity log.old }
    requires other_hand { vec_len other_held.old + length commands.now ≤ vec_capacity other_held.old }
    requires other_paper { vec_len other_log.old + length commands.now ≤ vec_capacity other_log.old }
    ensures one { Plays B.Map S.Map one.old held.old.items log.old.items commands.now one.new held.new.items log.new.items }
    ensures other { Plays C.Map T.Map other.old other_held.old.items other_log.old.items commands.now other.new other_held.new.items other_log.new.items }
    ensures alike { PlayAlike B.Map S.Map C.Map T.Map one.old held.old.items log.old.items one.new log.new.items other.old other_held.old.items other_log.old.items other.new other_log.new.items }
    ensures grown { Grown (length commands.now) (vec_len held.old) (vec_capacity held.old) (vec_len held.new) (vec_capacity held.new) }
    ensures log_grown { Grown (length commands.now) (vec_len log.old) (vec_capacity log.old) (vec_len log.new) (vec_capacity log.new) }
    ensures other_grown { Grown (length commands.now) (vec_len other_held.old) (vec_capacity other_held.old) (vec_len other_held.new) (vec_capacity other_held.new) }
    ensures other_log_grown { Grown (length commands.now) (vec_len other_log.old) (vec_capacity other_log.old) (vec_len other_log.new) (vec_capacity other_log.new) }
{
    for command in commands {
        ask(one, held, log, *command);
        ask(other, other_held, other_log, *command);
    }
}
