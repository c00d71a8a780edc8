// A player that owns its service: its type keeps that the log is a life on it.
ghost use Rattle.std.specs.Prelude.{◌≡◌, ◌+◌, ◌≤◌, IfOk, IfErr, IsOk, OnOk, OnErr, length};
ghost use Rattle.service.specs.Service.{Fixed};
ghost use Rattle.player.specs.Lives.{Lives, Refused, Handed};

mod both;

use crate::command::Command;
use crate::notebook::Notebook;
use crate::obeying::{ask, play};
use crate::settling::settle;
pub use both::play_both;
use label::{BlockNumber, Label, StreamLabel};
use map::Map;
use refusal::Refusal;
use rules::{Answer, Call, Entry, Position};
use service::{Grant, Mark, Service};
use std::alloc::AllocError;

/// A service, the grants that are out, and every call so far with its answer, the oldest first.
pub struct Player<'a, L: Label, B: Map<L, Entry>, S: Map<StreamLabel, Position>> {
    service: Service<'a, L, B, S>,
    held: Vec<Grant>,
    log: Vec<(Call, Answer)>,
    ghost life: { Lives B.Map S.Map service held.items log.items },
}

impl<'a, L: BlockNumber, B: Map<L, Entry>, S: Map<StreamLabel, Position>> Player<'a, L, B, S> {
    ghost use Rattle.player.specs.Notebook.{room_in};
    ghost use Rattle.player.specs.Player.{service_of, log_of, room_of, IsMade, HoldsPromise, WritesLine, WritesLines, SizesStay, Unasked, AbandonsAll, AreEqual};

    /// A player over a fresh service: `limit` bounds the block numbers, each cell stands for a block, each block has a mark.
    /// Where the check refuses, 1 or 2, nothing was written: the service that comes back holds the areas and the maps.
    pub fn new(
        limit: u32,
        cells: &'a mut [u32],
        marks: &'a mut [Mark],
        entries: B,
        streams: S,
        notebook: Notebook,
    ) -> Result<Player<'a, L, B, S>, (Refusal, Service<'a, L, B, S>)>
        ensures made { IfOk result (IsMade cells.entry marks.entry limit entries streams) }
        ensures room { IfOk result (λ p. room_of p ≡ room_in notebook) }
        ensures promised { IfOk result HoldsPromise }
        ensures refused { IfErr result (λ e. Refused B.Map S.Map (length cells.entry.now) (length marks.entry.now) limit entries streams e.0) }
        ensures handed { IfErr result (λ e. Handed B.Map S.Map cells.entry marks.entry entries streams e.0 e.1) }
    {
        let service = Service::new(limit, cells, marks, entries, streams);
        match service.sound() {
            Ok(()) => {
                let (held, log) = notebook.pages();
                Ok(Player { service, held, log })
            }
            Err(refusal) => Err((refusal, service)),
        }
    }

    /// Makes room for so many commands more. It never fails where there is room already.
    pub fn reserve(&mut self, commands: usize) -> Result<(), AllocError>
        ensures room { OnOk result (commands ≤ room_of self.new) }
        ensures succeeds { commands ≤ room_of self.old → IsOk result }
        ensures kept { room_of self.old ≤ room_of self.new }
        ensures unasked { Unasked self.old self.new }
        ensures promised { HoldsPromise self.new }
    {
        self.held.reserve(commands)?;
        self.log.reserve(commands)
    }

    /// Makes the call that the command asks for, and answers it with its answer; none where it asks for no call.
    /// Where memory runs out, nothing is asked.
    pub fn ask(&mut self, command: Command) -> Result<Option<(Call, Answer)>, AllocError>
        ensures line { WritesLine self.old command result self.new }
        ensures fixed { SizesStay self.old self.new }
        ensures promised { HoldsPromise self.new }
        ensures room { room_of self.old ≤ room_of self.new + 1 }
        ensures succeeds { 1 ≤ room_of self.old → IsOk result }
        ensures err { OnErr result (Unasked self.old self.new) }
    {
        self.reserve(1)?;
        Ok(ask(&mut self.service, &mut self.held, &mut self.log, command))
    }

    /// Asks all commands, in order. Where memory runs out, none is asked.
    pub fn play(&mut self, commands: &[Command]) -> Result<(), AllocError>
        ensures lines { WritesLines self.old commands.now result self.new }
        ensures fixed { SizesStay self.old self.new }
        ensures promised { HoldsPromise self.new }
        ensures room { room_of self.old ≤ room_of self.new + length commands.now }
        ensures succeeds { length commands.now ≤ room_of self.old → IsOk result }
        ensures err { OnErr result (Unasked self.old self.new) }
    {
        self.reserve(commands.len())?;
        play(&mut self.service, &mut self.held, &mut self.log, commands);
        Ok(())
    }

    /// Every call so far with its answer, the oldest first.
    pub fn log(&self) -> &[(Call, Answer)]
        ensures log { result.now ≡ log_of self.now }
        ensures equal { AreEqual self.now self.now }
    {
        self.log.as_slice()
    }

    /// Abandons the grants that are still out, the last first, and hands out the service and the log of what was asked.
    pub fn finish(self) -> (Service<'a, L, B, S>, Vec<(Call, Answer)>)
        ensures log { result.1.items ≡ log_of self.entry }
        ensures fixed { Fixed B.Map S.Map (service_of self.entry) result.0 }
        ensures given_up { AbandonsAll self.entry result.0 }
    {
        let Player {
            mut service,
            held,
            log,
        } = self;
        match settle(&mut service, held) {
            Ok(()) => (service, log),
            Err(_) => unreachable!(),
        }
    }
}
