// Long lists of commands that look random, over maps with room for every number that is used.
// Nothing tells the kinds of the maps apart.
ghost use Rattle.std.specs.Prelude.{◌<◌};

use crate::card::{BucketCard, Card, RowCard};
use bench_card::{play_in_buckets, play_in_rows};
use checks::{check, check_eq};
use label::{BlockNumber, NewBlock, OldBlock, StreamLabel};
use player::{Command, Notebook};
use refusal::Refusal;
use rules::{Answer, Call, Tally};
use std::alloc::Global;
use std::test::*;

const COMMANDS: usize = 2_000;

// Numbers below 20 are asked for, of which 18 and 19 are too large.
const NUMBERS: u32 = 20;

const ROWS: Card = Card {
    limit: 18,
    blocks: 12,
    entries: 256,
    streams: 3,
};

const BUCKETS: Card = Card {
    entries: 64,
    ..ROWS
};

// A linear congruential generator, so that each run asks the same.
#[derive(Drop)]
struct Mixer(u64);

impl Mixer {
    // The next number below the bound, from the high bits, which repeat last.
    fn below(&mut self, bound: u32) -> u32
        requires { 0 < bound }
        ensures { result < bound }
    {
        self.0 = self
            .0
            .wrapping_mul(6_364_136_223_846_793_005)
            .wrapping_add(1_442_695_040_888_963_407);
        (self.0 >> 33) as u32 % bound
    }

    // Few blocks are condemned, so that the others last for the whole list.
    // Six labels meet room for three streams.
    fn command(&mut self) -> Command {
        let n = self.below(NUMBERS);
        let label = StreamLabel {
            port: 0,
            channel: 0,
            session: self.below(6) as u8,
        };
        match self.below(256) {
            0..=1 => Command::Condemn(n),
            2..=59 => Command::Begin(n),
            60..=99 => Command::Append(label),
            100..=149 => Command::Commit(n),
            150..=164 => Command::Abandon(n),
            165..=184 => Command::Read(n),
            185..=209 => Command::Trim(n),
            210..=229 => Command::Open(label, n, self.below(5)),
            230..=237 => Command::Close(label),
            238..=245 => Command::Position(label),
            _ => Command::Tally,
        }
    }
}

// The list ends in a tally.
fn commands(heap: Global, seed: u64) -> Result<Vec<Command>, Fail> {
    let mut mixer = Mixer(seed);
    let mut all = Vec::new(heap);
    for _ in 1..COMMANDS {
        all.push(mixer.command())?;
    }
    all.push(Command::Tally)?;
    Ok(all)
}

type Log = Vec<(Call, Answer)>;

// What the calls and answers of a log say of the blocks.
fn tallied(log: &[(Call, Answer)]) -> Tally {
    let (mut given, mut ended, mut condemned) = (0usize, 0usize, 0usize);
    let mut settled = [false; NUMBERS as usize];
    for &(call, answer) in log {
        match (call, answer) {
            (_, Answer::Granted(_)) => given = given.saturating_add(1),
            (Call::Commit(grant), Answer::Block(_)) => {
                ended = ended.saturating_add(1);
                set(&mut settled, grant.number, true);
            }
            (Call::Abandon(_), Answer::Block(_)) => ended = ended.saturating_add(1),
            (Call::Condemn(_), Answer::Block(_)) => {
                ended = ended.saturating_add(1);
                condemned = condemned.saturating_add(1);
            }
            (Call::Trim(n), Answer::Block(_)) => set(&mut settled, n, false),
            _ => {}
        }
    }
    let out = given.saturating_sub(ended);
    let settled = settled.iter().filter(|is| **is).count();
    let elsewhere = out.saturating_add(settled).saturating_add(condemned);
    Tally {
        waiting: ROWS.blocks.saturating_sub(elsewhere),
        out,
        settled,
        condemned,
    }
}

fn set(settled: &mut [bool], n: u32, is: bool) {
    if let Some(place) = settled.get_mut(n as usize) {
        *place = is;
    }
}

// The log ends in its tally, and once what is out is abandoned, all of that waits.
fn tallies(log: &[(Call, Answer)], left: Result<Tally, Refusal>) -> Result<(), Fail> {
    let tally = tallied(log);
    check_eq(
        log.last().copied(),
        Some((Call::Tally, Answer::Counts(tally))),
    )?;
    let waiting = tally.waiting.saturating_add(tally.out);
    check_eq(
        left,
        Ok(Tally {
            waiting,
            out: 0,
            ..tally
        }),
    )
}

fn log_in_rows<L: BlockNumber>(heap: Global, list: &[Command]) -> Result<Log, Fail> {
    let mut card = RowCard::<L>::new(heap, ROWS)?;
    let mut player = card.player(Notebook::new(heap))?;
    let played = play_in_rows(&mut player, list);
    let (service, log) = player.finish();
    played?;
    tallies(log.as_slice(), service.tally())?;
    Ok(log)
}

fn log_in_buckets<L: BlockNumber>(heap: Global, list: &[Command]) -> Result<Log, Fail> {
    let mut card = BucketCard::<L>::new(heap, BUCKETS)?;
    let mut player = card.player(Notebook::new(heap))?;
    let played = play_in_buckets(&mut player, list);
    let (service, log) = player.finish();
    played?;
    tallies(log.as_slice(), service.tally())?;
    Ok(log)
}

// Each kind of refusal but a full block map comes up, so the list is not a dull one.
fn meets_each_refusal(log: &[(Call, Answer)]) -> Result<(), Fail> {
    for number in [3, 4, 5, 8, 9, 10, 11, 12] {
        check(
            log.iter().any(|&(_, answer)| match answer {
                Answer::Refused(refusal) => refusal.number() == number,
                _ => false,
            }),
        )?;
    }
    Ok(())
}

#[test]
fn long_lists_have_the_same_answers(rt: HostRuntime) -> Result<(), Fail> {
    for seed in 1..=3 {
        let list = commands(rt.alloc(), seed)?;
        let log = log_in_rows::<OldBlock>(rt.alloc(), list.as_slice())?;
        meets_each_refusal(log.as_slice())?;
        let other = log_in_rows::<NewBlock>(rt.alloc(), list.as_slice())?;
        check_eq(other.as_slice(), log.as_slice())?;
        let other = log_in_buckets::<OldBlock>(rt.alloc(), list.as_slice())?;
        check_eq(other.as_slice(), log.as_slice())?;
        let other = log_in_buckets::<NewBlock>(rt.alloc(), list.as_slice())?;
        check_eq(other.as_slice(), log.as_slice())?;
    }
    Ok(())
}
