// The top call.
ghost use Rattle.std.specs.Prelude.{◌≡◌, ◌≢◌, ◌≤◌, ◌⊎◌, ◌↔◌, ℕ, List, map, string_bytes, Some, None};
ghost use Rattle.arti_ground.specs.State.{AfterSync, Rose, Counts};
ghost use Rattle.arti_model.specs.Requests as model;
ghost use Rattle.arti_model.specs.Requests.{Whole, RequestBytes};
ghost use Rattle.arti_model.specs.Stock.{Stock};
ghost use Rattle.arti_service.specs.Faults.{CountsTold};
ghost use Rattle.arti_main.specs.Words.{command_of};
ghost use Rattle.arti_main.specs.declared.words.Command.TheVariants.{Replay};
ghost use Rattle.arti_main.specs.Answered.{status_of, HasStock, ToldFor, Replays, AtInputEnd, CutSo, AtAnyMoment};

use crate::start_clock::StartClock;
use crate::words::{Command, command_of};
use arti_ground::{Clock, Ground, Source, Steps, Upstream};
use arti_model::bytes_are_read_in_one_way;
use arti_rows::Limits;
use arti_service::{Ending, converse};
use arti_store::{OpenFault, Store, files_stand_for_one_store};
use std::alloc::Global;
use std::sync::ledger::Ledger;

/// How a run ended.
#[derive(Clone, Copy, Debug, PartialEq, Eq)]
pub enum Status {
    /// The input was read to its end, or to a request that said that it is the last.
    Ok,
    /// The words are no command. Nothing was read or told.
    Usage,
    /// The files are no store.
    NotAStore,
    DiskFault,
    TellFault,
    SourceFault,
    /// The input ended inside a request, or wasn't one.
    BadInput,
    /// As many requests were answered as one stream may have, and the input has more.
    TooManyRequests,
    Memory,
}

impl Status {
    /// The exit status of the program.
    pub fn code(self) -> u8
        ensures { result ≡ code_of self }
    {
        match self {
            Status::Ok => 0,
            Status::Usage => 2,
            Status::NotAStore => 3,
            Status::DiskFault => 4,
            Status::TellFault => 5,
            Status::SourceFault => 6,
            Status::BadInput => 7,
            Status::TooManyRequests => 8,
            Status::Memory => 9,
        }
    }
}

ghost use Rattle.arti_main.specs.Answered.{code_of, status_for};

// The status of a run whose conversation ended so.
fn status_of(ending: Ending) -> Status
    ensures { result ≡ status_for ending }
{
    match ending {
        Ending::End => Status::Ok,
        Ending::Cut => Status::BadInput,
        Ending::Bad(_) => Status::BadInput,
        Ending::TooMany => Status::TooManyRequests,
        Ending::Disk => Status::DiskFault,
        Ending::Tell => Status::TellFault,
        Ending::Source => Status::SourceFault,
        Ending::Memory => Status::Memory,
    }
}

// The first moment of a replay.
fn start_of_replay(command: Command) -> u64
    ensures { command ≡ Command.Replay result }
{
    let Command::Replay(start) = command;
    start
}

// Opens the store and answers the requests of the input on line 0, request k at the moment start + k.
fn replay<G: Ground, S: Source, U: Upstream, L: Ledger>(
    alloc: Global,
    start: u64,
    limits: &Limits,
    ground: &mut G,
    source: &mut S,
    upstream: &mut U,
    steps: &mut Steps<L>,
) -> Status
    requires { start ≤ 253402200000000 }
    ensures not_a_store { G.tells → result ≡ Status.NotAStore → (s : Stock) → HasStock limits.now (G.state ground.old).files s → ⊥ }
    ensures a_store { G.tells → result ≢ Status.NotAStore → result ≢ Status.DiskFault → result ≢ Status.Memory → (s : Stock) × HasStock limits.now (G.state ground.old).files s }
    ensures replies { G.tells → S.tells → (s : Stock) → HasStock limits.now (G.state ground.old).files s
        → AtInputEnd result (Replays limits.now start s (S.left source.old) ((G.state ground.old).told 0) ((G.state ground.new).told 0) (G.state ground.new).files) }
    ensures cut { G.tells → S.tells → (s : Stock) → HasStock limits.now (G.state ground.old).files s
        → CutSo result limits.now start s (S.left source.old) ((G.state ground.old).told 0) ((G.state ground.new).told 0) }
    ensures crash { G.tells → S.tells → AfterSync (G.state ground.old) (G.state ground.new) (AtAnyMoment limits.now start (G.state ground.old).files (S.left source.old) (G.state ground.old).told) }
    ensures command { result ≢ Status.Usage }
    ensures tell { CountsTold 0 (G.tell_faults ground.old) (G.tell_faults ground.new) (result ≡ Status.TellFault) }
    ensures disk { Counts (G.disk_faults ground.old) (G.disk_faults ground.new) (result ≡ Status.DiskFault) }
    ensures source { Counts (S.faults source.old) (S.faults source.new) (result ≡ Status.SourceFault) }
{
    files_stand_for_one_store();
    let mut store = match Store::open(alloc, ground, limits) {
        Ok(store) => store,
        Err(OpenFault::NotAStore) => return Status::NotAStore,
        Err(OpenFault::Device) => return Status::DiskFault,
        Err(OpenFault::Memory) => return Status::Memory,
    };
    let mut clock = StartClock::new(start, limits.requests);
    let ending = converse(
        alloc, &mut store, ground, source, upstream, &mut clock, 0, limits, steps,
    );
    status_of(ending)
}

/// Runs the command that the words are, over the files of the ground, and tells on line 0.
pub fn run<G: Ground, S: Source, U: Upstream, C: Clock, L: Ledger, H: Sync>(
    _rt: &H,
    alloc: Global,
    words: &[String],
    limits: &Limits,
    ground: &mut G,
    source: &mut S,
    upstream: &mut U,
    _clock: &mut C,
    steps: &mut Steps<L>,
) -> Status
    ensures usage { result ≡ Status.Usage ↔ (command_of (map string_bytes words.now) ≡ None) }
    ensures untouched { result ≡ Status.Usage → (ground.new ≡ ground.old) × (source.new ≡ source.old) }
    ensures not_a_store { G.tells → result ≡ Status.NotAStore → (s : Stock) → HasStock limits.now (G.state ground.old).files s → ⊥ }
    ensures replies { (start : ℕ) (s : Stock) → command_of (map string_bytes words.now) ≡ Some (Replay start) → G.tells → S.tells → HasStock limits.now (G.state ground.old).files s
        → AtInputEnd result (Replays limits.now start s (S.left source.old) ((G.state ground.old).told 0) ((G.state ground.new).told 0) (G.state ground.new).files) }
    ensures cut { (start : ℕ) (s : Stock) → command_of (map string_bytes words.now) ≡ Some (Replay start) → G.tells → S.tells → HasStock limits.now (G.state ground.old).files s
        → CutSo result limits.now start s (S.left source.old) ((G.state ground.old).told 0) ((G.state ground.new).told 0) }
    ensures crash { (start : ℕ) → command_of (map string_bytes words.now) ≡ Some (Replay start) → G.tells → S.tells
        → AfterSync (G.state ground.old) (G.state ground.new) (AtAnyMoment limits.now start (G.state ground.old).files (S.left source.old) (G.state ground.old).told) }
    ensures complete { (start : ℕ) (s : Stock) (requests : List Whole) (ending : model.Ending) → command_of (map string_bytes words.now) ≡ Some (Replay start) → G.tells → S.tells
        → HasStock limits.now (G.state ground.old).files s → RequestBytes limits.now.content limits.now.requests (S.left source.old) requests ending
        → ¬ Rose (G.disk_faults ground.old) (G.disk_faults ground.new) → ¬ Rose (G.tell_faults ground.old 0) (G.tell_faults ground.new 0) → ¬ Rose (S.faults source.old) (S.faults source.new)
        → result ≡ Status.Memory ⊎ ((result ≡ status_of ending) × ToldFor limits.now start s requests ending ((G.state ground.old).told 0) ((G.state ground.new).told 0) (G.state ground.new).files) }
    ensures refused { (start : ℕ) → command_of (map string_bytes words.now) ≡ Some (Replay start) → G.tells → ((s : Stock) → HasStock limits.now (G.state ground.old).files s → ⊥)
        → ¬ Rose (G.disk_faults ground.old) (G.disk_faults ground.new) → result ≡ Status.Memory ⊎ result ≡ Status.NotAStore }
    ensures tell { CountsTold 0 (G.tell_faults ground.old) (G.tell_faults ground.new) (result ≡ Status.TellFault) }
    ensures disk { Counts (G.disk_faults ground.old) (G.disk_faults ground.new) (result ≡ Status.DiskFault) }
    ensures source { Counts (S.faults source.old) (S.faults source.new) (result ≡ Status.SourceFault) }
{
    match command_of(words) {
        Some(command) => {
            bytes_are_read_in_one_way();
            let start = start_of_replay(command);
            replay(alloc, start, limits, ground, source, upstream, steps)
        }
        None => Status::Usage,
    }
}
