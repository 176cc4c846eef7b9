// One request is answered: what its head asks, what is decided of it, and what is done.
ghost use Rattle.std.specs.Prelude.{◌≡◌, ◌≢◌, ◌⊎◌, ◌≤◌, ℕ, ℤ, List, length, IfOk, IsErrOf, Ok, Err, None};
ghost use Rattle.arti_rows.specs.declared.limits.Limits.{Limits};
ghost use Rattle.arti_ground.specs.State.{Counts};
ghost use Rattle.arti_model.specs.Store.{File, local_key};
ghost use Rattle.arti_model.specs.Stock.{Stock};
ghost use Rattle.arti_model.specs.Decide as model;
ghost use Rattle.arti_model.specs.Decide.{file_of_body};
ghost use Rattle.arti_model.specs.Perform.{perform};
ghost use Rattle.arti_model.specs.Step.{step};
ghost use Rattle.arti_model.specs.Run.{IsReply, memory_reply};
ghost use Rattle.arti_store.specs.Store.{HoldsStore, shows};
ghost use Rattle.arti_service.specs.Asks.{asked_is, IsLocal, HasNoBody, MayReply};
ghost use Rattle.arti_service.specs.Decisions.{AreWhole, Decides, decided_in, asked_over, answered, outcome};
ghost use Rattle.arti_service.specs.Acts.{Acts, ActsFor, done_by, MayCarryOut, TellsOnly};
ghost use Rattle.arti_service.specs.Stocks.{IsReady};
ghost use Rattle.arti_service.specs.Faults.{CountsTold};

use crate::act::{Act, prepare};
use crate::ask::{Asked, ask_of};
use crate::carrying::{carry_out, perform, stage};
use crate::decision::Decision;
use crate::deploy::{decide_deploy, decide_deploy_found};
use crate::fetch::decide_fetch;
use crate::query::decide_query;
use crate::telling::tell_memory;
use arti_ground::Ground;
use arti_route::has_method;
use arti_rows::{ItemKey, Moment, SomeDigests};
use arti_store::Store;
use arti_wire::Request;
use std::alloc::{AllocError, Global};
use thiserror::Error;

/// Why an answer stopped.
#[derive(Clone, Copy, Debug, PartialEq, Eq, Error)]
pub enum Stop {
    #[error("the disk failed")]
    Disk,
    #[error("telling failed")]
    Tell,
    #[error("out of memory")]
    Memory,
}

impl From<AllocError> for Stop {
    ghost use Rattle.std.specs.Prelude.{◌≡◌};
    ghost use Rattle.arti_service.specs.declared.answering.Stop.TheVariants.{Memory};

    ghost from_gives = { λ _ e. e ≡ Memory };

    fn from(_error: AllocError) -> Stop {
        Stop::Memory
    }
}

// What is decided of a request that has no body, or whose body is passed over.
fn decide(
    alloc: Global,
    store: &Store,
    asked: Asked,
    moment: Moment,
) -> Result<Decision, AllocError>
    requires local { IsLocal asked }
    requires bodiless { HasNoBody asked }
    ensures { (body : List ℕ) (sent : File) → IfOk result (Decides store.now None (λ bytes. asked_over bytes store.now (asked_is asked) body sent moment)) }
{
    match asked {
        Asked::Refused(why) => Ok(Decision::Refused(why)),
        Asked::DeployFound(key, wanted) => {
            decide_deploy_found(alloc, store, key, &wanted, moment)
        }
        Asked::Fetch(key) => decide_fetch(alloc, store, key, moment),
        Asked::Deploy(_, _) => unreachable!(),
        Asked::Query => unreachable!(),
    }
}

// Stages the content that was sent and decides over it. It is staged first, since no refusal that is left is told by the head alone.
fn answer_deploy<G: Ground>(
    alloc: Global,
    store: &mut Store,
    ground: &mut G,
    line: u32,
    alone: bool,
    key: ItemKey,
    wanted: &SomeDigests,
    body: &[u8],
    moment: Moment,
) -> Result<(), Stop>
    requires ready { IsReady store.old.limits store.old }
    requires holds { G.tells → HoldsStore (G.state ground.old) store.old }
    requires local { key.repo ≡ local_key }
    requires short { length body.now ≤ 67108864 }
    ensures acts { G.tells → ActsFor store.old.limits line
        (answered (G.state ground.old) store.old alone (Ok (model.Deploy key wanted.now)) body.now (file_of_body body.now) moment)
        result (G.state ground.old) (G.state ground.new) store.old store.new }
    ensures ready { result ≢ Err Stop.Disk → result ≢ Err Stop.Memory → IsReady store.old.limits store.new }
    ensures tell { CountsTold line (G.tell_faults ground.old) (G.tell_faults ground.new) (IsErrOf result Stop.Tell) }
    ensures disk { Counts (G.disk_faults ground.old) (G.disk_faults ground.new) (IsErrOf result Stop.Disk) }
{
    let staged = match stage(store, ground, body) {
        Ok(staged) => staged,
        Err(stop) => return Err(stop),
    };
    let decision = decide_deploy(alloc, store, key, wanted, &staged, moment)?;
    perform(alloc, store, ground, line, alone, Some(staged), decision)
}

// What is left to do for a query.
fn query_act(alloc: Global, store: &Store, alone: bool, body: &[u8]) -> Result<Act, AllocError>
    ensures done { IfOk result (λ a. (bytes : List ℕ) (limits : Limits) (s : Stock) (sent : File) (moment : ℤ) → AreWhole bytes store.now.contents.kept None
        → outcome (done_by bytes limits s a) ≡ outcome (perform limits s alone (decided_in bytes store.now model.Query body.now sent moment))) }
    ensures tells { IfOk result TellsOnly }
    ensures may { IfOk result (MayCarryOut store.now None) }
{
    let decision = decide_query(alloc, store, body)?;
    prepare(alloc, alone, decision)
}

// Tells the reply to a query; want of memory is a reply as well.
fn answer_query<G: Ground>(
    alloc: Global,
    store: &mut Store,
    ground: &mut G,
    line: u32,
    alone: bool,
    body: &[u8],
) -> Result<(), Stop>
    requires ready { IsReady store.old.limits store.old }
    requires holds { G.tells → HoldsStore (G.state ground.old) store.old }
    ensures acts { G.tells → (sent : File) (moment : ℤ) → Acts store.old.limits line
        (λ reply. (reply ≡ (answered (G.state ground.old) store.old alone (Ok model.Query) body.now sent moment).reply) ⊎ (reply ≡ memory_reply))
        (answered (G.state ground.old) store.old alone (Ok model.Query) body.now sent moment).stock
        result (G.state ground.old) (G.state ground.new) store.old store.new }
    ensures ready { result ≢ Err Stop.Disk → result ≢ Err Stop.Memory → IsReady store.old.limits store.new }
    ensures no_memory { result ≢ Err Stop.Memory }
    ensures tell { CountsTold line (G.tell_faults ground.old) (G.tell_faults ground.new) (IsErrOf result Stop.Tell) }
    ensures disk { Counts (G.disk_faults ground.old) (G.disk_faults ground.new) (IsErrOf result Stop.Disk) }
{
    match query_act(alloc, store, alone, body) {
        Ok(act) => carry_out(alloc, store, ground, line, None, act),
        Err(AllocError) => tell_memory(ground, line),
    }
}

// Answers a request that has no body, or whose body is passed over.
fn answer_head<G: Ground>(
    alloc: Global,
    store: &mut Store,
    ground: &mut G,
    line: u32,
    alone: bool,
    asked: Asked,
    moment: Moment,
) -> Result<(), Stop>
    requires ready { IsReady store.old.limits store.old }
    requires holds { G.tells → HoldsStore (G.state ground.old) store.old }
    requires local { IsLocal asked }
    requires bodiless { HasNoBody asked }
    ensures acts { G.tells → (body : List ℕ) (sent : File) → ActsFor store.old.limits line
        (answered (G.state ground.old) store.old alone (asked_is asked) body sent moment)
        result (G.state ground.old) (G.state ground.new) store.old store.new }
    ensures ready { result ≢ Err Stop.Disk → result ≢ Err Stop.Memory → IsReady store.old.limits store.new }
    ensures tell { CountsTold line (G.tell_faults ground.old) (G.tell_faults ground.new) (IsErrOf result Stop.Tell) }
    ensures disk { Counts (G.disk_faults ground.old) (G.disk_faults ground.new) (IsErrOf result Stop.Disk) }
{
    let decision = decide(alloc, store, asked, moment)?;
    perform(alloc, store, ground, line, alone, None, decision)
}

// Answers what was asked.
fn answer_asked<G: Ground>(
    alloc: Global,
    store: &mut Store,
    ground: &mut G,
    line: u32,
    alone: bool,
    asked: Asked,
    body: &[u8],
    moment: Moment,
) -> Result<(), Stop>
    requires ready { IsReady store.old.limits store.old }
    requires holds { G.tells → HoldsStore (G.state ground.old) store.old }
    requires local { IsLocal asked }
    requires short { length body.now ≤ 67108864 }
    ensures acts { G.tells → Acts store.old.limits line
        (MayReply asked (answered (G.state ground.old) store.old alone (asked_is asked) body.now (file_of_body body.now) moment))
        (answered (G.state ground.old) store.old alone (asked_is asked) body.now (file_of_body body.now) moment).stock
        result (G.state ground.old) (G.state ground.new) store.old store.new }
    ensures ready { result ≢ Err Stop.Disk → result ≢ Err Stop.Memory → IsReady store.old.limits store.new }
    ensures tell { CountsTold line (G.tell_faults ground.old) (G.tell_faults ground.new) (IsErrOf result Stop.Tell) }
    ensures disk { Counts (G.disk_faults ground.old) (G.disk_faults ground.new) (IsErrOf result Stop.Disk) }
{
    match asked {
        Asked::Deploy(key, wanted) => answer_deploy(
            alloc, store, ground, line, alone, key, &wanted, body, moment,
        ),
        Asked::Query => answer_query(alloc, store, ground, line, alone, body),
        Asked::Refused(why) => answer_head(
            alloc,
            store,
            ground,
            line,
            alone,
            Asked::Refused(why),
            moment,
        ),
        Asked::DeployFound(key, wanted) => answer_head(
            alloc,
            store,
            ground,
            line,
            alone,
            Asked::DeployFound(key, wanted),
            moment,
        ),
        Asked::Fetch(key) => answer_head(
            alloc,
            store,
            ground,
            line,
            alone,
            Asked::Fetch(key),
            moment,
        ),
    }
}

/// Answers one request on a line, in an open store. The body has at most as many bytes as a content.
pub fn answer<G: Ground>(
    alloc: Global,
    store: &mut Store,
    ground: &mut G,
    line: u32,
    request: &Request,
    body: &[u8],
    moment: Moment,
) -> Result<(), Stop>
    requires ready { IsReady store.old.limits store.old }
    requires holds { G.tells → HoldsStore (G.state ground.old) store.old }
    requires short { length body.now ≤ store.old.limits.content }
    ensures acts { G.tells → Acts store.old.limits line
        (IsReply store.old.limits (shows (G.state ground.old) store.old) (record { head = request.now; body = body.now }) moment)
        (step store.old.limits (shows (G.state ground.old) store.old) (record { head = request.now; body = body.now }) moment).stock
        result (G.state ground.old) (G.state ground.new) store.old store.new }
    ensures ready { result ≢ Err Stop.Disk → result ≢ Err Stop.Memory → IsReady store.old.limits store.new }
    ensures tell { CountsTold line (G.tell_faults ground.old) (G.tell_faults ground.new) (IsErrOf result Stop.Tell) }
    ensures disk { Counts (G.disk_faults ground.old) (G.disk_faults ground.new) (IsErrOf result Stop.Disk) }
{
    // For the proof alone: a content has at most as many bytes as the record of one may say.
    let _limits = store.limits();
    let asked = ask_of(alloc, request)?;
    let alone = has_method(request, "HEAD");
    answer_asked(alloc, store, ground, line, alone, asked, body, moment)
}
