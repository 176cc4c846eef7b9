// What was decided is done: committed where it is a change, and told. Clauses on crashes, told bytes and faults of the disk stand here for every
// kind of request.
//
// 1. A change is committed before a byte of its reply is told, so that no crash takes back what was told: `acts`.
// 2. Telling takes no memory, so that a committed change isn't left untold for want of it: `no_memory`.
// 3. Where telling fails the store is as behind the request, and serves on: `acts`, `ready`.
ghost use Rattle.std.specs.Prelude.{◌≡◌, ◌≢◌, ◌++◌, ◌<◌, ◌≤◌, [], length, Contains, Some, IfOk, IfErr, IfSome, OnOk, OnErr, IsErrOf, Err};
ghost use Rattle.std.specs.Option.{option_copied};
ghost use Rattle.arti_ground.specs.State.{LeavesDisk, Passes, Counts};
ghost use Rattle.arti_model.specs.Stock.{accept};
ghost use Rattle.arti_rows.specs.DigestsOf.{digests_of};
ghost use Rattle.arti_store.specs.Store.{bytes_at, file_at, shows, HoldsStore, Standing};
ghost use Rattle.arti_store.specs.Commit.{Supplies};
ghost use Rattle.arti_service.specs.Cuts.{StopsTelling, TellsFront};
ghost use Rattle.arti_service.specs.Moments.{Telling};
ghost use Rattle.arti_service.specs.Stocks.{IsReady};
ghost use Rattle.arti_service.specs.Faults.{CountsTold};
ghost use Rattle.arti_service.specs.Decisions.{MayMake, MayDo, decision_at};
ghost use Rattle.arti_service.specs.Acts.{ActsFor, done_at, MayCarryOut, TellsOnly};
ghost use Rattle.arti_service.specs.Parts.{rest_at, full_reply};
ghost use Rattle.arti_model.specs.Perform.{perform};

use crate::act::{Act, prepare, refusal_bytes};
use crate::answering::Stop;
use crate::decision::Decision;
use crate::telling::{tell, tell_parts};
use arti_blobs::{StageFault, Staged};
use arti_ground::Ground;
use arti_rows::{Change, FileRef, Refusal, Which};
use arti_store::{CommitFault, ContentFault, Store};
use std::alloc::{AllocError, Global};

/// Does what was decided, with what was staged for it.
pub fn perform<G: Ground>(
    alloc: Global,
    store: &mut Store,
    ground: &mut G,
    line: u32,
    alone: bool,
    staged: Option<Staged>,
    decision: Decision,
) -> Result<(), Stop>
    requires ready { IsReady store.old.limits store.old }
    requires holds { G.tells → HoldsStore (G.state ground.old) store.old }
    requires may { MayDo store.old staged decision }
    requires supplies { Supplies G.tells (G.state ground.old) store.old.contents staged [] }
    ensures acts { G.tells → ActsFor store.old.limits line
        (perform store.old.limits (shows (G.state ground.old) store.old) alone (decision_at (G.state ground.old) decision))
        result (G.state ground.old) (G.state ground.new) store.old store.new }
    ensures ready { result ≢ Err Stop.Disk → result ≢ Err Stop.Memory → IsReady store.old.limits store.new }
    ensures tell { CountsTold line (G.tell_faults ground.old) (G.tell_faults ground.new) (IsErrOf result Stop.Tell) }
    ensures disk { Counts (G.disk_faults ground.old) (G.disk_faults ground.new) (IsErrOf result Stop.Disk) }
{
    // All memory first: behind a commit there may be no want of it.
    let act = prepare(alloc, alone, decision)?;
    carry_out(alloc, store, ground, line, staged, act)
}

/// Does what is left to do. A change is committed before a byte of its reply is told, so that no crash takes back what was told.
pub fn carry_out<G: Ground>(
    alloc: Global,
    store: &mut Store,
    ground: &mut G,
    line: u32,
    staged: Option<Staged>,
    act: Act,
) -> Result<(), Stop>
    requires ready { IsReady store.old.limits store.old }
    requires holds { G.tells → HoldsStore (G.state ground.old) store.old }
    requires may { MayCarryOut store.old staged act }
    requires supplies { Supplies G.tells (G.state ground.old) store.old.contents staged [] }
    ensures acts { G.tells → ActsFor store.old.limits line
        (done_at (G.state ground.old) store.old.limits (shows (G.state ground.old) store.old) act)
        result (G.state ground.old) (G.state ground.new) store.old store.new }
    ensures ready { result ≢ Err Stop.Disk → result ≢ Err Stop.Memory → IsReady store.old.limits store.new }
    ensures no_memory { TellsOnly act → result ≢ Err Stop.Memory }
    ensures tell { CountsTold line (G.tell_faults ground.old) (G.tell_faults ground.new) (IsErrOf result Stop.Tell) }
    ensures disk { Counts (G.disk_faults ground.old) (G.disk_faults ground.new) (IsErrOf result Stop.Disk) }
{
    match act {
        Act::Tell { head, body } => tell_parts(ground, line, &head, &body),
        Act::Send {
            head,
            file,
            mut buffer,
        } => tell_reply(store, ground, line, &head, Some(&file), &mut buffer),
        Act::Commit {
            change,
            head,
            file,
            mut buffer,
        } => commit_and_tell(
            alloc,
            store,
            ground,
            line,
            change,
            staged,
            &head,
            file.as_ref(),
            &mut buffer,
        ),
    }
}

// Commits a change and tells the reply, behind whose head a kept content may come; or tells what there is no room for.
fn commit_and_tell<G: Ground>(
    alloc: Global,
    store: &mut Store,
    ground: &mut G,
    line: u32,
    change: Change,
    staged: Option<Staged>,
    head: &[u8],
    file: Option<&FileRef>,
    buffer: &mut [u8],
) -> Result<(), Stop>
    requires ready { IsReady store.old.limits store.old }
    requires holds { G.tells → HoldsStore (G.state ground.old) store.old }
    requires may { MayMake store.old staged change }
    requires supplies { Supplies G.tells (G.state ground.old) store.old.contents staged [] }
    requires file { IfSome file (λ f. Contains store.old.contents.kept f.now) }
    requires room { IfSome file (λ f. 0 < length buffer.old) }
    ensures acts { G.tells → ActsFor store.old.limits line
        (accept store.old.limits (shows (G.state ground.old) store.old) (file_at (G.state ground.old)) change (head.now ++ rest_at (G.state ground.old) (option_copied file.entry)))
        result (G.state ground.old) (G.state ground.new) store.old store.new }
    ensures ready { result ≢ Err Stop.Disk → result ≢ Err Stop.Memory → IsReady store.old.limits store.new }
    ensures tell { CountsTold line (G.tell_faults ground.old) (G.tell_faults ground.new) (IsErrOf result Stop.Tell) }
    ensures disk { Counts (G.disk_faults ground.old) (G.disk_faults ground.new) (IsErrOf result Stop.Disk) }
{
    match store.commit(alloc, ground, change, staged) {
        Ok(()) => tell_reply(store, ground, line, head, file, buffer),
        Err(CommitFault::Full(which)) => tell_full(alloc, ground, line, which),
        Err(CommitFault::Device) => Err(Stop::Disk),
        Err(CommitFault::Memory) => Err(Stop::Memory),
        // A closed store answers no request.
        Err(CommitFault::Closed(_)) => unreachable!(),
    }
}

// Tells a head, and behind it a kept content where there is one.
fn tell_reply<G: Ground>(
    store: &mut Store,
    ground: &mut G,
    line: u32,
    head: &[u8],
    file: Option<&FileRef>,
    buf: &mut [u8],
) -> Result<(), Stop>
    requires still_open { store.old.closed ≡ None }
    requires kept { IfSome file (λ f. Contains store.old.contents.kept f.now) }
    requires holds { G.tells → HoldsStore (G.state ground.old) store.old }
    requires room { IfSome file (λ f. 0 < length buf.old) }
    ensures unchanged { store.new ≡ store.old }
    ensures told { G.tells → OnOk result ((G.state ground.new).told line ≡ (G.state ground.old).told line ++ (head.now ++ rest_at (G.state ground.old) (option_copied file.entry))) }
    ensures stops { G.tells → OnErr result (TellsFront (head.now ++ rest_at (G.state ground.old) (option_copied file.entry)) ((G.state ground.old).told line) ((G.state ground.new).told line)) }
    ensures time { G.tells → Passes (G.state ground.old) (G.state ground.new) (Telling (G.state ground.old) line (head.now ++ rest_at (G.state ground.old) (option_copied file.entry))) }
    ensures no_memory { result ≢ Err Stop.Memory }
    ensures leaves { G.tells → LeavesDisk (G.state ground.old) (G.state ground.new) }
    ensures tell { CountsTold line (G.tell_faults ground.old) (G.tell_faults ground.new) (IsErrOf result Stop.Tell) }
    ensures disk { Counts (G.disk_faults ground.old) (G.disk_faults ground.new) (IsErrOf result Stop.Disk) }
{
    match tell(ground, line, head) {
        Err(stop) => return Err(stop),
        Ok(()) => {}
    }
    match file {
        None => Ok(()),
        Some(file) => tell_content(store, ground, line, file, buf),
    }
}

// Tells a kept content in blocks, from a place in it on.
fn tell_content<G: Ground>(
    store: &mut Store,
    ground: &mut G,
    line: u32,
    file: &FileRef,
    buf: &mut [u8],
) -> Result<(), Stop>
    requires still_open { store.old.closed ≡ None }
    requires kept { Contains store.old.contents.kept file.now }
    requires holds { G.tells → HoldsStore (G.state ground.old) store.old }
    requires room { 0 < length buf.old }
    ensures unchanged { store.new ≡ store.old }
    ensures told { G.tells → OnOk result ((G.state ground.new).told line ≡ (G.state ground.old).told line ++ bytes_at (G.state ground.old) file.now) }
    ensures stops { G.tells → OnErr result (TellsFront (bytes_at (G.state ground.old) file.now) ((G.state ground.old).told line) ((G.state ground.new).told line)) }
    ensures time { G.tells → Passes (G.state ground.old) (G.state ground.new) (Telling (G.state ground.old) line (bytes_at (G.state ground.old) file.now)) }
    ensures no_memory { result ≢ Err Stop.Memory }
    ensures leaves { G.tells → LeavesDisk (G.state ground.old) (G.state ground.new) }
    ensures tell { CountsTold line (G.tell_faults ground.old) (G.tell_faults ground.new) (IsErrOf result Stop.Tell) }
    ensures disk { Counts (G.disk_faults ground.old) (G.disk_faults ground.new) (IsErrOf result Stop.Disk) }
{
    let mut at = 0;
    'blocks: while at < file.len {
        let room = (file.len - at).min(buf.len() as u64) as usize;
        let n = match store.content(ground, file, at, &mut buf[..room]) {
            Ok(n) => n,
            Err(ContentFault::Device) => return Err(Stop::Disk),
            Err(ContentFault::Closed(_)) => unreachable!(),
        };
        // A content that lost bytes ends early; the loop ends even so.
        if n == 0 {
            return Ok(());
        }
        match tell(ground, line, &buf[..n]) {
            Err(stop) => return Err(stop),
            Ok(()) => at += n as u64,
        }
    }
    Ok(())
}

// Tells what there is no room for.
fn tell_full<G: Ground>(alloc: Global, ground: &mut G, line: u32, which: Which) -> Result<(), Stop>
    ensures told { G.tells → OnOk result ((G.state ground.new).told line ≡ (G.state ground.old).told line ++ full_reply which) }
    ensures stops { G.tells → IfErr result (λ stop. StopsTelling stop (full_reply which) ((G.state ground.old).told line) ((G.state ground.new).told line)) }
    ensures time { G.tells → Passes (G.state ground.old) (G.state ground.new) (Telling (G.state ground.old) line (full_reply which)) }
    ensures tell { CountsTold line (G.tell_faults ground.old) (G.tell_faults ground.new) (IsErrOf result Stop.Tell) }
    ensures no_disk { result ≢ Err Stop.Disk }
    ensures disk { G.disk_faults ground.new ≡ G.disk_faults ground.old }
    ensures leaves { G.tells → LeavesDisk (G.state ground.old) (G.state ground.new) }
{
    let reply = full_bytes(alloc, which)?;
    tell(ground, line, &reply)
}

// The reply where there is no room. A refusal has many kinds, and its end is proved for each, so it ends in a function of its own.
fn full_bytes(alloc: Global, which: Which) -> Result<Vec<u8>, AllocError>
    ensures { IfOk result (λ v. v.items ≡ full_reply which) }
{
    refusal_bytes(alloc, false, &Refusal::Full(which))
}

/// Stages a content whole.
pub fn stage<G: Ground>(store: &mut Store, ground: &mut G, body: &[u8]) -> Result<Staged, Stop>
    requires ready { IsReady store.old.limits store.old }
    requires holds { G.tells → HoldsStore (G.state ground.old) store.old }
    requires short { length body.now ≤ 67108864 }
    ensures ready { IfOk result (λ s. IsReady store.old.limits store.new) }
    ensures length { IfOk result (λ s. s.file.len ≡ length body.now) }
    ensures digests { IfOk result (λ s. s.file.digests ≡ digests_of body.now) }
    ensures content { G.tells → IfOk result (λ s. bytes_at (G.state ground.new) s.file ≡ body.now) }
    ensures supplies { IfOk result (λ s. Supplies G.tells (G.state ground.new) store.new.contents (Some s) []) }
    ensures shows { G.tells → IfOk result (λ s. shows (G.state ground.new) store.new ≡ shows (G.state ground.old) store.old) }
    ensures holds { G.tells → IfOk result (λ s. HoldsStore (G.state ground.new) store.new) }
    ensures moments { G.tells → Passes (G.state ground.old) (G.state ground.new) (Standing (G.state ground.old) store.old) }
    ensures told { G.tells → (G.state ground.new).told ≡ (G.state ground.old).told }
    ensures stops { IfErr result (λ stop. stop ≡ Stop.Disk) }
    ensures disk { Counts (G.disk_faults ground.old) (G.disk_faults ground.new) (IsErrOf result Stop.Disk) }
    ensures tell { G.tell_faults ground.new ≡ G.tell_faults ground.old }
{
    store.stage_begin(&*ground);
    match store.stage_piece(ground, body, body.len() as u64) {
        Ok(()) => {}
        Err(StageFault::Device) => return Err(Stop::Disk),
        Err(StageFault::TooLarge) => unreachable!(),
    }
    match store.stage_end(ground) {
        Ok(staged) => Ok(staged),
        Err(_) => Err(Stop::Disk),
    }
}
