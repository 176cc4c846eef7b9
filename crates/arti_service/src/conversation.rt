// The requests of one stream are read whole and answered, one after the other, on a line.
//
// 1. Told are the replies of the model's `step` to the requests that the bytes are, and the store is as it leaves it: `answers`.
// 2. A fault or want of memory leaves whole replies, and behind them the first bytes of one at most: `stops`.
// 3. At each moment a crash leaves the changes up to one of them, with each whose reply has a told byte: `moments`.
// 4. The store serves on, unless the disk failed or memory ran out: `still`, `ready`.
// 5. A fault is said only where its count rose: `disk`, `tell`, `source`.
ghost use Rattle.std.specs.Prelude.{◌≡◌, ◌≢◌, ◌++◌, ◌<◌, ◌≤◌, ℕ, List, length, IfOk, IfErr, IfSome, OnOk, IsErrOf, Err};
ghost use Rattle.arti_ground.specs.State.{LeavesDisk, Passes, Counts};
ghost use Rattle.arti_store.specs.Store.{HoldsStore, shows};
ghost use Rattle.arti_service.specs.Stocks.{IsReady};
ghost use Rattle.arti_service.specs.Faults.{CountsTold};
ghost use Rattle.arti_service.specs.Moments.{AtMoment, DuringOne, Telling};
ghost use Rattle.arti_wire.specs.Framing.{IsInBody, body_left, HasSourceCause};
ghost use Rattle.arti_wire.specs.declared.wire.Phase.TheVariants.{Between};
ghost use Rattle.arti_model.specs.Run.{error_reply, Recovers};
ghost use Rattle.arti_service.specs.Bodies.{IsBodyOf, LeavesPhase};
ghost use Rattle.arti_model.specs.Requests as model;
ghost use Rattle.arti_model.specs.Requests.{Begins, Head};
ghost use Rattle.arti_service.specs.Talk.{AtStreamEnd, Answers, TakesTurn, AnswersOne, CutsShort};
ghost use Rattle.arti_service.specs.Cuts.{StopsSo, Stops, StopsInOne, StopsTelling, StopsBad, EndsFor};

use crate::answering::{Stop, answer};
use crate::replies;
use crate::telling::tell;
use arti_ground::{Clock, Ground, Source, Steps, Upstream};
use arti_model::bytes_begin_with_one_thing;
use arti_rows::Limits;
use arti_store::Store;
use arti_wire::{NextHead, Piece, Request, Why, Wire, WireFault};
use std::alloc::{AllocError, Global};
use std::sync::ledger::Ledger;

/// How a conversation ended.
#[derive(Clone, Copy, Debug, PartialEq, Eq)]
pub enum Ending {
    /// The stream ended, or a request said that it is the last.
    End,
    /// The stream ended inside a request.
    Cut,
    /// The bytes are no request; that was told.
    Bad(Why),
    /// As many requests were answered as one stream may have.
    TooMany,
    Disk,
    Tell,
    Source,
    Memory,
}

/// Answers the requests of one stream, one after the other, on a line.
pub fn converse<G: Ground, S: Source, U: Upstream, C: Clock, L: Ledger>(
    alloc: Global,
    store: &mut Store,
    ground: &mut G,
    source: &mut S,
    _upstream: &mut U,
    clock: &mut C,
    line: u32,
    limits: &Limits,
    _steps: &mut Steps<L>,
) -> Ending
    requires ready { IsReady limits.now store.old }
    requires holds { G.tells → HoldsStore (G.state ground.old) store.old }
    ensures answers { G.tells → S.tells → C.tells → AtStreamEnd result (Answers limits.now limits.now.requests (C.moments clock.old) (shows (G.state ground.old) store.old) (S.left source.old)
        ((G.state ground.old).told line) ((G.state ground.new).told line) (shows (G.state ground.new) store.new)) }
    ensures stops { G.tells → S.tells → C.tells → Stops result limits.now (record { most = limits.now.requests; moments = C.moments clock.old; stock = shows (G.state ground.old) store.old; input = S.left source.old })
        ((G.state ground.old).told line) ((G.state ground.new).told line) (shows (G.state ground.new) store.new) }
    ensures moments { G.tells → S.tells → C.tells → Passes (G.state ground.old) (G.state ground.new) (AtMoment limits.now line (G.state ground.old).told
        (Recovers limits.now limits.now.requests (C.moments clock.old) (shows (G.state ground.old) store.old) (S.left source.old))) }
    ensures still { G.tells → result ≢ Ending.Disk → result ≢ Ending.Memory → HoldsStore (G.state ground.new) store.new }
    ensures ready { result ≢ Ending.Disk → result ≢ Ending.Memory → IsReady limits.now store.new }
    ensures tell { CountsTold line (G.tell_faults ground.old) (G.tell_faults ground.new) (result ≡ Ending.Tell) }
    ensures disk { Counts (G.disk_faults ground.old) (G.disk_faults ground.new) (result ≡ Ending.Disk) }
    ensures source { Counts (S.faults source.old) (S.faults source.new) (result ≡ Ending.Source) }
{
    // All memory that doesn't depend on a request, before the first is read.
    let Ok(mut wire) = Wire::new(alloc) else {
        return Ending::Memory;
    };
    let Ok(mut buf) = vec![in alloc; 0u8; 65536] else {
        return Ending::Memory;
    };
    let mut most = limits.requests;
    'requests: loop {
        let turned = turn(
            alloc, store, ground, source, clock, line, &mut wire, &mut buf, most,
        );
        match turned {
            Ok(()) => most -= 1,
            Err(ending) => return ending,
        }
    }
}

// One turn: a request is read and answered, or the conversation ends.
fn turn<G: Ground, S: Source, C: Clock>(
    alloc: Global,
    store: &mut Store,
    ground: &mut G,
    source: &mut S,
    clock: &mut C,
    line: u32,
    wire: &mut Wire,
    buf: &mut [u8],
    most: u32,
) -> Result<(), Ending>
    requires between { wire.old.phase ≡ Between }
    requires room { 0 < length buf.old }
    requires ready { IsReady store.old.limits store.old }
    requires holds { G.tells → HoldsStore (G.state ground.old) store.old }
    ensures turns { G.tells → S.tells → C.tells → OnOk result (TakesTurn store.old.limits most (C.moments clock.old) (C.moments clock.new) (shows (G.state ground.old) store.old) (shows (G.state ground.new) store.new)
        (wire.old.ahead ++ S.left source.old) (wire.new.ahead ++ S.left source.new) ((G.state ground.old).told line) ((G.state ground.new).told line)) }
    ensures ends { G.tells → S.tells → C.tells → IfErr result (λ ending. AtStreamEnd ending (Answers store.old.limits most (C.moments clock.old) (shows (G.state ground.old) store.old) (wire.old.ahead ++ S.left source.old)
        ((G.state ground.old).told line) ((G.state ground.new).told line) (shows (G.state ground.new) store.new))) }
    ensures stops { G.tells → S.tells → C.tells → IfErr result (λ ending. StopsSo ending store.old.limits (record { most = most; moments = C.moments clock.old; stock = shows (G.state ground.old) store.old; input = wire.old.ahead ++ S.left source.old }) ((G.state ground.old).told line) ((G.state ground.new).told line) (shows (G.state ground.new) store.new)) }
    ensures moments { G.tells → S.tells → C.tells → Passes (G.state ground.old) (G.state ground.new) (AtMoment store.old.limits line (G.state ground.old).told
        (Recovers store.old.limits most (C.moments clock.old) (shows (G.state ground.old) store.old) (wire.old.ahead ++ S.left source.old))) }
    ensures ready { result ≢ Err Ending.Disk → result ≢ Err Ending.Memory → IsReady store.old.limits store.new }
    ensures holds { G.tells → result ≢ Err Ending.Disk → result ≢ Err Ending.Memory → HoldsStore (G.state ground.new) store.new }
    ensures some { OnOk result (0 < most) }
    ensures phase { OnOk result (wire.new.phase ≡ Between) }
    ensures tell { CountsTold line (G.tell_faults ground.old) (G.tell_faults ground.new) (IsErrOf result Ending.Tell) }
    ensures disk { Counts (G.disk_faults ground.old) (G.disk_faults ground.new) (IsErrOf result Ending.Disk) }
    ensures source { Counts (S.faults source.old) (S.faults source.new) (IsErrOf result Ending.Source) }
{
    // For the proof alone: a head that is found is the one thing that the bytes begin with.
    bytes_begin_with_one_thing();
    match wire.next_head(alloc, source, store.limits()) {
        Err(WireFault::Source) => Err(Ending::Source),
        Err(WireFault::Memory) => Err(Ending::Memory),
        // Before the limit of requests is asked for, since a stream that ends here has none too many.
        Ok(NextHead::End) => Err(Ending::End),
        Ok(NextHead::Cut) => {
            if most == 0 {
                return Err(Ending::TooMany);
            }
            Err(Ending::Cut)
        }
        Ok(NextHead::Bad(why)) => {
            if most == 0 {
                return Err(Ending::TooMany);
            }
            Err(end_bad(alloc, ground, line, why))
        }
        Ok(NextHead::Head(request)) => {
            if most == 0 {
                return Err(Ending::TooMany);
            }
            turn_on(
                alloc, store, ground, source, clock, line, wire, buf, most, &request,
            )
        }
    }
}

// The request whose head has come is answered, and the stream goes on or ends.
fn turn_on<G: Ground, S: Source, C: Clock>(
    alloc: Global,
    store: &mut Store,
    ground: &mut G,
    source: &mut S,
    clock: &mut C,
    line: u32,
    wire: &mut Wire,
    buf: &mut [u8],
    most: u32,
    request: &Request,
) -> Result<(), Ending>
    requires body { IsInBody wire.old.phase }
    requires room { 0 < length buf.old }
    requires within { body_left wire.old.phase ≤ store.old.limits.content }
    requires some { 0 < most }
    requires ready { IsReady store.old.limits store.old }
    requires holds { G.tells → HoldsStore (G.state ground.old) store.old }
    ensures turns { G.tells → S.tells → C.tells → (input : List ℕ) → Begins store.old.limits.content input (Head request.now (body_left wire.old.phase) (wire.old.ahead ++ S.left source.old))
        → OnOk result (TakesTurn store.old.limits most (C.moments clock.old) (C.moments clock.new) (shows (G.state ground.old) store.old) (shows (G.state ground.new) store.new) input (wire.new.ahead ++ S.left source.new) ((G.state ground.old).told line) ((G.state ground.new).told line)) }
    ensures ends { G.tells → S.tells → C.tells → (input : List ℕ) → Begins store.old.limits.content input (Head request.now (body_left wire.old.phase) (wire.old.ahead ++ S.left source.old))
        → IfErr result (λ ending. AtStreamEnd ending (Answers store.old.limits most (C.moments clock.old) (shows (G.state ground.old) store.old) input ((G.state ground.old).told line) ((G.state ground.new).told line) (shows (G.state ground.new) store.new))) }
    ensures stops { G.tells → S.tells → C.tells → (input : List ℕ) → Begins store.old.limits.content input (Head request.now (body_left wire.old.phase) (wire.old.ahead ++ S.left source.old))
        → IfErr result (λ ending. StopsSo ending store.old.limits (record { most = most; moments = C.moments clock.old; stock = shows (G.state ground.old) store.old; input = input }) ((G.state ground.old).told line) ((G.state ground.new).told line) (shows (G.state ground.new) store.new)) }
    ensures moments { G.tells → S.tells → C.tells → (input : List ℕ) → Begins store.old.limits.content input (Head request.now (body_left wire.old.phase) (wire.old.ahead ++ S.left source.old))
        → Passes (G.state ground.old) (G.state ground.new) (AtMoment store.old.limits line (G.state ground.old).told
        (Recovers store.old.limits most (C.moments clock.old) (shows (G.state ground.old) store.old) input)) }
    ensures ready { result ≢ Err Ending.Disk → result ≢ Err Ending.Memory → IsReady store.old.limits store.new }
    ensures holds { G.tells → result ≢ Err Ending.Disk → result ≢ Err Ending.Memory → HoldsStore (G.state ground.new) store.new }
    ensures phase { OnOk result (wire.new.phase ≡ Between) }
    ensures tell { CountsTold line (G.tell_faults ground.old) (G.tell_faults ground.new) (IsErrOf result Ending.Tell) }
    ensures disk { Counts (G.disk_faults ground.old) (G.disk_faults ground.new) (IsErrOf result Ending.Disk) }
    ensures source { Counts (S.faults source.old) (S.faults source.new) (IsErrOf result Ending.Source) }
{
    let last = request.last;
    match answer_next(
        alloc, store, ground, source, clock, line, wire, buf, request,
    ) {
        Err(ending) => Err(ending),
        Ok(()) => {
            if last {
                return Err(Ending::End);
            }
            Ok(())
        }
    }
}

// Reads the body of a request, and answers it.
fn answer_next<G: Ground, S: Source, C: Clock>(
    alloc: Global,
    store: &mut Store,
    ground: &mut G,
    source: &mut S,
    clock: &mut C,
    line: u32,
    wire: &mut Wire,
    buf: &mut [u8],
    request: &Request,
) -> Result<(), Ending>
    requires body { IsInBody wire.old.phase }
    requires room { 0 < length buf.old }
    requires within { body_left wire.old.phase ≤ store.old.limits.content }
    requires ready { IsReady store.old.limits store.old }
    requires holds { G.tells → HoldsStore (G.state ground.old) store.old }
    ensures one { G.tells → S.tells → C.tells → OnOk result (AnswersOne store.old.limits (C.moments clock.old) (C.moments clock.new) (shows (G.state ground.old) store.old) (shows (G.state ground.new) store.new) request.now (body_left wire.old.phase)
        (wire.old.ahead ++ S.left source.old) (wire.new.ahead ++ S.left source.new) ((G.state ground.old).told line) ((G.state ground.new).told line)) }
    ensures cut { G.tells → S.tells → IfErr result (λ ending. AtStreamEnd ending (λ e. (e ≡ model.Cut) × CutsShort (body_left wire.old.phase) (wire.old.ahead ++ S.left source.old) (shows (G.state ground.old) store.old) (shows (G.state ground.new) store.new) ((G.state ground.old).told line) ((G.state ground.new).told line))) }
    ensures stops { G.tells → S.tells → C.tells → IfErr result (λ ending. StopsInOne ending store.old.limits (C.moments clock.old) (shows (G.state ground.old) store.old) request.now (body_left wire.old.phase)
        (wire.old.ahead ++ S.left source.old) ((G.state ground.old).told line) ((G.state ground.new).told line) (shows (G.state ground.new) store.new)) }
    ensures moments { G.tells → S.tells → C.tells → Passes (G.state ground.old) (G.state ground.new) (AtMoment store.old.limits line (G.state ground.old).told
        (DuringOne store.old.limits (C.moments clock.old) (shows (G.state ground.old) store.old) request.now (body_left wire.old.phase) (wire.old.ahead ++ S.left source.old))) }
    ensures ready { result ≢ Err Ending.Disk → result ≢ Err Ending.Memory → IsReady store.old.limits store.new }
    ensures holds { G.tells → result ≢ Err Ending.Disk → result ≢ Err Ending.Memory → HoldsStore (G.state ground.new) store.new }
    ensures phase { OnOk result (wire.new.phase ≡ Between) }
    ensures tell { CountsTold line (G.tell_faults ground.old) (G.tell_faults ground.new) (IsErrOf result Ending.Tell) }
    ensures disk { Counts (G.disk_faults ground.old) (G.disk_faults ground.new) (IsErrOf result Ending.Disk) }
    ensures source { Counts (S.faults source.old) (S.faults source.new) (IsErrOf result Ending.Source) }
{
    let body = match read_body(alloc, wire, source, buf) {
        Ok(Some(body)) => body,
        Ok(None) => return Err(Ending::Cut),
        Err(WireFault::Source) => return Err(Ending::Source),
        Err(WireFault::Memory) => return Err(Ending::Memory),
    };
    // Behind the body, so that a request that is cut takes no moment of the clock.
    let moment = clock.now();
    match answer(alloc, store, ground, line, request, &body, moment) {
        Ok(()) => Ok(()),
        Err(stop) => Err(ending_of(stop)),
    }
}

// Reads the body of a request whole, or finds it cut.
fn read_body<S: Source>(
    alloc: Global,
    wire: &mut Wire,
    source: &mut S,
    buf: &mut [u8],
) -> Result<Option<Vec<u8>>, WireFault>
    requires body { IsInBody wire.old.phase }
    requires room { 0 < length buf.old }
    ensures body { S.tells → IfOk result (IsBodyOf (body_left wire.old.phase) (wire.old.ahead ++ S.left source.old) (wire.new.ahead ++ S.left source.new)) }
    ensures phase { IfOk result (LeavesPhase wire.new.phase) }
    ensures long { IfOk result (λ r. IfSome r (λ v. length v.items ≡ body_left wire.old.phase)) }
    ensures cause { HasSourceCause (S.faults source.old) (S.faults source.new) result }
{
    let mut body = Vec::new(alloc);
    'pieces: loop {
        match wire.next_piece(source, buf)? {
            Piece::Some(n) => body.extend_from_slice(&buf[..n])?,
            Piece::Last => return Ok(Some(body)),
            Piece::Cut => return Ok(None),
            // A body of so many bytes has no bad ones.
            Piece::Bad(_) => unreachable!(),
        }
    }
}

// Tells that the bytes are no request, and ends.
fn end_bad<G: Ground>(alloc: Global, ground: &mut G, line: u32, why: Why) -> Ending
    ensures told { G.tells → AtStreamEnd result (λ e. (e ≡ model.Bad why) × ((G.state ground.new).told line ≡ (G.state ground.old).told line ++ error_reply why)) }
    ensures stops { G.tells → StopsBad result why ((G.state ground.old).told line) ((G.state ground.new).told line) }
    ensures time { G.tells → Passes (G.state ground.old) (G.state ground.new) (Telling (G.state ground.old) line (error_reply why)) }
    ensures tell { CountsTold line (G.tell_faults ground.old) (G.tell_faults ground.new) (result ≡ Ending.Tell) }
    ensures no_source { result ≢ Ending.Source }
    ensures no_disk { result ≢ Ending.Disk }
    ensures disk { G.disk_faults ground.new ≡ G.disk_faults ground.old }
    ensures leaves { G.tells → LeavesDisk (G.state ground.old) (G.state ground.new) }
{
    match tell_bad(alloc, ground, line, why) {
        Ok(()) => Ending::Bad(why),
        Err(stop) => ending_of(stop),
    }
}

// Tells that the bytes are no request.
fn tell_bad<G: Ground>(alloc: Global, ground: &mut G, line: u32, why: Why) -> Result<(), Stop>
    ensures told { G.tells → OnOk result ((G.state ground.new).told line ≡ (G.state ground.old).told line ++ error_reply why) }
    ensures stops { G.tells → IfErr result (λ stop. StopsTelling stop (error_reply why) ((G.state ground.old).told line) ((G.state ground.new).told line)) }
    ensures time { G.tells → Passes (G.state ground.old) (G.state ground.new) (Telling (G.state ground.old) line (error_reply why)) }
    ensures tell { CountsTold line (G.tell_faults ground.old) (G.tell_faults ground.new) (IsErrOf result Stop.Tell) }
    ensures no_disk { result ≢ Err Stop.Disk }
    ensures disk { G.disk_faults ground.new ≡ G.disk_faults ground.old }
    ensures leaves { G.tells → LeavesDisk (G.state ground.old) (G.state ground.new) }
{
    let reply = error_text(alloc, why)?;
    tell(ground, line, &reply)
}

// The reply to bytes that are no request.
fn error_text(alloc: Global, why: Why) -> Result<Vec<u8>, AllocError>
    ensures { IfOk result (λ v. v.items ≡ error_reply why) }
{
    match why {
        Why::BadHead => replies::refusal(alloc, 400, "BadHead"),
        Why::HeadTooLarge => replies::refusal(alloc, 400, "HeadTooLarge"),
        Why::BadLength => replies::refusal(alloc, 400, "BadLength"),
        Why::UnknownCoding => replies::refusal(alloc, 501, "UnknownCoding"),
        Why::BodyTooLarge => replies::refusal(alloc, 413, "BodyTooLarge"),
    }
}

// What ends a conversation where an answer stopped.
fn ending_of(stop: Stop) -> Ending
    ensures tell { result ≡ Ending.Tell → stop ≡ Stop.Tell }
    ensures not_tell { result ≢ Ending.Tell → stop ≢ Stop.Tell }
    ensures disk { result ≡ Ending.Disk → stop ≡ Stop.Disk }
    ensures not_disk { result ≢ Ending.Disk → stop ≢ Stop.Disk }
    ensures not_memory { result ≢ Ending.Memory → stop ≢ Stop.Memory }
    ensures fault { AtStreamEnd result (λ e. ⊥) }
    ensures no_source { result ≢ Ending.Source }
    ensures stop { EndsFor stop result }
{
    match stop {
        Stop::Disk => Ending::Disk,
        Stop::Tell => Ending::Tell,
        Stop::Memory => Ending::Memory,
    }
}
