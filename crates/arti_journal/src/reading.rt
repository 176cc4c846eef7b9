// The records of a journal are read, one after the other.
ghost use Rattle.std.specs.Prelude.{◌≡◌, ◌≢◌, ◌++◌, [], OnOk, ◌∷◌, ◌-◌, ◌+◌, ◌^◌, ◌<◌, ◌≤◌, ℕ, List, None, length, take, drop, slice_index, IfOk, IfSome, IsErrOf, Err, IsTrue, ◌↔◌};
ghost use Rattle.std.specs.Int.{w32, to_be_bytes, from_be_bytes};
ghost use Rattle.arti_ground.specs.State.{State, OnlyReads, Rose};
ghost use Rattle.arti_journal.specs.Journal.{StandsFor, header, opened, bodies_of};
ghost use Rattle.arti_journal.specs.Parts.{Begins, Follow, HasRoom, Shows};

use crate::JournalFault;
use crate::framed::MOST_BODY;
use crate::window::Window;
use arti_ground::Ground;
use std::alloc::{AllocError, Global};

/// The name, an open gate and seven zeros.
const HEADER: [u8; 16] = *b"ARTIJNL1\x01\0\0\0\0\0\0\0";

/// The length that is used of a journal of more than 17 bytes, and the bodies in it.
pub(crate) fn read_journal<G: Ground>(
    alloc: Global,
    outside: &mut G,
    file: u32,
    size: u64,
) -> Result<(u64, Vec<Vec<u8>>), JournalFault>
    requires file { file < 6 }
    requires long { 17 < size }
    requires short { size < 2 ^ 63 }
    requires size { G.tells → size ≡ length ((G.state outside.old).files file) }
    ensures stands { G.tells → IfOk result (λ r. StandsFor (bodies_of r.1.items) ((G.state outside.old).files file)) }
    ensures length { G.tells → IfOk result (λ r. r.0 ≡ length (opened (bodies_of r.1.items)) + 1) }
    ensures used { IfOk result (λ r. (17 ≤ r.0) × (r.0 < 2 ^ 63)) }
    ensures none { G.tells → IsErrOf result JournalFault.NotAJournal → (bodies : List (List ℕ)) → StandsFor bodies ((G.state outside.old).files file) → ⊥ }
    ensures reads { G.tells → OnlyReads (G.state outside.old) (G.state outside.new) }
    ensures device { IsErrOf result JournalFault.Device → Rose (G.disk_faults outside.old) (G.disk_faults outside.new) }
    ensures quiet { result ≢ Err JournalFault.Device → G.disk_faults outside.new ≡ G.disk_faults outside.old }
    ensures later { G.disk_faults outside.old ≤ G.disk_faults outside.new }
    ensures tell_faults { G.tell_faults outside.new ≡ G.tell_faults outside.old }
{
    let mut window = Window::new(alloc, file)?;
    read_header(outside, &mut window, size)?;
    read_records(alloc, outside, &mut window, size)
}

// Tests the header.
fn read_header<G: Ground>(
    outside: &mut G,
    window: &mut Window,
    size: u64,
) -> Result<(), JournalFault>
    requires long { 17 < size }
    requires shows { G.tells → Shows window.old ((G.state outside.old).files window.old.file) }
    requires size { G.tells → size ≡ length ((G.state outside.old).files window.old.file) }
    ensures header { G.tells → OnOk result (take 16 ((G.state outside.old).files window.old.file) ≡ header) }
    ensures none { G.tells → IsErrOf result JournalFault.NotAJournal → take 16 ((G.state outside.old).files window.old.file) ≢ header }
    ensures file { window.new.file ≡ window.old.file }
    ensures shows { G.tells → Shows window.new ((G.state outside.old).files window.old.file) }
    ensures reads { G.tells → OnlyReads (G.state outside.old) (G.state outside.new) }
    ensures device { IsErrOf result JournalFault.Device → Rose (G.disk_faults outside.old) (G.disk_faults outside.new) }
    ensures quiet { result ≢ Err JournalFault.Device → G.disk_faults outside.new ≡ G.disk_faults outside.old }
    ensures later { G.disk_faults outside.old ≤ G.disk_faults outside.new }
    ensures tell_faults { G.tell_faults outside.new ≡ G.tell_faults outside.old }
{
    let mut head = [0u8; 16];
    let n = window.read(outside, 0, &mut head)?;
    if n == 16 && is_header(head) {
        return Ok(());
    }
    Err(JournalFault::NotAJournal)
}

// Whether these bytes are a whole header.
#[tactic(auto, unfolding(crate::specs::Journal::header))]
fn is_header(head: [u8; 16]) -> bool
    ensures { IsTrue result ↔ (head ≡ header) }
{
    head == HEADER
}

// The same behind a whole header.
fn read_records<G: Ground>(
    alloc: Global,
    outside: &mut G,
    window: &mut Window,
    size: u64,
) -> Result<(u64, Vec<Vec<u8>>), JournalFault>
    requires long { 17 < size }
    requires short { size < 2 ^ 63 }
    requires shows { G.tells → Shows window.old ((G.state outside.old).files window.old.file) }
    requires size { G.tells → size ≡ length ((G.state outside.old).files window.old.file) }
    requires header { G.tells → take 16 ((G.state outside.old).files window.old.file) ≡ header }
    ensures stands { G.tells → IfOk result (λ r. StandsFor (bodies_of r.1.items) ((G.state outside.old).files window.old.file)) }
    ensures length { G.tells → IfOk result (λ r. r.0 ≡ length (opened (bodies_of r.1.items)) + 1) }
    ensures used { IfOk result (λ r. (17 ≤ r.0) × (r.0 < 2 ^ 63)) }
    ensures none { G.tells → IsErrOf result JournalFault.NotAJournal → (bodies : List (List ℕ)) → StandsFor bodies ((G.state outside.old).files window.old.file) → ⊥ }
    ensures file { window.new.file ≡ window.old.file }
    ensures shows { G.tells → Shows window.new ((G.state outside.old).files window.old.file) }
    ensures reads { G.tells → OnlyReads (G.state outside.old) (G.state outside.new) }
    ensures device { IsErrOf result JournalFault.Device → Rose (G.disk_faults outside.old) (G.disk_faults outside.new) }
    ensures quiet { result ≢ Err JournalFault.Device → G.disk_faults outside.new ≡ G.disk_faults outside.old }
    ensures later { G.disk_faults outside.old ≤ G.disk_faults outside.new }
    ensures tell_faults { G.tell_faults outside.new ≡ G.tell_faults outside.old }
{
    let mut bodies = Vec::new(alloc);
    let mut place = 16;
    'records: while let Some(body) = next_body(alloc, outside, window, place, size)? {
        place += 5 + body.len() as u64;
        keep(&mut bodies, body)?;
    }
    Ok((place + 1, bodies))
}

// Puts a body behind the others.
fn keep(bodies: &mut Vec<Vec<u8>>, body: Vec<u8>) -> Result<(), AllocError>
    ensures { OnOk result (bodies_of bodies.new.items ≡ bodies_of bodies.old.items ++ body.items ∷ []) }
{
    bodies.push(body)?;
    Ok(())
}

// The length of the body at a gate, or none where the gate is closed.
fn read_head<G: Ground>(
    outside: &mut G,
    window: &mut Window,
    place: u64,
    size: u64,
) -> Result<Option<u32>, JournalFault>
    requires place { place < size }
    requires short { size < 2 ^ 63 }
    requires shows { G.tells → Shows window.old ((G.state outside.old).files window.old.file) }
    requires size { G.tells → size ≡ length ((G.state outside.old).files window.old.file) }
    ensures shut { G.tells → IfOk result (λ r. r ≡ None → slice_index ((G.state outside.old).files window.old.file) place ≢ 1) }
    ensures open { G.tells → IfOk result (λ r. IfSome r (λ len. take 5 (drop place ((G.state outside.old).files window.old.file)) ≡ 1 ∷ to_be_bytes w32 len)) }
    ensures fits { IfOk result (λ r. IfSome r (λ len. HasRoom len (size - place))) }
    ensures none { G.tells → IsErrOf result JournalFault.NotAJournal → (bodies : List (List ℕ)) → Follow bodies (drop place ((G.state outside.old).files window.old.file)) → ⊥ }
    ensures file { window.new.file ≡ window.old.file }
    ensures shows { G.tells → Shows window.new ((G.state outside.old).files window.old.file) }
    ensures reads { G.tells → OnlyReads (G.state outside.old) (G.state outside.new) }
    ensures device { IsErrOf result JournalFault.Device → Rose (G.disk_faults outside.old) (G.disk_faults outside.new) }
    ensures quiet { result ≢ Err JournalFault.Device → G.disk_faults outside.new ≡ G.disk_faults outside.old }
    ensures later { G.disk_faults outside.old ≤ G.disk_faults outside.new }
    ensures tell_faults { G.tell_faults outside.new ≡ G.tell_faults outside.old }
{
    let mut head = [0u8; 5];
    let n = window.read(outside, place, &mut head)?;
    if head[0] != 1 {
        return Ok(None);
    }
    if n < 5 {
        return Err(JournalFault::NotAJournal);
    }
    let len = body_length(head);
    if !has_room(len, size - place) {
        return Err(JournalFault::NotAJournal);
    }
    Ok(Some(len))
}

// The bytes of a body.
fn read_body<G: Ground>(
    alloc: Global,
    outside: &mut G,
    window: &mut Window,
    at: u64,
    len: u32,
) -> Result<Vec<u8>, JournalFault>
    requires range { at < 2 ^ 63 + 5 }
    requires shows { G.tells → Shows window.old ((G.state outside.old).files window.old.file) }
    ensures body { G.tells → IfOk result (λ v. v.items ≡ take len (drop at ((G.state outside.old).files window.old.file))) }
    ensures long { IfOk result (λ v. length v.items ≡ len) }
    ensures none { G.tells → at + len ≤ length ((G.state outside.old).files window.old.file) → result ≢ Err JournalFault.NotAJournal }
    ensures file { window.new.file ≡ window.old.file }
    ensures shows { G.tells → Shows window.new ((G.state outside.old).files window.old.file) }
    ensures reads { G.tells → OnlyReads (G.state outside.old) (G.state outside.new) }
    ensures device { IsErrOf result JournalFault.Device → Rose (G.disk_faults outside.old) (G.disk_faults outside.new) }
    ensures quiet { result ≢ Err JournalFault.Device → G.disk_faults outside.new ≡ G.disk_faults outside.old }
    ensures later { G.disk_faults outside.old ≤ G.disk_faults outside.new }
    ensures tell_faults { G.tell_faults outside.new ≡ G.tell_faults outside.old }
{
    let mut body = vec![in alloc; 0u8; len as usize]?;
    let n = window.read(outside, at, &mut body)?;
    if n < body.len() {
        return Err(JournalFault::NotAJournal);
    }
    Ok(body)
}

// The body at a gate, or none where the gate is closed.
fn next_body<G: Ground>(
    alloc: Global,
    outside: &mut G,
    window: &mut Window,
    place: u64,
    size: u64,
) -> Result<Option<Vec<u8>>, JournalFault>
    requires place { place < size }
    requires short { size < 2 ^ 63 }
    requires shows { G.tells → Shows window.old ((G.state outside.old).files window.old.file) }
    requires size { G.tells → size ≡ length ((G.state outside.old).files window.old.file) }
    ensures shut { G.tells → IfOk result (λ r. r ≡ None → slice_index ((G.state outside.old).files window.old.file) place ≢ 1) }
    ensures body { G.tells → IfOk result (λ r. IfSome r (λ b. Begins b.items (drop place ((G.state outside.old).files window.old.file)) (drop (place + 5 + length b.items) ((G.state outside.old).files window.old.file)))) }
    ensures within { IfOk result (λ r. IfSome r (λ b. place + 5 + length b.items < size)) }
    ensures none { G.tells → IsErrOf result JournalFault.NotAJournal → (bodies : List (List ℕ)) → Follow bodies (drop place ((G.state outside.old).files window.old.file)) → ⊥ }
    ensures file { window.new.file ≡ window.old.file }
    ensures shows { G.tells → Shows window.new ((G.state outside.old).files window.old.file) }
    ensures reads { G.tells → OnlyReads (G.state outside.old) (G.state outside.new) }
    ensures device { IsErrOf result JournalFault.Device → Rose (G.disk_faults outside.old) (G.disk_faults outside.new) }
    ensures quiet { result ≢ Err JournalFault.Device → G.disk_faults outside.new ≡ G.disk_faults outside.old }
    ensures later { G.disk_faults outside.old ≤ G.disk_faults outside.new }
    ensures tell_faults { G.tell_faults outside.new ≡ G.tell_faults outside.old }
{
    match read_head(outside, window, place, size)? {
        None => Ok(None),
        Some(len) => Ok(Some(read_body(alloc, outside, window, place + 5, len)?)),
    }
}

// The length behind a gate.
fn body_length(head: [u8; 5]) -> u32
    ensures bytes { to_be_bytes w32 result ≡ drop 1 head }
    ensures length { result ≡ from_be_bytes w32 (drop 1 head) }
{
    u32::from_be_bytes([head[1], head[2], head[3], head[4]])
}

// A body may have this length, and so many bytes hold the record and the next gate.
fn has_room(len: u32, rest: u64) -> bool
    ensures { IsTrue result ↔ HasRoom len rest }
{
    len >= 1 && len <= MOST_BODY && u64::from(len) + 6 <= rest
}
