// Replies are told.
ghost use Rattle.std.specs.Prelude.{◌≡◌, ◌≢◌, ◌++◌, ℕ, List, OnOk, IfErr, IsErrOf, Err};
ghost use Rattle.arti_ground.specs.State.{LeavesDisk, Passes};
ghost use Rattle.arti_service.specs.Faults.{CountsTold};
ghost use Rattle.arti_model.specs.Run.{memory_reply};
ghost use Rattle.arti_service.specs.Cuts.{StopsTelling};
ghost use Rattle.arti_service.specs.Moments.{Telling};

use crate::answering::Stop;
use arti_ground::{Failed, Ground};

/// The whole reply to a query that found too little memory; it needs none.
pub const MEMORY_REPLY: [u8; 136] =
    *b"HTTP/1.1 500 Internal Server Error\r\nContent-Type: application/json\r\nContent-Length: 46\r\n\r\n{\"errors\":[{\"status\":500,\"message\":\"Memory\"}]}";

/// Tells a reply.
pub fn tell<G: Ground>(ground: &mut G, line: u32, reply: &[u8]) -> Result<(), Stop>
    ensures told { G.tells → OnOk result ((G.state ground.new).told line ≡ (G.state ground.old).told line ++ reply.now) }
    ensures stops { G.tells → IfErr result (λ stop. StopsTelling stop reply.now ((G.state ground.old).told line) ((G.state ground.new).told line)) }
    ensures time { G.tells → Passes (G.state ground.old) (G.state ground.new) (Telling (G.state ground.old) line reply.now) }
    ensures tell { CountsTold line (G.tell_faults ground.old) (G.tell_faults ground.new) (IsErrOf result Stop.Tell) }
    ensures no_memory { result ≢ Err Stop.Memory }
    ensures no_disk { result ≢ Err Stop.Disk }
    ensures disk { G.disk_faults ground.new ≡ G.disk_faults ground.old }
    ensures leaves { G.tells → LeavesDisk (G.state ground.old) (G.state ground.new) }
{
    match ground.tell(line, reply) {
        Err(Failed) => Err(Stop::Tell),
        Ok(()) => Ok(()),
    }
}

/// Tells the two parts of one reply, in one write where the second is empty.
pub fn tell_parts<G: Ground>(
    ground: &mut G,
    line: u32,
    first: &[u8],
    second: &[u8],
) -> Result<(), Stop>
    ensures told { G.tells → OnOk result ((G.state ground.new).told line ≡ (G.state ground.old).told line ++ (first.now ++ second.now)) }
    ensures stops { G.tells → IfErr result (λ stop. StopsTelling stop (first.now ++ second.now) ((G.state ground.old).told line) ((G.state ground.new).told line)) }
    ensures time { G.tells → Passes (G.state ground.old) (G.state ground.new) (Telling (G.state ground.old) line (first.now ++ second.now)) }
    ensures tell { CountsTold line (G.tell_faults ground.old) (G.tell_faults ground.new) (IsErrOf result Stop.Tell) }
    ensures no_memory { result ≢ Err Stop.Memory }
    ensures no_disk { result ≢ Err Stop.Disk }
    ensures disk { G.disk_faults ground.new ≡ G.disk_faults ground.old }
    ensures leaves { G.tells → LeavesDisk (G.state ground.old) (G.state ground.new) }
{
    if second.is_empty() {
        return tell(ground, line, first);
    }
    match tell(ground, line, first) {
        Err(stop) => Err(stop),
        Ok(()) => tell(ground, line, second),
    }
}

/// Tells that a request that only reads found too little memory.
pub fn tell_memory<G: Ground>(ground: &mut G, line: u32) -> Result<(), Stop>
    ensures told { G.tells → OnOk result ((G.state ground.new).told line ≡ (G.state ground.old).told line ++ memory_reply) }
    ensures stops { G.tells → IfErr result (λ stop. StopsTelling stop memory_reply ((G.state ground.old).told line) ((G.state ground.new).told line)) }
    ensures time { G.tells → Passes (G.state ground.old) (G.state ground.new) (Telling (G.state ground.old) line memory_reply) }
    ensures tell { CountsTold line (G.tell_faults ground.old) (G.tell_faults ground.new) (IsErrOf result Stop.Tell) }
    ensures no_memory { result ≢ Err Stop.Memory }
    ensures no_disk { result ≢ Err Stop.Disk }
    ensures disk { G.disk_faults ground.new ≡ G.disk_faults ground.old }
    ensures leaves { G.tells → LeavesDisk (G.state ground.old) (G.state ground.new) }
{
    tell(ground, line, &MEMORY_REPLY)
}
