//! Faults that name a member.
ghost use Rattle.std.specs.Prelude.{◌≡◌, ◌≢◌};

use arti_json::JsonFault;
use arti_rows::Text;
use std::alloc::Global;

pub fn missing(alloc: Global, name: &str) -> JsonFault
    ensures { result ≢ JsonFault.Memory → result ≡ JsonFault.Missing name.now }
{
    match Text::from_str(alloc, name) {
        Ok(name) => JsonFault::Missing(name),
        Err(_) => JsonFault::Memory,
    }
}

pub fn wrong_kind(alloc: Global, name: &str) -> JsonFault
    ensures { result ≢ JsonFault.Memory → result ≡ JsonFault.WrongKind name.now }
{
    match Text::from_str(alloc, name) {
        Ok(name) => JsonFault::WrongKind(name),
        Err(_) => JsonFault::Memory,
    }
}

pub fn too_long(alloc: Global, name: &str) -> JsonFault
    ensures { result ≢ JsonFault.Memory → result ≡ JsonFault.TooLong name.now }
{
    match Text::from_str(alloc, name) {
        Ok(name) => JsonFault::TooLong(name),
        Err(_) => JsonFault::Memory,
    }
}
