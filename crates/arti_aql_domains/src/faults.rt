//! Faults that name what a query names.
ghost use Rattle.std.specs.Prelude.{◌≡◌, ◌≢◌};
ghost use Rattle.arti_query_model.specs.declared.fault.TypeFault.TheVariants.{Memory, NoDomain, NoField, WrongOperator, BadValue, PathTooLong, SortNotShown};

use arti_query_model::TypeFault;
use arti_rows::Text;
use std::alloc::Global;

pub fn no_domain(alloc: Global, name: &str) -> TypeFault
    ensures { result ≢ Memory → result ≡ NoDomain name.now }
{
    match Text::from_str(alloc, name) {
        Ok(name) => TypeFault::NoDomain(name),
        Err(_) => TypeFault::Memory,
    }
}

pub fn no_field(alloc: Global, path: &str) -> TypeFault
    ensures { result ≢ Memory → result ≡ NoField path.now }
{
    match Text::from_str(alloc, path) {
        Ok(path) => TypeFault::NoField(path),
        Err(_) => TypeFault::Memory,
    }
}

pub fn wrong_operator(alloc: Global, path: &str) -> TypeFault
    ensures { result ≢ Memory → result ≡ WrongOperator path.now }
{
    match Text::from_str(alloc, path) {
        Ok(path) => TypeFault::WrongOperator(path),
        Err(_) => TypeFault::Memory,
    }
}

pub fn bad_value(alloc: Global, path: &str) -> TypeFault
    ensures { result ≢ Memory → result ≡ BadValue path.now }
{
    match Text::from_str(alloc, path) {
        Ok(path) => TypeFault::BadValue(path),
        Err(_) => TypeFault::Memory,
    }
}

pub fn path_too_long(alloc: Global, path: &str) -> TypeFault
    ensures { result ≢ Memory → result ≡ PathTooLong path.now }
{
    match Text::from_str(alloc, path) {
        Ok(path) => TypeFault::PathTooLong(path),
        Err(_) => TypeFault::Memory,
    }
}

pub fn sort_not_shown(alloc: Global, name: &str) -> TypeFault
    ensures { result ≢ Memory → result ≡ SortNotShown name.now }
{
    match Text::from_str(alloc, name) {
        Ok(name) => TypeFault::SortNotShown(name),
        Err(_) => TypeFault::Memory,
    }
}
