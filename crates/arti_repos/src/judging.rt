// Why a definition is refused: the first reason in this order.
ghost use Rattle.std.specs.Prelude.{◌≡◌, ◌≢◌, true, false, None, Some, IfOk, IfErr, OnOk};
ghost use Rattle.arti_rows.specs.declared.rows.Class.TheVariants.{Local, Remote};
ghost use Rattle.arti_repos.specs.Definitions.{InOrder, is_of, same_class, is_defined};
ghost use Rattle.arti_repos.specs.Ranks.{IsAcyclic};
ghost use Rattle.arti_repos.specs.Refused.{is_taken, is_cache_taken, is_unknown, key_fault, class_fault, member_fault, cycle_fault, default_fault, local_fault, count_fault, define_fault};

use crate::RepoFault;
use crate::chain::chain_back;
use crate::definitions::{cached_by, find};
use crate::walking::cache_key;
use arti_rows::{Class, RepoDef, Text};
use std::alloc::Global;

/// The first fault of a definition among these.
pub(crate) fn judge(
    alloc: Global,
    definitions: &[RepoDef],
    def: &RepoDef,
    update: bool,
    limit: u32,
) -> Result<(), RepoFault>
    requires order { InOrder definitions.now }
    requires acyclic { IsAcyclic definitions.now }
    ensures ok { OnOk result (define_fault definitions.now def.now update limit ≡ None) }
    ensures fault { IfErr result (λ e. e ≢ RepoFault.Memory → define_fault definitions.now def.now update limit ≡ Some e) }
{
    judge_key(alloc, definitions, def, update)?;
    judge_class(definitions, def)?;
    judge_members(definitions, def)?;
    judge_chain(alloc, definitions, def)?;
    judge_default(definitions, def)?;
    judge_count(definitions, def, limit)
}

fn is_defined(definitions: &[RepoDef], key: &str) -> bool
    requires { InOrder definitions.now }
    ensures { result ≡ is_defined definitions.now key.now }
{
    find(definitions, key).is_some()
}

// A new key isn't taken, nor is that of its cache; one to be replaced is there.
fn judge_key(
    alloc: Global,
    definitions: &[RepoDef],
    def: &RepoDef,
    update: bool,
) -> Result<(), RepoFault>
    requires { InOrder definitions.now }
    ensures ok { OnOk result (key_fault definitions.now def.now update ≡ None) }
    ensures fault { IfErr result (λ e. e ≢ RepoFault.Memory → key_fault definitions.now def.now update ≡ Some e) }
{
    if update {
        judge_old(definitions, def)
    } else {
        judge_new(alloc, definitions, def)
    }
}

fn judge_old(definitions: &[RepoDef], def: &RepoDef) -> Result<(), RepoFault>
    requires { InOrder definitions.now }
    ensures ok { OnOk result (key_fault definitions.now def.now true ≡ None) }
    ensures fault { IfErr result (λ e. e ≢ RepoFault.Memory → key_fault definitions.now def.now true ≡ Some e) }
{
    if is_defined(definitions, def.key.as_str()) {
        return Ok(());
    }
    Err(RepoFault::NoRepo(def.key.clone()?))
}

fn judge_new(alloc: Global, definitions: &[RepoDef], def: &RepoDef) -> Result<(), RepoFault>
    requires { InOrder definitions.now }
    ensures ok { OnOk result (key_fault definitions.now def.now false ≡ None) }
    ensures fault { IfErr result (λ e. e ≢ RepoFault.Memory → key_fault definitions.now def.now false ≡ Some e) }
{
    if is_taken(definitions, def.key.as_str()) || is_cache_taken(alloc, definitions, def)? {
        return Err(RepoFault::Taken(def.key.clone()?));
    }
    Ok(())
}

fn is_taken(definitions: &[RepoDef], key: &str) -> bool
    requires { InOrder definitions.now }
    ensures { result ≡ is_taken definitions.now key.now }
{
    is_defined(definitions, key) || cached_by(definitions, key).is_some()
}

// Whether the key that a remote's cache would have is taken.
fn is_cache_taken(alloc: Global, definitions: &[RepoDef], def: &RepoDef) -> Result<bool, RepoFault>
    requires { InOrder definitions.now }
    ensures ok { IfOk result (λ taken. taken ≡ is_cache_taken definitions.now def.now) }
    ensures memory { IfErr result (λ e. e ≡ RepoFault.Memory) }
{
    match def.class {
        Class::Remote => {
            let cache = cache_key(alloc, def.key.as_str())?;
            Ok(is_taken(definitions, cache.as_str()))
        }
        _ => Ok(false),
    }
}

fn judge_class(definitions: &[RepoDef], def: &RepoDef) -> Result<(), RepoFault>
    requires { InOrder definitions.now }
    ensures ok { OnOk result (class_fault definitions.now def.now ≡ None) }
    ensures fault { IfErr result (λ e. class_fault definitions.now def.now ≡ Some e) }
{
    match find(definitions, def.key.as_str()) {
        None => Ok(()),
        Some(old) => keep_class(old.class, def.class),
    }
}

fn keep_class(old: Class, new: Class) -> Result<(), RepoFault>
    ensures ok { OnOk result (same_class old new ≡ true) }
    ensures fault { IfErr result (λ e. (same_class old new ≡ false) × (e ≡ RepoFault.ClassChange)) }
{
    match (old, new) {
        (Class::Local, Class::Local) => Ok(()),
        (Class::Remote, Class::Remote) => Ok(()),
        (Class::Virtual, Class::Virtual) => Ok(()),
        _ => Err(RepoFault::ClassChange),
    }
}

// The definition's own key passes here: that it leads back to itself is another fault.
fn judge_members(definitions: &[RepoDef], def: &RepoDef) -> Result<(), RepoFault>
    requires { InOrder definitions.now }
    ensures ok { OnOk result (member_fault definitions.now def.now ≡ None) }
    ensures fault { IfErr result (λ e. e ≢ RepoFault.Memory → member_fault definitions.now def.now ≡ Some e) }
{
    for member in def.members.as_slice() {
        if is_unknown(definitions, def, member.as_str()) {
            return Err(RepoFault::UnknownMember(member.clone()?));
        }
    }
    Ok(())
}

fn is_unknown(definitions: &[RepoDef], def: &RepoDef, member: &str) -> bool
    requires { InOrder definitions.now }
    ensures { result ≡ is_unknown definitions.now def.now member.now }
{
    !is_defined(definitions, member) && member != def.key.as_str()
}

fn judge_chain(alloc: Global, definitions: &[RepoDef], def: &RepoDef) -> Result<(), RepoFault>
    requires order { InOrder definitions.now }
    requires acyclic { IsAcyclic definitions.now }
    ensures ok { OnOk result (cycle_fault definitions.now def.now ≡ None) }
    ensures fault { IfErr result (λ e. e ≢ RepoFault.Memory → cycle_fault definitions.now def.now ≡ Some e) }
{
    match chain_back(alloc, definitions, def)? {
        Some(chain) => Err(RepoFault::Cycle(chain)),
        None => Ok(()),
    }
}

fn judge_default(definitions: &[RepoDef], def: &RepoDef) -> Result<(), RepoFault>
    requires { InOrder definitions.now }
    ensures ok { OnOk result (default_fault definitions.now def.now.default_to ≡ None) }
    ensures fault { IfErr result (λ e. e ≢ RepoFault.Memory → default_fault definitions.now def.now.default_to ≡ Some e) }
{
    match &def.default_to {
        None => Ok(()),
        Some(key) => judge_local(definitions, key),
    }
}

fn judge_local(definitions: &[RepoDef], key: &Text) -> Result<(), RepoFault>
    requires { InOrder definitions.now }
    ensures ok { OnOk result (default_fault definitions.now (Some key.now) ≡ None) }
    ensures fault { IfErr result (λ e. e ≢ RepoFault.Memory → default_fault definitions.now (Some key.now) ≡ Some e) }
{
    match find(definitions, key.as_str()) {
        None => Err(RepoFault::UnknownMember(key.clone()?)),
        Some(found) if is_local(found) => Ok(()),
        Some(_) => Err(RepoFault::NotLocal(key.clone()?)),
    }
}

fn is_local(def: &RepoDef) -> bool
    ensures { result ≡ is_of Local def.now }
{
    match def.class {
        Class::Local => true,
        _ => false,
    }
}

fn judge_count(definitions: &[RepoDef], def: &RepoDef, limit: u32) -> Result<(), RepoFault>
    requires { InOrder definitions.now }
    ensures ok { OnOk result (count_fault definitions.now def.now limit ≡ None) }
    ensures fault { IfErr result (λ e. count_fault definitions.now def.now limit ≡ Some e) }
{
    if !is_defined(definitions, def.key.as_str()) && definitions.len() >= limit as usize {
        return Err(RepoFault::Full);
    }
    Ok(())
}
