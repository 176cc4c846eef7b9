// Which definitions were met.
ghost use Rattle.std.specs.Prelude.{◌≡◌, ◌<◌, true, false, length, All, IfOk, MatchOption, get_or, slice_set, vec_len};
ghost use Rattle.arti_repos.specs.Definitions.{InOrder};
ghost use Rattle.arti_repos.specs.Met.{IsOld, Meets};

use crate::definitions::place_of;
use arti_rows::RepoDef;
use std::alloc::{AllocError, Global};

/// None was met, of so many.
pub(crate) fn none_met(alloc: Global, count: usize) -> Result<Vec<bool>, AllocError>
    ensures count { IfOk result (λ v. length v.items ≡ count) }
    ensures none { IfOk result (λ v. All (λ b. b ≡ false) v.items) }
{
    let mut met = Vec::with_capacity(alloc, count)?;
    for place in 0..count {
        met.push(false)?;
    }
    Ok(met)
}

/// The definition of a key, where it is met for the first time.
pub(crate) fn meet<'a>(
    definitions: &'a [RepoDef],
    met: &mut Vec<bool>,
    key: &str,
) -> Option<&'a RepoDef>
    requires order { InOrder definitions.now }
    requires count { length met.old.items ≡ length definitions.now }
    ensures count { length met.new.items ≡ length definitions.now }
    ensures meets { MatchOption result (IsOld definitions.now met.old.items key.now × (met.new.items ≡ met.old.items)) (λ d. Meets definitions.now met.old.items key.now d.now met.new.items) }
{
    match place_of(definitions, key) {
        Ok(at) => meet_at(definitions, met, at),
        Err(_) => None,
    }
}

fn meet_at<'a>(definitions: &'a [RepoDef], met: &mut Vec<bool>, at: usize) -> Option<&'a RepoDef>
    requires within { at < length definitions.now }
    requires count { length met.old.items ≡ length definitions.now }
    ensures { MatchOption result ((get_or met.old.items at false ≡ true) × (met.new.items ≡ met.old.items)) (λ d. (get_or met.old.items at true ≡ false) × (met.new.items ≡ slice_set met.old.items at true) × (d.now ≡ get_or definitions.now at d.now)) }
{
    if met[at] {
        return None;
    }
    met[at] = true;
    Some(&definitions[at])
}
