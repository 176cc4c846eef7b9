//! How many ands criteria have as an or of ands.
ghost use Rattle.std.specs.Prelude.{◌≡◌, min};
ghost use Rattle.std.specs.List.{list_any};
ghost use Rattle.arti_query_model.specs.Cases.{cases, product_of_cases, sum_of_cases, leaves_choice, is_joined, some_joined};
ghost use Rattle.arti_query_model.specs.Typed as typed;
ghost use Rattle.arti_aql_domains.specs.Conditions.{cond_view, conds_view};

use crate::cond::Cond;
use arti_query_model::Rel;

// A count that is more than may be stands still here.
const MANY: u64 = 4097;

#[cycle(cases)]
fn cases(cond: &Cond) -> u64
    ensures { result ≡ min 4097 (cases (cond_view cond.now)) }
{
    match cond {
        Cond::All(parts) => product_of_cases(parts.as_slice()),
        Cond::Any(parts) => sum_of_cases(parts.as_slice()),
        _ => 1,
    }
}

#[cycle(cases)]
fn product_of_cases(parts: &[Cond]) -> u64
    ensures { result ≡ min 4097 (product_of_cases (conds_view parts.now)) }
{
    let mut product = 1;
    for part in parts {
        product = MANY.min(product * cases(part));
    }
    product
}

#[cycle(cases)]
fn sum_of_cases(parts: &[Cond]) -> u64
    ensures { result ≡ min 4097 (sum_of_cases (conds_view parts.now)) }
{
    let mut sum = 0;
    for part in parts {
        sum = MANY.min(sum + cases(part));
    }
    sum
}

fn leaves_choice(path: &[Rel]) -> bool
    ensures { result ≡ list_any leaves_choice path.now }
{
    path.iter()
        .any(|rel| !matches!(rel, Rel::Property | Rel::Stat))
}

#[cycle(joined)]
fn is_joined(cond: &Cond) -> bool
    ensures { result ≡ is_joined (cond_view cond.now) }
{
    match cond {
        Cond::All(parts) | Cond::Any(parts) => some_joined(parts.as_slice()),
        Cond::Same(path, _) | Cond::Field(path, _, _) | Cond::Pair(path, _) => leaves_choice(
            path.as_slice(),
        ),
    }
}

#[cycle(joined)]
fn some_joined(parts: &[Cond]) -> bool
    ensures { result ≡ some_joined (conds_view parts.now) }
{
    for part in parts {
        if is_joined(part) {
            return true;
        }
    }
    false
}

/// Whether criteria over related rows have more ands than may be.
pub fn has_too_many_cases(cond: &Cond) -> bool
    ensures { result ≡ typed.has_too_many_cases (cond_view cond.now) }
{
    is_joined(cond) && cases(cond) >= MANY
}
