//! Criteria on a row by itself.
ghost use Rattle.std.specs.Prelude.{◌≡◌, ◌↔◌, true};
ghost use Rattle.arti_query_model.specs.Criteria.{truth, all_true, one_true};
ghost use Rattle.arti_query_model.specs.World.{HoldsFor};
ghost use Rattle.arti_aql_domains.specs.RowValues.{row_world};
ghost use Rattle.arti_aql_domains.specs.Conditions.{cond_view, conds_view};
ghost use Rattle.arti_aql_domains.specs.Alone.{is_root_path, is_alone, are_alone, tested, this_row, Related};

use crate::cond::Cond;
use crate::held::Row;
use crate::owned::{pair_holds, same_holds};
use crate::tested::meets;
use arti_query_model::Rel;

#[cycle(holds)]
fn holds(cond: &Cond, row: &Row<'_>) -> bool
    ensures { result ≡ truth tested (this_row row.now) (cond_view cond.now) }
{
    match cond {
        Cond::All(parts) => all_hold(parts.as_slice(), row),
        Cond::Any(parts) => one_holds(parts.as_slice(), row),
        Cond::Same(_, tests) => same_holds(tests.as_slice(), row.properties()),
        Cond::Field(_, field, test) => meets(&row.value(*field), test),
        Cond::Pair(_, test) => pair_holds(test, row.properties()),
    }
}

#[cycle(holds)]
fn all_hold(parts: &[Cond], row: &Row<'_>) -> bool
    ensures { result ≡ all_true tested (this_row row.now) (conds_view parts.now) }
{
    for part in parts {
        if !holds(part, row) {
            return false;
        }
    }
    true
}

#[cycle(holds)]
fn one_holds(parts: &[Cond], row: &Row<'_>) -> bool
    ensures { result ≡ one_true tested (this_row row.now) (conds_view parts.now) }
{
    for part in parts {
        if holds(part, row) {
            return true;
        }
    }
    false
}

fn is_root_path(path: &[Rel]) -> bool
    ensures { result ≡ is_root_path path.now }
{
    path.is_empty()
}

/// Whether criteria speak of the root's own fields and properties alone.
#[cycle(alone)]
pub fn is_alone(cond: &Cond) -> bool
    ensures { result ≡ is_alone (cond_view cond.now) }
{
    match cond {
        Cond::All(parts) | Cond::Any(parts) => are_alone(parts.as_slice()),
        Cond::Same(path, _) | Cond::Field(path, _, _) | Cond::Pair(path, _) => {
            is_root_path(path.as_slice())
        }
    }
}

#[cycle(alone)]
fn are_alone(parts: &[Cond]) -> bool
    ensures { result ≡ are_alone (conds_view parts.now) }
{
    for part in parts {
        if !is_alone(part) {
            return false;
        }
    }
    true
}

/// Whether criteria hold for a row, of whose own fields and properties alone they speak. Whatever rows are related to it, there
/// is nothing to choose.
pub fn test(cond: &Cond, row: &Row<'_>) -> bool
    requires alone { is_alone (cond_view cond.now) ≡ true }
    ensures holds { (related : Related) → (result ≡ true) ↔ HoldsFor (row_world related) (cond_view cond.now) row.now }
{
    holds(cond, row)
}
