//! A whole query, typed.
ghost use Rattle.std.specs.Prelude.{◌≡◌, ◌≢◌, [], Ok, Err, IfOk, IfErr};
ghost use Rattle.std.specs.Option.{unwrap_or};
ghost use Rattle.arti_query_model.specs.declared.fault.TypeFault.TheVariants.{Memory};
ghost use Rattle.arti_query_model.specs.Typed as typed;
ghost use Rattle.arti_aql_parse.specs.View.{view};
ghost use Rattle.arti_aql_domains.specs.Conditions.{root_rel, typed_view};

use crate::cases::has_too_many_cases;
use crate::cond::Typed;
use crate::criteria::type_criteria;
use crate::faults::no_domain;
use crate::sorting::{type_shown, type_sort};
use crate::table::same;
use arti_aql_parse::Query;
use arti_query_model::{Rel, TypeFault};
use arti_rows::{Moment, Seq, Text};
use std::alloc::Global;

// Whether builds are found, not items.
#[tactic(auto, unfolding(arti_query_model::specs::Typed::root_of))]
fn finds_builds(alloc: Global, domain: &str) -> Result<bool, TypeFault>
    ensures found { IfOk result (λ builds. typed.root_of domain.now ≡ Ok (root_rel builds)) }
    ensures refused { IfErr result (λ f. f ≢ Memory → typed.root_of domain.now ≡ Err f) }
{
    if same(domain, "items") {
        Ok(false)
    } else if same(domain, "builds") {
        Ok(true)
    } else {
        Err(no_domain(alloc, domain))
    }
}

fn root_rel(builds: bool) -> Rel
    ensures { result ≡ root_rel builds }
{
    if builds { Rel::Build } else { Rel::Item }
}

fn includes_of(include: &Option<Seq<Text>>) -> &[Text]
    ensures { result.now ≡ unwrap_or include.now [] }
{
    match include {
        Some(texts) => texts.as_slice(),
        None => &[],
    }
}

/// What a query means at the moment of its request, or its first fault: the domain, the tests from left to right, what is
/// included, what is sorted by, and the number of cases.
#[tactic(auto, unfolding(arti_query_model::specs::Typed::typed_query))]
pub fn type_query(alloc: Global, query: &Query, now: Moment) -> Result<Typed, TypeFault>
    ensures typed { IfOk result (λ t. typed.typed_query (view query.now) now ≡ Ok (typed_view t)) }
    ensures refused { IfErr result (λ f. f ≢ Memory → typed.typed_query (view query.now) now ≡ Err f) }
{
    let builds = finds_builds(alloc, query.domain.as_str())?;
    let root = root_rel(builds);
    let cond = type_criteria(alloc, root, now, query.find.as_slice())?;
    let includes = includes_of(&query.include);
    let shown = type_shown(alloc, root, includes)?;
    let sort = type_sort(alloc, root, includes, &query.sort)?;
    if has_too_many_cases(&cond) {
        return Err(TypeFault::TooManyCases);
    }
    Ok(Typed {
        builds,
        cond,
        shown,
        sort,
        offset: query.offset.unwrap_or(0),
        limit: query.limit,
    })
}
