// The routes of requests, by method and path.
ghost use Rattle.std.specs.Prelude.{◌≡◌, ◌||◌, [], ◌∷◌, drop, codes, if◌then◌else◌};
ghost use Rattle.std.specs.List.{slice_split, find};
ghost use Rattle.arti_model.specs.Targets.{same_text, is_slash};
ghost use Rattle.arti_model.specs.Asks.{fits, segment, ends_empty, route_among, route_read, route_by, has_path, storage_methods, repository_methods, item_methods, api_forms, one};
ghost use Rattle.arti_model.specs.declared.asks.Route.TheVariants as route;

use arti_model::Route;
use arti_rows::{Refusal, Text};
use http::Method;

// Whether the method is that one.
fn is(method: &str, wanted: &Method) -> bool
    ensures { result ≡ same_text wanted.now method.now }
{
    wanted.as_str() == method
}

// Whether the segments fit the pieces of a path: `*` stands for a segment, `**` for one or more.
fn fits(path: &str, segments: &[Text]) -> bool
    ensures { result ≡ fits (slice_split is_slash path.now) segments.now }
{
    let mut path = path;
    let mut left = segments;
    'pieces: loop {
        match left.split_first() {
            None => return false,
            Some((segment, others)) => match path.split_once('/') {
                None => return ends(path, segment.as_str(), others),
                Some((piece, behind)) => {
                    if piece == "**" {
                        return true;
                    }
                    if !takes(piece, segment.as_str()) {
                        return false;
                    }
                    path = behind;
                    left = others;
                }
            },
        }
    }
}

// Whether a piece that isn't `**` stands for the segment.
fn takes(piece: &str, segment: &str) -> bool
    ensures { result ≡ (same_text piece.now (codes "*") || same_text piece.now segment.now) }
{
    piece == "*" || piece == segment
}

// Whether the last piece of a path stands for the segment and the others.
fn ends(piece: &str, segment: &str, others: &[Text]) -> bool
    ensures { result ≡ fits (piece.now ∷ []) (segment.now ∷ others.now) }
{
    piece == "**" || (takes(piece, segment) && others.is_empty())
}

// The only method of a path.
fn only(method: &str, wanted: &Method, route: Route) -> Result<Route, Refusal>
    ensures { result ≡ route_among method.now (one wanted.now route) }
{
    if is(method, wanted) {
        return Ok(route);
    }
    Err(Refusal::NoMethod)
}

// The methods under `api/storage`.
fn storage_route(method: &str) -> Result<Route, Refusal>
    ensures { result ≡ route_among method.now storage_methods }
{
    if is(method, &Method::GET) {
        return Ok(Route::Info);
    }
    if is(method, &Method::PUT) {
        return Ok(Route::SetProps);
    }
    only(method, &Method::DELETE, Route::DropProps)
}

// The methods of a repository.
fn repository_route(method: &str) -> Result<Route, Refusal>
    ensures { result ≡ route_among method.now repository_methods }
{
    if is(method, &Method::PUT) {
        return Ok(Route::Define);
    }
    if is(method, &Method::POST) {
        return Ok(Route::Redefine);
    }
    only(method, &Method::GET, Route::GetRepo)
}

// What a `PUT` of an item's path asks.
fn put_route(slash: bool) -> Route
    ensures { result ≡ (if slash then route.Folder else route.Deploy) }
{
    if slash { Route::Folder } else { Route::Deploy }
}

// The methods of an item's path, which may end in a slash.
fn item_route(method: &str, slash: bool) -> Result<Route, Refusal>
    ensures { result ≡ route_among method.now (item_methods slash) }
{
    if is(method, &Method::PUT) {
        return Ok(put_route(slash));
    }
    if is(method, &Method::GET) {
        return Ok(Route::Fetch);
    }
    if is(method, &Method::HEAD) {
        return Ok(Route::Head);
    }
    only(method, &Method::DELETE, Route::Delete)
}

// The route of a path under `api` that concerns builds.
fn build_route(method: &str, segments: &[Text]) -> Result<Route, Refusal>
    ensures { result ≡ route_by method.now (find (has_path segments.now) (drop 6 api_forms)) }
{
    if fits("api/build", segments) {
        return only(method, &Method::PUT, Route::PutBuild);
    }
    if fits("api/build/*", segments) {
        return only(method, &Method::DELETE, Route::DropBuilds);
    }
    if fits("api/build/*/*", segments) {
        return only(method, &Method::GET, Route::GetBuild);
    }
    if fits("api/build/promote/*/*", segments) {
        return only(method, &Method::POST, Route::Promote);
    }
    search_route(method, segments)
}

// The route of a path under `api` that searches.
fn search_route(method: &str, segments: &[Text]) -> Result<Route, Refusal>
    ensures { result ≡ route_by method.now (find (has_path segments.now) (drop 10 api_forms)) }
{
    if fits("api/search/aql", segments) {
        return only(method, &Method::POST, Route::Aql);
    }
    if fits("api/arti/spec", segments) {
        return only(method, &Method::POST, Route::Spec);
    }
    Err(Refusal::NoRoute)
}

// The route of a path under `api` that concerns repositories or the system.
fn system_route(method: &str, segments: &[Text]) -> Result<Route, Refusal>
    ensures { result ≡ route_by method.now (find (has_path segments.now) (drop 3 api_forms)) }
{
    if fits("api/repositories/*", segments) {
        return repository_route(method);
    }
    if fits("api/repositories", segments) {
        return only(method, &Method::GET, Route::ListRepos);
    }
    if fits("api/system/ping", segments) {
        return only(method, &Method::GET, Route::Ping);
    }
    build_route(method, segments)
}

// The route of a path whose first segment is `api`.
fn api_route(method: &str, segments: &[Text]) -> Result<Route, Refusal>
    ensures { result ≡ route_by method.now (find (has_path segments.now) api_forms) }
{
    if fits("api/storage/*/**", segments) {
        return storage_route(method);
    }
    if fits("api/copy/*/**", segments) {
        return only(method, &Method::POST, Route::Copy);
    }
    if fits("api/move/*/**", segments) {
        return only(method, &Method::POST, Route::Move);
    }
    system_route(method, segments)
}

/// The segment of that number, from 0; behind the last one it is empty.
pub fn segment(segments: &[Text], n: usize) -> &str
    ensures { result.now ≡ segment segments.now n }
{
    match segments.get(n) {
        Some(segment) => segment.as_str(),
        None => "",
    }
}

/// Whether the path ends in a slash: its last segment is empty.
pub fn ends_empty(segments: &[Text]) -> bool
    ensures { result ≡ ends_empty segments.now }
{
    match segments.last() {
        Some(last) => last.as_str().is_empty(),
        None => false,
    }
}

/// The route of a method and a path's segments.
pub fn route_of(method: &str, segments: &[Text]) -> Result<Route, Refusal>
    ensures { result ≡ route_read method.now segments.now }
{
    if segment(segments, 0) == "api" {
        return api_route(method, segments);
    }
    if fits("*/**", segments) {
        return item_route(method, ends_empty(segments));
    }
    Err(Refusal::NoRoute)
}
