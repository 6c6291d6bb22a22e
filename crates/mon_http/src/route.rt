//! What is served at which request target.

ghost use Rattle.std.specs.Prelude.{◌≡◌, ◌≤◌, ◌+◌, IsTrue, length};
ghost use Rattle.mon_http.specs.Route.{authority_of, before, by_format, is_absolute, origin_form, path_of, route_at};

use http1::text::eq_ignore_case;

/// What is served.
#[derive(Clone, Copy, Debug, PartialEq, Eq)]
pub enum Route {
    /// `/metrics`: figures in Prometheus' text format, version 0.0.4.
    Metrics,
    /// `/metrics`: figures in OpenMetrics 1.0, if the request accepts it.
    OpenMetrics,
    /// `/report.json`: the report as JSON.
    Report,
    /// `/`: the page for a browser.
    Page,
    /// `/healthz`: whether rounds end in time.
    Health,
}

/// Returns the octets before the first that is `a` or `b`.
pub(crate) fn before(octets: &[u8], a: u8, b: u8) -> &[u8]
    ensures text { result.now ≡ before a b octets.now }
    ensures within { length result.now ≤ length octets.now }
{
    let mut end = 0;
    while end < octets.len() && octets[end] != a && octets[end] != b {
        end += 1;
    }
    &octets[..end]
}

/// Returns `true` if the target is in absolute form: it begins with the scheme, in any case.
pub(crate) fn is_absolute(target: &[u8]) -> bool
    ensures absolute { result ≡ is_absolute target.now }
    ensures long { IsTrue result → 7 ≤ length target.now }
{
    target.len() >= 7 && eq_ignore_case(&target[..7], b"http://")
}

/// Returns the authority of a target in absolute form.
pub(crate) fn authority_of(target: &[u8]) -> &[u8]
    requires { 7 ≤ length target.now }
    ensures text { result.now ≡ authority_of target.now }
    ensures within { 7 + length result.now ≤ length target.now }
{
    before(&target[7..], b'/', b'?')
}

/// Returns the target without a scheme and authority, if it has them (RFC 9112, section 3.2.2).
fn origin_form(target: &[u8]) -> &[u8]
    ensures { result.now ≡ origin_form target.now }
{
    if !is_absolute(target) {
        return target;
    }
    let rest = &target[7 + authority_of(target).len()..];
    if rest.starts_with(b"/") { rest } else { b"/" }
}

/// Returns the route, where the figures are in OpenMetrics if the request accepts it.
pub(crate) fn by_format(open_metrics: bool, route: Route) -> Route
    ensures { result ≡ by_format open_metrics route }
{
    match route {
        Route::Metrics if open_metrics => Route::OpenMetrics,
        _ => route,
    }
}

/// Returns the route of a request target, or `None` if nothing is served there. Its query does not
/// matter (RFC 3986, section 3.4).
#[tactic(auto, unfolding(crate::specs::Route::route_at))]
pub(crate) fn route_of(target: &[u8]) -> Option<Route>
    ensures { result ≡ route_at (path_of target.now) }
{
    let path = before(origin_form(target), b'?', b'?');
    if path == b"/metrics".as_slice() {
        Some(Route::Metrics)
    } else if path == b"/report.json".as_slice() {
        Some(Route::Report)
    } else if path == b"/".as_slice() {
        Some(Route::Page)
    } else if path == b"/healthz".as_slice() {
        Some(Route::Health)
    } else {
        None
    }
}
