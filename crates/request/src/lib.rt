// Both lists in order, and a message as a whole: the request with its fields, or the code of the first test that fails.
#![tactic(auto)]

ghost use Rattle.std.specs.Prelude.{◌≡◌, true, false, Err, ℕ, ◌≤◌, length};
ghost use Rattle.octets.specs.Lists.{every};
ghost use Rattle.message.specs.ReadingAMessage.{avps, header_code, origin_host, origin_realm, read, request_of, session_id, starts_with, user_name, walk_code};
ghost use Rattle.message.specs.Positions.{Gathered};
ghost use Rattle.message.specs.Spans.{BothRead, HeardOf, Holds, Listed, RoutesRead, has_proxies, is_inside, says, spans, policy_code, policy_of, rest_code, tunnel_code, tunnel_of};

use message::{Asked, Failure, Heard, Routes, Sender, Span, UserRequest, number_field, text_field};

// Whether the first AVP is Session-Id, in a message whose walk passed.
pub fn starts(m: &[u8]) -> bool
    requires { (20 ≤ length m.now) × (walk_code m.now ≡ 0) }
    ensures { result ≡ starts_with session_id (avps m.now) }
{
    if m.len() < 28 {
        return false;
    }
    if 128 <= m[24] {
        return false;
    }
    octets::read32(m, message::HEADER_LENGTH) == 263
}

// The first five fields, which both requests have.
pub fn first_five(m: &[u8], index: &[usize]) -> Result<Sender, Failure>
    requires { (20 ≤ length m.now) × (walk_code m.now ≡ 0) × Gathered m.now index.now }
    ensures { BothRead m.now result }
{
    if !starts(m) {
        return Err(Failure::MissingAvp);
    }
    let Some(session) = text_field(m, index, message::SESSION_ID, 1, message::TEXT_MOST)? else {
        return Err(Failure::MissingAvp);
    };
    let Some(_) = number_field(m, index, message::AUTH_APPLICATION_ID, 1, 1)? else {
        return Err(Failure::MissingAvp);
    };
    let Some(host) = text_field(m, index, message::ORIGIN_HOST, 1, message::TEXT_MOST)? else {
        return Err(Failure::MissingAvp);
    };
    let Some(realm) = text_field(m, index, message::ORIGIN_REALM, 1, message::TEXT_MOST)? else {
        return Err(Failure::MissingAvp);
    };
    let Some(_) = text_field(m, index, message::DESTINATION_REALM, 1, message::TEXT_MOST)? else {
        return Err(Failure::MissingAvp);
    };
    Ok(Sender {
        session,
        host,
        realm,
    })
}

// The end of a 265 of type 0: the W-APN, and policies that are tested and not used.
fn tunnel_end(
    m: &[u8],
    index: &[usize],
    user: Span,
    from: Sender,
    visited: bool,
    routes: Result<Option<Routes>, Failure>,
) -> Result<UserRequest, Failure>
    requires { (Gathered m.now index.now) × (Holds m.now user_name user) × (Holds m.now session_id from.session) × (Holds m.now origin_host from.host) × (Holds m.now origin_realm from.realm) }
    ensures { (most : ℕ) → RoutesRead most m.now routes
        → Listed m.now (tunnel_code most (avps m.now)) (tunnel_of visited (avps m.now)) result }
{
    let Some(label) = text_field(m, index, message::WLAN_APN_ID, 1, message::LABEL_MOST)? else {
        return Err(Failure::MissingAvp);
    };
    routes?;
    Ok(UserRequest {
        user,
        asked: Asked::Tunnel {
            session: from.session,
            host: from.host,
            realm: from.realm,
            label,
            visited,
        },
    })
}

// The end of a 265 of type 1: a W-APN that is tested and not used, and the policies.
fn policy_end(
    m: &[u8],
    index: &[usize],
    user: Span,
    session: Span,
    routes: Result<Option<Routes>, Failure>,
) -> Result<UserRequest, Failure>
    requires { (Gathered m.now index.now) × (Holds m.now user_name user) × (Holds m.now session_id session) }
    ensures { (most : ℕ) → RoutesRead most m.now routes
        → Listed m.now (policy_code most (avps m.now)) (policy_of (avps m.now)) result }
{
    text_field(m, index, message::WLAN_APN_ID, 1, message::LABEL_MOST)?;
    let brought = message::required(routes)?;
    Ok(UserRequest {
        user,
        asked: Asked::Policy {
            session,
            first: brought.first,
            second: brought.second,
            third: brought.third,
        },
    })
}

// The fields of a 265. The policies are read first, once for both of its types, and come last in the order of the tests.
fn list_265(m: &[u8], index: &[usize], from: Sender, most: usize) -> Result<UserRequest, Failure>
    requires { (Gathered m.now index.now) × (Holds m.now session_id from.session) × (Holds m.now origin_host from.host) × (Holds m.now origin_realm from.realm) × (20 ≤ length m.now) × (walk_code m.now ≡ 0) × (1 ≤ most) × (most ≤ 3) }
    ensures { Listed m.now (rest_code most 265 (avps m.now)) (request_of 265 (avps m.now)) result }
{
    let routes = message::routes_field(m, index, most);
    let Some(_) = number_field(m, index, message::AUTH_REQUEST_TYPE, 2, 2)? else {
        return Err(Failure::MissingAvp);
    };
    let Some(_) = text_field(m, index, message::DESTINATION_HOST, 1, message::TEXT_MOST)? else {
        return Err(Failure::MissingAvp);
    };
    let Some(user) = text_field(m, index, message::USER_NAME, 1, message::TEXT_MOST)? else {
        return Err(Failure::MissingAvp);
    };
    let Some(kind) = number_field(m, index, message::SESSION_REQUEST_TYPE, 0, 1)? else {
        return Err(Failure::MissingAvp);
    };
    let network = text_field(m, index, message::VISITED_NETWORK, 1, message::TEXT_MOST)?;
    let a = kind.at;
    let e = a + kind.len;
    if message::value32(&m[a..e]) == 0 {
        return tunnel_end(m, index, user, from, network.is_some(), routes);
    }
    policy_end(m, index, user, from.session, routes)
}

// The fields of a 275.
fn list_275(m: &[u8], index: &[usize], session: Span) -> Result<UserRequest, Failure>
    requires { (Gathered m.now index.now) × (Holds m.now session_id session) }
    ensures { (most : ℕ) → Listed m.now (rest_code most 275 (avps m.now)) (request_of 275 (avps m.now)) result }
{
    let Some(_) = number_field(m, index, message::TERMINATION_CAUSE, 1, 8)? else {
        return Err(Failure::MissingAvp);
    };
    let Some(_) = text_field(m, index, message::DESTINATION_HOST, 1, message::TEXT_MOST)? else {
        return Err(Failure::MissingAvp);
    };
    let Some(user) = text_field(m, index, message::USER_NAME, 1, message::TEXT_MOST)? else {
        return Err(Failure::MissingAvp);
    };
    let Some(label) = text_field(m, index, message::WLAN_APN_ID, 1, message::LABEL_MOST)? else {
        return Err(Failure::MissingAvp);
    };
    Ok(UserRequest {
        user,
        asked: Asked::Termination { session, label },
    })
}

// Whether the answer has a Proxy-Info to copy.
fn proxies_seen(m: &[u8], index: &[usize]) -> bool
    requires { (header_code m.now ≡ 0) × (walk_code m.now ≡ 0) × Gathered m.now index.now }
    ensures { result ≡ has_proxies m.now }
{
    index[message::PROXY_INFO] != 0
}

// Both lists, of a message whose header and walk passed.
fn lists(m: &[u8], index: &[usize], most: usize) -> Result<UserRequest, Failure>
    requires { (20 ≤ length m.now) × (header_code m.now ≡ 0) × (walk_code m.now ≡ 0) × (Gathered m.now index.now) × (1 ≤ most) × (most ≤ 3) }
    ensures { (says m.now result ≡ read most m.now) × (every (is_inside m.now) (spans result) ≡ true) }
{
    let from = first_five(m, index)?;
    if octets::read24(m, 5) == 265 {
        return list_265(m, index, from, most);
    }
    list_275(m, index, from.session)
}

// A message that is refused before its lists are read.
fn refused(f: Failure) -> Heard
    ensures { result ≡ record { told = Err f; proxies = false } }
{
    Heard {
        told: Err(f),
        proxies: false,
    }
}

// Header tests, the walk, the lists: the request with its fields, or the first test that fails;
// and whether the answer has a Proxy-Info to copy. A request may bring up to `most` policies.
pub fn read(m: &[u8], most: usize) -> Heard
    requires { (20 ≤ length m.now) × (1 ≤ most) × (most ≤ 3) }
    ensures { HeardOf most m.now result }
{
    if let Err(f) = message::test_header(m) {
        return refused(f);
    }
    let mut index = [0usize; message::INDEX_LENGTH];
    if let Err(f) = message::gather(m, &mut index) {
        return refused(f);
    }
    Heard {
        told: lists(m, &index, most),
        proxies: proxies_seen(m, &index),
    }
}
