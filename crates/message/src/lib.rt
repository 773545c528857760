// Reading a request over the caller's bytes, up to its fields: nothing is copied, a text is a part of the message.
#![tactic(auto)]

ghost use Rattle.std.specs.Prelude.{◌≡◌, Bool, true, false, ◌&&◌, ◌||◌, not, ℕ, ◌+◌, ◌*◌, ◌≤◌, ◌<◌, eqb, length, get_or, drop};
ghost use Rattle.octets.specs.Texts.{zeros};
ghost use Rattle.octets.specs.Numbers.{net24, net32};
ghost use Rattle.message.specs.CallsThatGetNoAnswer.{message_most, message_number};
ghost use Rattle.message.specs.ReadingAMessage.{base, vendor, same_name, routing_policy, avp_code, avp_of, supported, command, header_code, request_walk, walk_code, number_field};
ghost use Rattle.message.specs.Positions.{slots, not_known, routes_slot, slot_of, name_at, head_of, HeadAt, FlagsAndLength, Gathered};
ghost use Rattle.message.specs.Failures.{failure_code, failed_with};
ghost use Rattle.message.specs.Spans.{bytes_field, required, Reads, RouteFrom, how_many, is_fit, RoutesRead};

// Which kind of code a call is answered with.
#[derive(Clone, Copy)]
pub enum Kind {
    NoAnswer,
    Plain,
    Experimental,
}

// WHY A MESSAGE IS REFUSED

// The test that a message fails first, by the Result-Code that its answer has.
#[derive(Clone, Copy, PartialEq, Eq)]
pub enum Failure {
    CommandUnsupported = 3001,
    ApplicationUnsupported = 3007,
    InvalidHeaderBits = 3008,
    InvalidAvpBits = 3009,
    AvpUnsupported = 5001,
    UnknownSessionId = 5002,
    InvalidAvpValue = 5004,
    MissingAvp = 5005,
    AvpOccursTooManyTimes = 5009,
    InvalidBitInHeader = 5013,
    InvalidAvpLength = 5014,
}

impl Failure {
    // Its Result-Code.
    #[tactic(auto, unfolding(crate::specs::Failures::failure_code))]
    pub fn code(self) -> u32
        ensures { (result ≡ failure_code self) × (result < 65536) }
    {
        self as u32
    }
}

// THE LIMITS OF A MESSAGE, taken from here by every crate that reads or writes one

// The header, and so the least that a message has.
pub const HEADER_LENGTH: usize = 20;

// The most that a message has.
pub const LENGTH_MOST: usize = 4096;

// The most bytes of a text, and of the label of a W-APN.
pub const TEXT_MOST: usize = 128;

pub const LABEL_MOST: usize = 100;

// THE SLOTS OF THE WALK: one for each AVP that a list or the answer asks for, those with V last

pub const SESSION_ID: usize = 0;

pub const AUTH_APPLICATION_ID: usize = 1;

pub const ORIGIN_HOST: usize = 2;

pub const ORIGIN_REALM: usize = 3;

pub const DESTINATION_REALM: usize = 4;

pub const AUTH_REQUEST_TYPE: usize = 5;

pub const DESTINATION_HOST: usize = 6;

pub const USER_NAME: usize = 7;

pub const TERMINATION_CAUSE: usize = 8;

pub const PROXY_INFO: usize = 9;

pub const RE_AUTH_REQUEST_TYPE: usize = 10;

pub const VISITED_NETWORK: usize = 11;

pub const SESSION_REQUEST_TYPE: usize = 12;

pub const WLAN_APN_ID: usize = 13;

pub const ROUTING_POLICY: usize = 14;

// How many slots there are, which is also what an AVP has that is known and that nothing asks for.
pub const SLOTS: usize = 15;

// What an AVP has that is not known.
pub const NOT_KNOWN: usize = 16;

// A place and a length for each slot.
pub const INDEX_LENGTH: usize = 30;

// CALLS THAT GET NO ANSWER

// Whether the length in the header is n, which two of its three bytes can hold: they are read at once.
fn has_length(m: &[u8], n: usize) -> bool
    requires { (20 ≤ length m.now) × (n ≤ message_most) }
    ensures { result ≡ eqb (net24 m.now 1) n }
{
    if m[1] != 0 {
        return false;
    }
    usize::from(m[2]) * 256 + usize::from(m[3]) == n
}

// The number, 5 to 8, of the first test of the message that fails, 0 where none does.
pub fn number(m: &[u8]) -> u32
    ensures { result ≡ message_number m.now }
{
    let n = m.len();
    if n < HEADER_LENGTH {
        return 5;
    }
    if LENGTH_MOST < n {
        return 5;
    }
    if m[0] != 1 {
        return 6;
    }
    if !has_length(m, n) {
        return 7;
    }
    if n % 4 != 0 {
        return 7;
    }
    if m[4] < 128 {
        return 8;
    }
    0
}

// THE HEADER

// The header tests, up to the first that fails.
pub fn test_header(m: &[u8]) -> Result<(), Failure>
    requires { 20 ≤ length m.now }
    ensures { failed_with result ≡ header_code m.now }
{
    let flags = m[4];
    if flags % 16 != 0 {
        return Err(Failure::InvalidBitInHeader);
    }
    if flags / 32 % 2 != 0 {
        return Err(Failure::InvalidHeaderBits);
    }
    let command = octets::read24(m, 5);
    let application = octets::read32(m, 8);
    if command == 265 {
        if application == 1 {
            return Ok(());
        }
        return Err(Failure::ApplicationUnsupported);
    }
    if command == 275 {
        if application <= 1 {
            return Ok(());
        }
        return Err(Failure::ApplicationUnsupported);
    }
    Err(Failure::CommandUnsupported)
}

// ONE AVP

// An AVP that passes the four tests: the slot of its name, SLOTS where it is known and nothing asks for it, NOT_KNOWN where it is not
// known; its length and whether M is set; and where the next one starts.
#[derive(Clone, Copy)]
pub struct Spot {
    pub slot: usize,
    pub length: usize,
    pub mandatory: bool,
    pub next: usize,
}

// The slot of an AVP without V. Of the codes that no list names the even ones come first, then the odd ones: neighbours in one arm
// would be lowered to tests of ranges, with a way out for each.
fn base_slot(code: u32) -> usize
    ensures { result ≡ slot_of (base code) }
{
    match code {
        263 => SESSION_ID,
        258 => AUTH_APPLICATION_ID,
        264 => ORIGIN_HOST,
        296 => ORIGIN_REALM,
        283 => DESTINATION_REALM,
        274 => AUTH_REQUEST_TYPE,
        293 => DESTINATION_HOST,
        1 => USER_NAME,
        295 => TERMINATION_CAUSE,
        284 => PROXY_INFO,
        285 => RE_AUTH_REQUEST_TYPE,
        2 | 4 | 6 | 8 | 12 | 14 | 24 | 30 | 32 | 34 | 36 | 60 | 62 => SLOTS,
        70 | 74 | 94 | 96 | 98 | 266 | 268 | 276 | 278 | 282 | 298 | 402 | 444 | 450 | 578 => SLOTS,
        5 | 7 | 9 | 13 | 19 | 25 | 31 | 35 | 61 | 63 | 73 | 77 => SLOTS,
        87 | 95 | 277 | 279 | 291 | 297 | 401 | 443 => SLOTS,
        _ => NOT_KNOWN,
    }
}

// The slot of an AVP with V: vendor and code together make its name.
fn vendor_slot(id: u32, code: u32) -> usize
    ensures { result ≡ slot_of (vendor id code) }
{
    if id != 10415 {
        return NOT_KNOWN;
    }
    match code {
        600 => VISITED_NETWORK,
        311 => SESSION_REQUEST_TYPE,
        100 => WLAN_APN_ID,
        312 => ROUTING_POLICY,
        304 => SLOTS,
        _ => NOT_KNOWN,
    }
}

// Flags and length of the AVP at a place in one word, the flags in its highest byte.
pub fn flags_and_length(m: &[u8], at: usize) -> u32
    requires { at + 8 ≤ length m.now }
    ensures { FlagsAndLength m.now at result }
{
    u32::from(m[at + 4]) * 16777216 + octets::read24(m, at + 5) as u32
}

// The AVP at a place, with so many bytes left from there on, or the first of the four tests that it fails. Where no reserved bit is set, the word without its three highest bits is
// the length. Where that is 8 at least, M and V are told by comparing the word as a whole: asked bit by bit, the compiler would load it byte by byte.
pub fn head_at(m: &[u8], at: usize, left: usize) -> Result<Spot, Failure>
    requires { at + left ≡ length m.now }
    ensures { HeadAt m.now at result }
{
    if left < 8 {
        return Err(Failure::InvalidAvpLength);
    }
    let word = flags_and_length(m, at);
    let code = octets::read32(m, at);
    let length = (word % 536870912) as usize;
    if 16777216 <= length {
        return Err(Failure::InvalidAvpBits);
    }
    if length < 8 {
        return Err(Failure::InvalidAvpLength);
    }
    let whole = (length + 3) / 4 * 4;
    if left < whole {
        return Err(Failure::InvalidAvpLength);
    }
    let mandatory = 1073741832 <= word % 2147483648;
    if 2147483656 <= word {
        if length < 12 {
            return Err(Failure::InvalidAvpLength);
        }
        let slot = vendor_slot(octets::read32(m, at + 8), code);
        return Ok(Spot {
            slot,
            length,
            mandatory,
            next: at + whole,
        });
    }
    let slot = base_slot(code);
    Ok(Spot {
        slot,
        length,
        mandatory,
        next: at + whole,
    })
}

// Whether an AVP of this slot is supported: known, or without M.
fn is_supported(slot: usize, mandatory: bool) -> bool
    ensures { result ≡ (not (eqb slot not_known) || not mandatory) }
{
    if slot != NOT_KNOWN {
        return true;
    }
    !mandatory
}

// THE WALK

// One walk over all AVPs. It notes for each slot 0 where no AVP has its name, the place of the only one that has,
// 1 where there are more, and SLOTS numbers further on that AVP's length; it ends at the first AVP that fails.
// The inner loop steps over the AVPs that no list names, if they are supported, as those that a list names are; the end and
// a failing AVP leave both loops.
pub fn gather(m: &[u8], index: &mut [usize]) -> Result<(), Failure>
    requires { (20 ≤ length m.now) × (index.old ≡ zeros (slots + slots)) }
    ensures { (failed_with result ≡ walk_code m.now) × Gathered m.now index.new }
{
    let mut at: usize = HEADER_LENGTH;
    let mut left: usize = m.len() - HEADER_LENGTH;
    'walk: loop {
        let named = loop {
            if left == 0 {
                break 'walk Ok(());
            }
            let a = head_at(m, at, left)?;
            if a.slot < SLOTS {
                break a;
            }
            if !is_supported(a.slot, a.mandatory) {
                break 'walk Err(Failure::AvpUnsupported);
            }
            left -= a.next - at;
            at = a.next;
        };
        let slot = named.slot;
        let seen = index[slot];
        index[slot + SLOTS] = named.length;
        if seen == 0 {
            index[slot] = at;
        } else {
            index[slot] = 1;
        }
        left -= named.next - at;
        at = named.next;
    }
}

// ONE FIELD

// A part of the message.
#[derive(Clone, Copy)]
pub struct Span {
    pub at: usize,
    pub len: usize,
}

// A part of no bytes.
pub const NO_TEXT: Span = Span { at: 0, len: 0 };

// The policies of a message: the first, the second and the third, of no bytes where there is none.
#[derive(Clone, Copy)]
pub struct Routes {
    pub first: Span,
    pub second: Span,
    pub third: Span,
}

// How long the header of an AVP in a slot is: the last four have V.
fn head_of(slot: usize) -> usize
    ensures { result ≡ head_of slot }
{
    if slot < VISITED_NETWORK {
        return 8;
    }
    12
}

// The number in a value of four bytes.
pub fn value32(value: &[u8]) -> u32
    requires { 4 ≤ length value.now }
    ensures { result ≡ net32 value.now 0 }
{
    octets::read32(value, 0)
}

// The field of a slot, whose value has low to high bytes; None where no AVP has the name.
pub fn text_field(
    m: &[u8],
    index: &[usize],
    slot: usize,
    low: usize,
    high: usize,
) -> Result<Option<Span>, Failure>
    requires { (slot < slots) × (1 ≤ low) × Gathered m.now index.now }
    ensures { (b : Bool) → Reads m.now (bytes_field (name_at slot) b low high) result }
{
    let at = index[slot];
    if at < 2 {
        if at == 0 {
            return Ok(None);
        }
        return Err(Failure::AvpOccursTooManyTimes);
    }
    let head = head_of(slot);
    let len = index[slot + SLOTS] - head;
    if len < low {
        return Err(Failure::InvalidAvpLength);
    }
    if high < len {
        return Err(Failure::InvalidAvpLength);
    }
    Ok(Some(Span { at: at + head, len }))
}

// The field of a slot whose value is a number from low to high.
pub fn number_field(
    m: &[u8],
    index: &[usize],
    slot: usize,
    low: u32,
    high: u32,
) -> Result<Option<Span>, Failure>
    requires { (slot < slots) × Gathered m.now index.now }
    ensures { Reads m.now (number_field (name_at slot) low high) result }
{
    let Some(s) = text_field(m, index, slot, 4, 4)? else {
        return Ok(None);
    };
    let a = s.at;
    let e = a + s.len;
    let n = value32(&m[a..e]);
    if n < low {
        return Err(Failure::InvalidAvpValue);
    }
    if high < n {
        return Err(Failure::InvalidAvpValue);
    }
    Ok(Some(s))
}

// A field, or the policies, that have to be there.
#[tactic(auto, unfolding(crate::specs::Spans::required))]
pub fn required<T: Copy>(g: Result<Option<T>, Failure>) -> Result<T, Failure>
    ensures { result ≡ required g }
{
    match g {
        Ok(Some(x)) => Ok(x),
        Ok(None) => Err(Failure::MissingAvp),
        Err(f) => Err(f),
    }
}

// THE POLICIES

// The value of a Routing-Policy, if there is one, and where the AVP behind it starts.
#[derive(Clone, Copy)]
pub struct Route {
    pub span: Option<Span>,
    pub next: usize,
}

// Whether the AVP at a place, which passes the four tests, is a Routing-Policy.
fn is_route(m: &[u8], at: usize) -> bool
    requires { (at ≤ length m.now) × (avp_code (drop at m.now) ≡ 0) }
    ensures { result ≡ same_name routing_policy (avp_of (drop at m.now)).name }
{
    if m[at + 4] < 128 {
        return false;
    }
    if octets::read32(m, at + 8) != 10415 {
        return false;
    }
    octets::read32(m, at) == 312
}

// The first Routing-Policy from a place on, in a message whose walk passes from there on, so that no AVP is tested again. Where there is
// none the next place is the message's end, and whoever goes on from there finds none either.
fn route_from(m: &[u8], from: usize) -> Route
    requires { (20 ≤ from) × (from ≤ length m.now) × ((request_walk (drop from m.now)).code ≡ 0) }
    ensures { RouteFrom m.now from result }
{
    let mut at = from;
    while at < m.len() {
        let n = octets::read24(m, at + 5);
        let next = at + (n + 3) / 4 * 4;
        if is_route(m, at) {
            return Route {
                span: Some(Span {
                    at: at + 12,
                    len: n - 12,
                }),
                next,
            };
        }
        at = next;
    }
    Route {
        span: None,
        next: m.len(),
    }
}

// How many there are, up to four, by whether there is a second, a third and a fourth.
fn how_many(second: bool, third: bool, fourth: bool) -> usize
    ensures { result ≡ how_many second third fourth }
{
    if fourth {
        return 4;
    }
    if third {
        return 3;
    }
    if second {
        return 2;
    }
    1
}

// Whether one has 1 to 128 bytes, if it is there.
fn is_fit(route: Option<Span>) -> bool
    ensures { result ≡ is_fit route }
{
    let Some(s) = route else {
        return true;
    };
    1 <= s.len && s.len <= TEXT_MOST
}

fn all_fit(a: Option<Span>, b: Option<Span>, c: Option<Span>) -> bool
    ensures { result ≡ is_fit a && (is_fit b && is_fit c) }
{
    is_fit(a) && is_fit(b) && is_fit(c)
}

// The Routing-Policies of a message whose walk passed, by a walk of their own that stops at the fourth: more than `most`, up to 3,
// are too many.
fn all_routes(m: &[u8], most: usize) -> Result<Option<Routes>, Failure>
    requires { (20 ≤ length m.now) × (walk_code m.now ≡ 0) × (most ≤ 3) }
    ensures { RoutesRead most m.now result }
{
    let a = route_from(m, HEADER_LENGTH);
    let b = route_from(m, a.next);
    let c = route_from(m, b.next);
    let d = route_from(m, c.next);
    let Some(first) = a.span else {
        return Ok(None);
    };
    if most < how_many(b.span.is_some(), c.span.is_some(), d.span.is_some()) {
        return Err(Failure::AvpOccursTooManyTimes);
    }
    if !all_fit(a.span, b.span, c.span) {
        return Err(Failure::InvalidAvpLength);
    }
    Ok(Some(Routes {
        first,
        second: b.span.unwrap_or(NO_TEXT),
        third: c.span.unwrap_or(NO_TEXT),
    }))
}

// The field of Routing-Policy by what the walk that gathers has noted, for any number of them that is allowed, if only one is where there
// are more.
fn one_route(m: &[u8], index: &[usize]) -> Result<Option<Routes>, Failure>
    requires { Gathered m.now index.now }
    ensures { (most : ℕ) → 1 ≤ most → (get_or index.now routes_slot 0 ≡ 1 → most ≡ 1) → RoutesRead most m.now result }
{
    let Some(first) = text_field(m, index, ROUTING_POLICY, 1, TEXT_MOST)? else {
        return Ok(None);
    };
    Ok(Some(Routes {
        first,
        second: NO_TEXT,
        third: NO_TEXT,
    }))
}

// The field of Routing-Policy, of which a request may bring up to `most`. The walk that gathers has seen whether there is more than one;
// only then, and only where more are allowed, the message is walked again. Most requests bring none.
pub fn routes_field(m: &[u8], index: &[usize], most: usize) -> Result<Option<Routes>, Failure>
    requires { (20 ≤ length m.now) × (walk_code m.now ≡ 0) × (1 ≤ most) × (most ≤ 3) × Gathered m.now index.now }
    ensures { RoutesRead most m.now result }
{
    if index[ROUTING_POLICY] == 0 {
        return Ok(None);
    }
    if index[ROUTING_POLICY] == 1 {
        if 1 < most {
            return all_routes(m, most);
        }
    }
    one_route(m, index)
}

// WHAT THE LISTS GIVE

// Of the first five fields, which both requests have, those that are used: the session, and who asks.
#[derive(Clone, Copy)]
pub struct Sender {
    pub session: Span,
    pub host: Span,
    pub realm: Span,
}

// What is asked, by parts of the message; a second and a third policy that are not there have no bytes.
#[derive(Clone, Copy)]
pub enum Asked {
    Tunnel {
        session: Span,
        host: Span,
        realm: Span,
        label: Span,
        visited: bool,
    },
    Policy {
        session: Span,
        first: Span,
        second: Span,
        third: Span,
    },
    Termination {
        session: Span,
        label: Span,
    },
}

// A request as it is read: the user and what is asked.
#[derive(Clone, Copy)]
pub struct UserRequest {
    pub user: Span,
    pub asked: Asked,
}

// A whole message: the request, or the test that it fails first; and whether the answer has a Proxy-Info to copy.
#[derive(Clone, Copy)]
pub struct Heard {
    pub told: Result<UserRequest, Failure>,
    pub proxies: bool,
}
