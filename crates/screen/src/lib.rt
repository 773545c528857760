// The screen board: a list of screens that the caller lends, fed with requests, results and notices, and the number of connected screens.
#![tactic(auto, unfolding(crate::specs::Code::state_said, crate::specs::Code::event_said, crate::specs::Code::move_said, crate::specs::TheBoard::line, crate::specs::TheBoard::after, crate::specs::TheBoard::state_of, crate::specs::TheBoard::number_of, crate::specs::TheBoard::place_in, crate::specs::TheBoard::request_says, crate::specs::TheBoard::result_says, crate::specs::TheBoard::success, crate::specs::TheBoard::session_of, crate::specs::TheBoard::is_of, octets::specs::Choice::pick, octets::specs::Choice::within))]

ghost use Rattle.std.specs.Prelude.{◌≡◌, true, ◌≤◌, ◌<◌, length, get_or, set, IfSome};
ghost use Rattle.octets.specs.Choice.{within};
ghost use Rattle.octets.specs.Lists.{every};
ghost use Rattle.octets.specs.Texts.{same};
ghost use Rattle.screen.specs.TheBoard.{line, stays, to, state_of, number_of, place_in, request_says, result_says, success, after, moved_by, session_of, sized, is_of, on_board, feed, count_connected};
ghost use Rattle.screen.specs.Code.{none, state_said, event_said, move_said, counts, Found, Finds, leaves, count_said};

// A SCREEN

// An entry of the list, as the struct of C has it: the state and the place by their numbers, the length of the Session-Id, and the room that it stands in.
#[repr(C)]
#[derive(Clone, Copy)]
pub struct Screen {
    pub state: u32,
    pub place: u32,
    pub size: u32,
    pub room: [u8; 128],
}

// THE TABLE

// What a screen shows.
#[derive(Clone, Copy)]
enum State {
    Off,
    Asked,
    Connected(u32),
    Cut,
    Unknown,
}

// A function and not a `From`: of the two numbers, which C has as two fields of the entry, the first alone is no state.
fn state_of(number: u32, place: u32) -> State
    ensures { state_said result ≡ state_of number place }
{
    match number {
        0 => State::Off,
        1 => State::Asked,
        2 => State::Connected(place),
        3 => State::Cut,
        _ => State::Unknown,
    }
}

// What a screen is told.
#[derive(Clone, Copy)]
pub enum Event {
    Nothing,
    Asks,
    Opens(u32),
    Fails,
    Ends,
    Cuts,
}

// A request of kind `which`: 0 and 1 are the two types of an authorization, 2 is a termination.
pub fn request_says(which: u32) -> Event
    ensures { event_said result ≡ request_says which }
{
    if which == 0 {
        Event::Asks
    } else {
        Event::Nothing
    }
}

fn is_success(code: u32, kind: u32) -> bool
    ensures { result ≡ success code kind }
{
    kind == 1 && code == 2001
}

// The result of such a request: code, kind of code (0 no answer, 1 Result-Code, 2 Experimental-Result) and place.
pub fn result_says(which: u32, code: u32, kind: u32, place: u32) -> Event
    ensures { event_said result ≡ result_says which code kind place }
{
    match (which, is_success(code, kind)) {
        (0, true) if (1..=8).contains(&place) => Event::Opens(place),
        (0, false) => Event::Fails,
        (2, true) => Event::Ends,
        _ => Event::Nothing,
    }
}

// What a screen that is off or cut moves to.
fn if_dark(state: State, then: State) -> Option<State>
    ensures { move_said result ≡ line (to (state_said then)) stays stays (to (state_said then)) stays (state_said state) }
{
    match state {
        State::Off | State::Cut => Some(then),
        _ => None,
    }
}

// What a screen that is asked moves to.
fn if_asked(state: State, then: State) -> Option<State>
    ensures { move_said result ≡ line stays (to (state_said then)) stays stays stays (state_said state) }
{
    match state {
        State::Asked => Some(then),
        _ => None, // a connected one too: what fails is another request, and the access stands
    }
}

// What becomes of a screen: the state that it moves to, if it does not stay.
fn move_after(event: Event, state: State) -> Option<State>
    ensures { move_said result ≡ after (event_said event) (state_said state) }
{
    match event {
        Event::Nothing => None,
        Event::Asks => if_dark(state, State::Asked),
        Event::Opens(place) => if_asked(state, State::Connected(place)),
        Event::Fails => if_asked(state, State::Off),
        Event::Ends => Some(State::Off),
        Event::Cuts => Some(State::Cut),
    }
}

fn number_of(state: State) -> u32
    ensures { result ≡ number_of (state_said state) }
{
    match state {
        State::Off => 0,
        State::Asked => 1,
        State::Connected(_) => 2,
        State::Cut => 3,
        State::Unknown => 4,
    }
}

fn place_of(state: State) -> u32
    ensures { result ≡ place_in (state_said state) }
{
    match state {
        State::Connected(place) => place,
        _ => 0,
    }
}

// SESSION-IDS

// Whether a Session-Id has 1 to 128 bytes.
fn is_sized(size: u32) -> bool
    ensures { result ≡ within 1 128 size }
{
    (1..=128).contains(&size)
}

fn session_of(e: &Screen) -> &[u8]
    requires { e.now.size ≤ 128 }
    ensures { result.now ≡ session_of e.now }
{
    &e.room[..e.size as usize]
}

// Whether two Session-Ids are the same. Their ends are looked at first: those of one gateway begin alike.
fn same_session(a: &[u8], b: &[u8]) -> bool
    ensures { result ≡ same a.now b.now }
{
    let n = a.len();
    if n != b.len() {
        return false;
    }
    if n < 16 {
        return octets::same_bytes(a, b);
    }
    let k = n - 16;
    if !octets::same_bytes(&a[k..n], &b[k..n]) {
        return false;
    }
    octets::same_bytes(a, b)
}

// Whether the entry has this Session-Id.
fn is_of(e: &Screen, session: &[u8]) -> bool
    requires { e.now.size ≤ 128 }
    ensures { result ≡ is_of session.now e.now }
{
    same_session(session, session_of(e))
}

// Whether one of these entries has this Session-Id.
fn stands_among(screens: &[Screen], session: &[u8]) -> bool
    requires { every sized screens.now ≡ true }
    ensures { result ≡ on_board screens.now session.now }
{
    for e in screens {
        if is_of(e, session) {
            return true;
        }
    }
    false
}

// ONE LOOK AT THE LIST

// What it tells: the entry that has the Session-Id, and how many screens are connected.
#[derive(Clone, Copy)]
struct Seen {
    at: Option<usize>,
    connected: u32,
}

// None of a list that has a Session-Id of the wrong length or twice.
fn survey(screens: &[Screen], session: &[u8]) -> Option<Seen>
    requires { length screens.now ≤ 64 }
    ensures counted { counts result ≡ count_connected screens.now }
    ensures found { IfSome result (λ s. Found screens.now session.now s.at) }
{
    let mut at = None;
    let mut connected = 0;
    for (i, e) in screens.iter().enumerate() {
        if !is_sized(e.size) || stands_among(&screens[..i], session_of(e)) {
            return None;
        }
        if is_of(e, session) {
            at = Some(i);
        }
        if e.state == 2 {
            connected += 1;
        }
    }
    Some(Seen { at, connected })
}

// COUNTING

// A number, and how many screens are connected.
#[repr(C)]
#[derive(Clone, Copy)]
pub struct Count {
    pub number: u32,
    pub screens: u32,
}

// The number of connected screens. Number 0, or 25 with none.
pub fn connected(screens: &[Screen]) -> Count
    ensures { count_said result ≡ count_connected screens.now }
{
    // before anything else
    let seen = if screens.len() > 64 {
        None
    } else {
        survey(screens, b"")
    };
    match seen {
        Some(s) => Count {
            number: 0,
            screens: s.connected,
        },
        None => Count {
            number: 25,
            screens: 0,
        },
    }
}

// FEEDING

// Why nothing is told. The numbers are those of the C interface.
#[derive(Clone, Copy)]
enum Refusal {
    NoScreen = 24,
    WrongList = 25,
}

// The entry of that Session-Id, of a list that may be fed.
fn find(screens: &[Screen], session: &[u8]) -> Result<usize, Refusal>
    ensures { Finds screens.now session.now result }
{
    if screens.len() > 64 { // before anything else
        return Err(Refusal::WrongList);
    }
    let seen = survey(screens, session).ok_or(Refusal::WrongList)?;
    seen.at.ok_or(Refusal::NoScreen)
}

// One entry is told; all others stay.
fn tell(screens: &mut [Screen], i: usize, event: Event)
    requires { i < length screens.old }
    ensures { screens.new ≡ set screens.old i (moved_by (event_said event) (get_or screens.old i none)) }
{
    let e = &mut screens[i];
    if let Some(then) = move_after(event, state_of(e.state, e.place)) {
        e.state = number_of(then);
        e.place = place_of(then);
    }
}

// What is told of a Session-Id. 0, or 25, 24, and then the list is as it was.
pub fn feed(screens: &mut [Screen], session: &[u8], event: Event) -> u32
    ensures { leaves result screens.new ≡ feed screens.old session.now (event_said event) }
{
    match find(screens, session) {
        Ok(at) => {
            tell(screens, at, event);
            0
        }
        Err(refusal) => refusal as u32,
    }
}
