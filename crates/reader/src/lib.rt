// The AVPs of a message one after another, by a reader that holds the message and a place in it. Its functions are thin: they make
// one, or take it apart and hand slice and place on. Callers with a plain slice use `avp_at`.
#![tactic(auto)]

ghost use Rattle.std.specs.Prelude.{◌≡◌, ◌+◌, ◌≤◌, length, drop};
ghost use Rattle.octets.specs.Numbers.{up4};
ghost use Rattle.message.specs.ReadingAMessage.{known as isKnown, avp_length, avp_code, avp_of};
ghost use Rattle.reader.specs.Steps.{fault_of, seen_at, step_at};

// An AVP that passes the four tests. Its vendor is 0 without V; its value and the next AVP are places of the message.
// A request with one that has M and is not known is refused.
#[derive(Clone, Copy)]
pub struct Seen {
    pub code: u32,
    pub flags: u8,
    pub vendor: u32,
    pub known: bool,
    pub value: usize,
    pub len: usize,
    pub next: usize,
}

// The test that fails: fewer than 8 bytes left, a reserved flag bit, a length under the header's, an end past the message.
#[derive(Clone, Copy)]
pub enum Fault {
    Few,
    Bits,
    Short,
    Past,
}

#[derive(Clone, Copy)]
pub enum Step {
    One(Seen),
    End,
    Bad(Fault),
}

// A SLICE AND A PLACE

// Which of the four tests fails, at a place where one does.
fn fault_at(m: &[u8], at: usize) -> Fault
    requires { at ≤ length m.now }
    ensures { result ≡ fault_of (drop at m.now) }
{
    if m.len() - at < 8 {
        return Fault::Few;
    }
    let flags = m[at + 4];
    if flags % 32 != 0 {
        return Fault::Bits;
    }
    let n = octets::read24(m, at + 5);
    if n < 8 {
        return Fault::Short;
    }
    if flags < 128 {
        return Fault::Past;
    }
    if n < 12 {
        return Fault::Short;
    }
    Fault::Past
}

// The AVP at a place, where it passes the four tests.
fn seen_at(m: &[u8], at: usize, next: usize, known: bool) -> Seen
    requires { (at ≤ length m.now) × (avp_code (drop at m.now) ≡ 0) × (next ≡ at + up4 (avp_length (drop at m.now))) × (known ≡ isKnown (avp_of (drop at m.now)).name) }
    ensures { result ≡ seen_at m.now at }
{
    let flags = m[at + 4];
    let code = octets::read32(m, at);
    let n = octets::read24(m, at + 5);
    if flags < 128 {
        return Seen {
            code,
            flags,
            vendor: 0,
            known,
            value: at + 8,
            len: n - 8,
            next,
        };
    }
    let vendor = octets::read32(m, at + 8);
    Seen {
        code,
        flags,
        vendor,
        known,
        value: at + 12,
        len: n - 12,
        next,
    }
}

// The step of the walk at a place. The message's own walk tests the AVP.
fn step_at(m: &[u8], at: usize) -> Step
    ensures { result ≡ step_at m.now at }
{
    if m.len() <= at {
        return Step::End;
    }
    let left = m.len() - at;
    match message::head_at(m, at, left) {
        Err(_) => Step::Bad(fault_at(m, at)),
        Ok(a) => Step::One(seen_at(m, at, a.next, a.slot != message::NOT_KNOWN)),
    }
}

// THE READER

#[derive(Clone, Copy)]
pub struct Reader<'a> {
    pub src: &'a [u8],
    pub at: usize,
}

// The reader at a message's first AVP.
pub fn first<'a>(m: &'a [u8]) -> Reader<'a>
    ensures { (result.src ≡ m.entry) × (result.at ≡ 20) }
{
    Reader {
        src: m,
        at: message::HEADER_LENGTH,
    }
}

// The AVP where the reader stands, or why there is none.
pub fn next<'a>(r: Reader<'a>) -> Step
    ensures { result ≡ step_at r.entry.src.now r.entry.at }
{
    step_at(r.src, r.at)
}

// The rest of the message: the reader at a later place.
pub fn rest<'a>(r: Reader<'a>, at: usize) -> Reader<'a>
    ensures { (result.src ≡ r.entry.src) × (result.at ≡ at) }
{
    Reader { src: r.src, at }
}

// FOR CALLERS

// The AVP that starts at a place of a message, or that the message ends there, or the test that fails.
pub fn avp_at(m: &[u8], at: usize) -> Step
    ensures { result ≡ step_at m.now at }
{
    next(rest(first(m), at))
}
