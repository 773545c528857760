// Why a request is refused, in words, said behind the code at `at`. A success has no reason, and nothing is said of it.
#![tactic(auto)]

use reasons::{Reason, Why};
use tool_avps::{base_name, our_name};
use tool_words::{number, say};

// The AVP of a slot by its name; the last four are 3GPP's.
fn avp(out: &mut [u8; 4096], at: usize, slot: usize) -> usize {
    let name = match slot {
        message::SESSION_ID => base_name(263),
        message::AUTH_APPLICATION_ID => base_name(258),
        message::ORIGIN_HOST => base_name(264),
        message::ORIGIN_REALM => base_name(296),
        message::DESTINATION_REALM => base_name(283),
        message::AUTH_REQUEST_TYPE => base_name(274),
        message::DESTINATION_HOST => base_name(293),
        message::USER_NAME => base_name(1),
        message::TERMINATION_CAUSE => base_name(295),
        message::PROXY_INFO => base_name(284),
        message::RE_AUTH_REQUEST_TYPE => base_name(285),
        message::VISITED_NETWORK => our_name(600),
        message::SESSION_REQUEST_TYPE => our_name(311),
        message::WLAN_APN_ID => our_name(100),
        _ => our_name(312),
    };
    say(out, at, name)
}

// What is wrong with the AVP at a byte.
fn at_byte(out: &mut [u8; 4096], at: usize, byte: usize, wrong: &[u8]) -> usize {
    let a = say(out, at, b": the AVP at byte ");
    let b = number(out, a, byte as u64);
    say(out, b, wrong)
}

// What is wrong with the AVP of a slot.
fn in_list(out: &mut [u8; 4096], at: usize, wrong: &[u8], slot: usize) -> usize {
    let a = say(out, at, wrong);
    avp(out, a, slot)
}

// An AVP that stands too often. Of policies form 2 takes three, of everything else a request has one.
fn too_many(out: &mut [u8; 4096], at: usize, slot: usize, form: u32) -> usize {
    if slot == message::ROUTING_POLICY && form == 2 {
        return in_list(out, at, b": more than three ", slot);
    }
    in_list(out, at, b": more than one ", slot)
}

// A reason in words. The form is that of the table.
pub fn reason(out: &mut [u8; 4096], at: usize, reason: Reason, form: u32) -> usize {
    match reason {
        Reason::Passes => at,
        Reason::ReservedBits => say(out, at, b": reserved bits of the header are set"),
        Reason::ErrorBit => say(out, at, b": the E bit is set"),
        Reason::UnknownCommand => say(out, at, b": the command is not 265 or 275"),
        Reason::WrongApplication => say(
            out,
            at,
            b": the command does not take that Application-Id",
        ),
        Reason::FewBytesLeft(n) => at_byte(out, at, n, b" has fewer than 8 bytes"),
        Reason::ReservedAvpBits(n) => at_byte(out, at, n, b" has reserved bits set"),
        Reason::ShortLength(n) => at_byte(out, at, n, b" is shorter than its header"),
        Reason::PastTheEnd(n) => at_byte(out, at, n, b" ends past the message"),
        Reason::UnsupportedAvp(n) => at_byte(out, at, n, b" is not known and has M set"),
        Reason::SessionIdNotFirst => say(out, at, b": the first AVP is not Session-Id"),
        Reason::Absent(slot) => in_list(out, at, b": no ", slot),
        Reason::Twice(slot) => too_many(out, at, slot, form),
        Reason::WrongLength(slot) => in_list(out, at, b": wrong length of ", slot),
        Reason::WrongValue(slot) => in_list(out, at, b": wrong value of ", slot),
        Reason::NoRow => say(out, at, b": the operator has no subscriber of that name"),
        Reason::UnsoundRow => say(out, at, b": the subscriber's row is not sound"),
        Reason::NotEntered => say(out, at, b": the subscriber does not have that label"),
        Reason::EntryBarred => say(out, at, b": the label is barred"),
        Reason::MayNotRoam => say(out, at, b": the label may not roam"),
        Reason::SessionHeld => say(out, at, b": the Session-Id is held on another label"),
        Reason::NoAccess => say(out, at, b": no access has the Session-Id"),
        Reason::GatewaySaysNo => say(out, at, b": the gateway says no"),
        Reason::Unused => say(out, at, b": no access has the Session-Id on that label"),
    }
}

// Why a call is answered as it is. The number of one that gets no answer is said with its meaning already.
pub fn why(out: &mut [u8; 4096], at: usize, why: Why, form: u32) -> usize {
    match why {
        Why::Unanswered(_) => at,
        Why::Answered(r) => reason(out, at, r, form),
    }
}
