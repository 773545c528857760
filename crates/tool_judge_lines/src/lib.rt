// What a judgement says of an answer that is not the same as ours: where it first differs, with both where that is short.
#![tactic(auto)]

use judge::Found;
use reader::{Fault, Seen, Step};
use system::System;
use tool_judge_words::end_line;
use tool_words::{number, say};

// LINES

// The AVP at a place of a message, behind a margin, and those of a group below it; nothing without a place.
fn tell_avp(sys: &System, margin: &[u8], m: &[u8], place: Option<usize>) -> bool {
    let Some(at) = place else {
        return true;
    };
    let Step::One(s) = reader::avp_at(m, at) else {
        return true;
    };
    let mut out = [0u8; 4096];
    let n = tool_avp_line::avp(&mut out, margin, m, s);
    if !tool_files::print(sys, &out, n) {
        return false;
    }
    tool_decode::group(sys, m, at);
    true
}

// THE HEADER

// No answer; what ours says is told.
fn tell_none(sys: &System, out: &mut [u8; 4096], at: usize, ours: &[u8]) -> bool {
    let place = tool_judge_avps::other_result(b"", ours);
    end_line(sys, out, at, b"no answer, and one is due") && tell_avp(sys, b"  ours: ", ours, place)
}

fn tell_header(
    sys: &System,
    out: &mut [u8; 4096],
    at: usize,
    m: &[u8],
    ours: &[u8],
    theirs: &[u8],
    byte: usize,
) -> bool {
    if ours.len() < message::HEADER_LENGTH {
        return tool_judge_header::tell_not_due(sys, out, at, m);
    }
    if theirs.is_empty() {
        return tell_none(sys, out, at, ours);
    }
    tool_judge_header::tell_byte(sys, out, at, ours, theirs, byte)
}

// THE WALK

// The test that an AVP fails, inside a group or not.
fn say_fault(out: &mut [u8; 4096], at: usize, f: Fault, is_inside: bool) -> usize {
    match f {
        Fault::Few => say(out, at, b" has fewer than 8 bytes"),
        Fault::Bits => say(out, at, b" has reserved bits set"),
        Fault::Short => say(out, at, b" is shorter than its header"),
        Fault::Past if is_inside => say(out, at, b" ends past its group"),
        Fault::Past => say(out, at, b" ends past the answer"),
    }
}

// The same of the AVP at a place, in the bytes before `end`.
fn say_fault_at(out: &mut [u8; 4096], at: usize, theirs: &[u8], byte: usize, end: usize) -> usize {
    let Some(walked) = theirs.get(..end) else {
        return at;
    };
    let Step::Bad(f) = reader::avp_at(walked, byte) else {
        return at;
    };
    say_fault(out, at, f, end < theirs.len())
}

fn tell_walk(sys: &System, out: &mut [u8; 4096], at: usize, theirs: &[u8]) -> bool {
    let s = tool_judge_avps::walk_end(theirs);
    let a = say(out, at, b"the AVP at byte ");
    let b = number(out, a, s.at as u64);
    let c = say_fault_at(out, b, theirs, s.at, s.end);
    end_line(sys, out, c, b"")
}

// A group that is too deep.
pub fn tell_deep(sys: &System, out: &mut [u8; 4096], at: usize, theirs: &[u8]) -> bool {
    let s = tool_judge_avps::walk_end(theirs);
    let a = say(out, at, b"the group at byte ");
    let b = number(out, a, s.at as u64);
    end_line(sys, out, b, b" is the fifth, each inside another")
}

// THE AVPS BY PLACE

// What is wrong with the AVP at a byte, the AVP of ours at a place, if there is one, and the AVP itself.
fn tell_wrong(
    sys: &System,
    out: &mut [u8; 4096],
    at: usize,
    wrong: &[u8],
    ours: &[u8],
    place: Option<usize>,
    theirs: &[u8],
    byte: usize,
) -> bool {
    let a = say(out, at, b"the AVP at byte ");
    let b = number(out, a, byte as u64);
    end_line(sys, out, b, wrong)
        && tell_avp(sys, b"  ours: ", ours, place)
        && tell_avp(sys, b"  theirs: ", theirs, Some(byte))
}

// Where our result stands, if an AVP of theirs is a result too.
fn our_result(ours: &[u8], s: Seen) -> Option<usize> {
    if tool_judge_avps::is_result(s) {
        return tool_judge_avps::other_result(b"", ours);
    }
    None
}

// One whose name ours has, or has not.
fn tell_named(
    sys: &System,
    out: &mut [u8; 4096],
    at: usize,
    ours: &[u8],
    theirs: &[u8],
    byte: usize,
    s: Seen,
) -> bool {
    let place = tool_judge_avps::place_of(ours, s, tool_judge_avps::named_before(theirs, byte, s));
    if place.is_some() {
        return tell_wrong(
            sys,
            out,
            at,
            b" differs from ours",
            ours,
            place,
            theirs,
            byte,
        );
    }
    if tool_judge_avps::place_of(ours, s, 0).is_some() {
        let wrong = b" is one more of its name than ours has";
        return tell_wrong(sys, out, at, wrong, ours, None, theirs, byte);
    }
    let wrong = b" has M, and ours has none of its name";
    tell_wrong(sys, out, at, wrong, ours, our_result(ours, s), theirs, byte)
}

// Whether an AVP is a Session-Id.
fn is_session(s: Seen) -> bool {
    s.flags < 128 && s.code == 263
}

// Whether a message starts with Session-Id.
fn starts_with_session(m: &[u8]) -> bool {
    match reader::avp_at(m, message::HEADER_LENGTH) {
        Step::One(s) => is_session(s),
        _ => false,
    }
}

fn tell_place(
    sys: &System,
    out: &mut [u8; 4096],
    at: usize,
    ours: &[u8],
    theirs: &[u8],
    byte: usize,
    s: Seen,
) -> bool {
    if byte != message::HEADER_LENGTH || !starts_with_session(ours) || is_session(s) {
        return tell_named(sys, out, at, ours, theirs, byte, s);
    }
    let wrong = b" is the first, and no Session-Id";
    tell_wrong(sys, out, at, wrong, ours, None, theirs, byte)
}

fn tell_avp_wrong(
    sys: &System,
    out: &mut [u8; 4096],
    at: usize,
    ours: &[u8],
    theirs: &[u8],
    byte: usize,
) -> bool {
    let Step::One(s) = reader::avp_at(theirs, byte) else {
        return false;
    };
    tell_place(sys, out, at, ours, theirs, byte, s)
}

// A MISSING ONE

fn tell_missing(sys: &System, out: &mut [u8; 4096], at: usize, ours: &[u8], theirs: &[u8]) -> bool {
    let place = tool_judge_avps::missing(ours, theirs);
    end_line(sys, out, at, b"an AVP of ours is missing") && tell_avp(sys, b"  ours: ", ours, place)
}

// THE ANSWER AS A WHOLE

// The first mismatch of an answer, said behind what the line has; whether it could be said. `m` is the request.
pub fn tell_answer(
    sys: &System,
    out: &mut [u8; 4096],
    at: usize,
    f: Found,
    m: &[u8],
    ours: &[u8],
    theirs: &[u8],
) -> bool {
    let kind = f.mismatch;
    match kind {
        1 => tell_header(sys, out, at, m, ours, theirs, f.at),
        2 => tell_walk(sys, out, at, theirs),
        3 => tell_avp_wrong(sys, out, at, ours, theirs, f.at),
        _ => tell_missing(sys, out, at, ours, theirs),
    }
}

// Whether there is a result beside the one of ours that is passed over, since it is of a name that ours lacks and has no M. It is warned of.
pub fn tell_second(sys: &System, ours: &[u8], theirs: &[u8]) -> bool {
    let place = tool_judge_avps::other_result(ours, theirs);
    tell_avp(
        sys,
        b"  WARNING: a second result, without M and so passed over: ",
        theirs,
        place,
    );
    place.is_some()
}
