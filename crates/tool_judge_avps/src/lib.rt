// The AVPs that a judgement is about: which of ours stands where one of theirs should, which is missing, which result was passed over, and where a walk ends.
#![tactic(auto)]

use reader::{Seen, Step};

// NAMES. A message in its room has at most 1,024 AVPs.

// Whether two AVPs have the same name: code, V and vendor, which is 0 without V.
fn is_named(a: Seen, b: Seen) -> bool {
    a.code == b.code && a.flags / 128 == b.flags / 128 && a.vendor == b.vendor
}

// How many AVPs that start before a byte have the name of another.
pub fn named_before(m: &[u8], end: usize, s: Seen) -> usize {
    let mut n: usize = 0;
    let mut at: usize = message::HEADER_LENGTH;
    for _ in 0..1024 {
        if end <= at {
            return n;
        }
        let Step::One(t) = reader::avp_at(m, at) else {
            return n;
        };
        if is_named(s, t) {
            n = n.saturating_add(1);
        }
        at = t.next;
    }
    n
}

// Where the AVP stands that has the name of another, with k of that name before it.
pub fn place_of(m: &[u8], s: Seen, k: usize) -> Option<usize> {
    let mut at: usize = message::HEADER_LENGTH;
    for _ in 0..1024 {
        let Step::One(t) = reader::avp_at(m, at) else {
            return None;
        };
        if is_named(s, t) && named_before(m, at, s) == k {
            return Some(at);
        }
        at = t.next;
    }
    None
}

// Where the first AVP of ours stands that theirs lacks: of its name no fewer stand before it than theirs has in all.
pub fn missing(ours: &[u8], theirs: &[u8]) -> Option<usize> {
    let mut at: usize = message::HEADER_LENGTH;
    for _ in 0..1024 {
        let Step::One(s) = reader::avp_at(ours, at) else {
            return None;
        };
        if named_before(theirs, theirs.len(), s) <= named_before(ours, at, s) {
            return Some(at);
        }
        at = s.next;
    }
    None
}

// RESULTS

// Whether it is Result-Code or Experimental-Result.
pub fn is_result(s: Seen) -> bool {
    s.flags < 128 && matches!(s.code, 268 | 297)
}

// Where the first result of theirs stands that is of a name which ours has none of. Where ours is no bytes that is their first result.
pub fn other_result(ours: &[u8], theirs: &[u8]) -> Option<usize> {
    let mut at: usize = message::HEADER_LENGTH;
    for _ in 0..1024 {
        let Step::One(s) = reader::avp_at(theirs, at) else {
            return None;
        };
        if is_result(s) && named_before(ours, ours.len(), s) == 0 {
            return Some(at);
        }
        at = s.next;
    }
    None
}

// THE WALK INTO GROUPS

// Whether it is one of the groups that are walked: Failed-AVP, Experimental-Result and Subscription-Id.
fn is_group(s: Seen) -> bool {
    s.flags < 128 && matches!(s.code, 279 | 297 | 443)
}

// Where a walk is, inside so many groups.
#[derive(Clone, Copy)]
struct Walk {
    at: usize,
    depth: usize,
}

// Where the group ends that the walk is in; at depth 0 the message.
fn end_at(ends: &[usize; 5], depth: usize) -> usize {
    ends.get(depth).copied().unwrap_or(0)
}

// Behind the last AVP of a group. None where the walk ends here, as below.
fn climb(w: Walk) -> Option<Walk> {
    Some(Walk {
        at: w.at,
        depth: w.depth.checked_sub(1)?,
    })
}

// Into the group that stands where the walk is, and ends so far; a fifth inside four is not walked.
fn enter(ends: &mut [usize; 5], w: Walk, s: Seen, end: usize) -> Option<Walk> {
    if 3 < w.depth {
        return None;
    }
    let depth = w.depth + 1;
    ends[depth] = end;
    Some(Walk { at: s.value, depth })
}

// Past the AVP that stands where the walk is, or into it.
fn pass(ends: &mut [usize; 5], w: Walk, s: Seen, all: usize) -> Option<Walk> {
    if !is_group(s) {
        return Some(Walk { at: s.next, ..w });
    }
    if all < s.value || all - s.value < s.len {
        return None;
    }
    enter(ends, w, s, s.value + s.len)
}

fn walk_on(m: &[u8], ends: &mut [usize; 5], w: Walk) -> Option<Walk> {
    let end = end_at(ends, w.depth);
    if end <= w.at {
        return climb(w);
    }
    let Step::One(s) = reader::avp_at(m.get(..end)?, w.at) else {
        return None;
    };
    pass(ends, w, s, m.len())
}

// Where the walk ends, at an AVP that fails one of the four tests or a group that is too deep; and the end of the group around it, or of the message.
#[derive(Clone, Copy)]
pub struct Stop {
    pub at: usize,
    pub end: usize,
}

// A walk as the judge makes it. It has a turn for each AVP and one for the end of each group.
pub fn walk_end(m: &[u8]) -> Stop {
    let mut ends = [0usize; 5];
    ends[0] = m.len();
    let mut w = Walk {
        at: message::HEADER_LENGTH,
        depth: 0,
    };
    for _ in 0..2048 {
        let Some(next) = walk_on(m, &mut ends, w) else {
            return Stop {
                at: w.at,
                end: end_at(&ends, w.depth),
            };
        };
        w = next;
    }
    Stop { at: 0, end: 0 }
}
