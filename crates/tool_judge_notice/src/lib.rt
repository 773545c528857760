// What a judgement says of a notice that is not the one due: where it first differs from ours, with the tunnels of both.
#![tactic(auto)]

use system::System;
use tool_judge_words::{end_line, how_many};
use tool_words::{number, say};

// The tunnel that a notice names, behind a margin. One of another length than a notice has is only said to be so.
fn tell_tunnel(sys: &System, margin: &[u8], form: u32, notice: &[u8]) -> bool {
    let mut out = [0u8; 4096];
    let mut room = [0u8; answers::NOTICE_LENGTH_2];
    let a = say(&mut out, 0, margin);
    if notice.len() != tool_form::notice_length(form) {
        let b = how_many(&mut out, a, notice.len(), b"byte");
        let c = say(&mut out, b, b", and a notice has ");
        let d = number(&mut out, c, tool_form::notice_length(form) as u64);
        return end_line(sys, &mut out, d, b"");
    }
    let Some(copy) = room.get_mut(..notice.len()) else {
        return true;
    };
    copy.copy_from_slice(notice);
    let l = tool_notice_line::lengths_of(&room);
    let b = say(&mut out, a, b"cut ");
    let c = tool_notice_line::tunnel(&mut out, b, form, &room, l);
    end_line(sys, &mut out, c, b"")
}

fn tell_notice_byte(
    sys: &System,
    out: &mut [u8; 4096],
    at: usize,
    form: u32,
    ours: &[u8],
    theirs: &[u8],
    byte: usize,
) -> bool {
    let a = say(out, at, b"the notice differs at byte ");
    let b = number(out, a, byte as u64);
    if !end_line(sys, out, b, b"") {
        return false;
    }
    tell_tunnel(sys, b"  ours: ", form, ours) && tell_tunnel(sys, b"  theirs: ", form, theirs)
}

// A notice that is not the one due, said behind what the line has; ours is no bytes where none is due.
pub fn tell_notice(
    sys: &System,
    out: &mut [u8; 4096],
    at: usize,
    form: u32,
    ours: &[u8],
    theirs: &[u8],
    byte: usize,
) -> bool {
    if theirs.is_empty() {
        return end_line(sys, out, at, b"no notice, and one is due")
            && tell_tunnel(sys, b"  ours: ", form, ours);
    }
    if ours.is_empty() {
        return end_line(sys, out, at, b"a notice, and none is due")
            && tell_tunnel(sys, b"  theirs: ", form, theirs);
    }
    tell_notice_byte(sys, out, at, form, ours, theirs, byte)
}
