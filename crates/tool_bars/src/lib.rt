// The year by hour as people look at it: a bar for each hour in the terminal, and a picture for a browser, the cuts beside the openings.
#![tactic(auto)]

use system::System;
use tool_words::{number, say};

// SCALE

// How much of 200 v is, where `most` is all of it. Large numbers are cut down first, so that no product is too large.
fn part(v: u64, most: u64) -> u64 {
    if most == 0 {
        return 0;
    }
    if v >= most {
        return 200;
    }
    if most < 281474976710656 {
        return v * 200 / most;
    }
    v / 65536 * 200 / (most / 65536)
}

// The same of 60.
fn short_part(v: u64, most: u64) -> u64 {
    let p = part(v, most);
    if p > 200 {
        return 60;
    }
    p * 3 / 10
}

// The most that was opened or cut in an hour.
fn most_of(report: &[u64; 96]) -> u64 {
    let mut most: u64 = 0;
    for hour in 0..24 {
        most = most.max(report[4 * hour]).max(report[4 * hour + 1]);
    }
    most
}

// IN THE TERMINAL

// n times the same sign, at most 60.
fn signs(out: &mut [u8; 4096], at: usize, sign: &[u8], n: u64) -> usize {
    let mut a = at;
    for _ in 0..n.min(60) {
        a = say(out, a, sign);
    }
    a
}

fn two_digits(out: &mut [u8; 4096], at: usize, n: usize) -> usize {
    let a = if n < 10 { say(out, at, b"0") } else { at };
    number(out, a, n as u64)
}

// The bar of an hour: cuts as x, the openings that cut nothing as #.
fn bar(out: &mut [u8; 4096], at: usize, opened: u64, cuts: u64, most: u64) -> usize {
    let x = short_part(cuts, most);
    let all = short_part(opened, most);
    let a = signs(out, at, b"x", x);
    if all <= x {
        return a;
    }
    signs(out, a, b"#", all - x)
}

fn totals(out: &mut [u8; 4096], at: usize, t: [u64; 4]) -> usize {
    let a = number(out, at, t[0]);
    let b = say(out, a, b" opened, cuts ");
    let c = number(out, b, t[1]);
    let d = say(out, c, b", terminations ");
    let e = number(out, d, t[2]);
    let f = say(out, e, b", others ");
    let g = number(out, f, t[3]);
    say(out, g, b"\n")
}

// The line of an hour; whether it could be said.
fn write_line(sys: &System, report: &[u64; 96], hour: usize, most: u64) -> bool {
    if hour > 23 {
        return false;
    }
    let mut out = [0u8; 4096];
    let at = 4 * hour;
    let t = [report[at], report[at + 1], report[at + 2], report[at + 3]];
    let a = two_digits(&mut out, 0, hour);
    let b = say(&mut out, a, b" ");
    let c = bar(&mut out, b, t[0], t[1], most);
    let d = say(&mut out, c, b" ");
    let e = totals(&mut out, d, t);
    tool_files::print(sys, &out, e)
}

// The year's rate in words.
fn write_rate(sys: &System, report: &[u64; 96]) -> bool {
    let mut out = [0u8; 4096];
    let r = report::rate(report);
    if r.number != 0 {
        tool_files::refuse(sys, b"the totals of the year pass 64 bits");
        return false;
    }
    let a = say(&mut out, 0, b"the year: ");
    let b = number(&mut out, a, r.cuts);
    let c = say(&mut out, b, b" cuts to ");
    let d = number(&mut out, c, r.opened);
    let e = say(&mut out, d, b" opened, in lowest terms\n");
    tool_files::print(sys, &out, e)
}

// All hours, and the rate; whether it could be said.
pub fn show(sys: &System, report: &[u64; 96]) -> bool {
    let most = most_of(report);
    for hour in 0..24 {
        if !write_line(sys, report, hour, most) {
            return false;
        }
    }
    write_rate(sys, report)
}

// A PICTURE

fn attribute(out: &mut [u8; 4096], at: usize, name: &[u8], n: u64) -> usize {
    let a = say(out, at, name);
    let b = say(out, a, b"=\"");
    let c = number(out, b, n);
    say(out, c, b"\" ")
}

// A bar that stands on the base line, at 260.
fn column(out: &mut [u8; 4096], at: usize, x: u64, height: u64, colour: &[u8]) -> usize {
    if height > 200 {
        return at;
    }
    let a = say(out, at, b"<rect ");
    let b = attribute(out, a, b"x", x);
    let c = attribute(out, b, b"y", 260 - height);
    let d = attribute(out, c, b"width", 14);
    let e = attribute(out, d, b"height", height);
    let f = say(out, e, b"fill=\"");
    let g = say(out, f, colour);
    say(out, g, b"\"/>\n")
}

// The hour under its bars.
fn hour_name(out: &mut [u8; 4096], at: usize, x: u64, hour: usize) -> usize {
    let a = say(out, at, b"<text ");
    let b = attribute(out, a, b"x", x);
    let c = attribute(out, b, b"y", 276);
    let d = say(out, c, b"text-anchor=\"middle\">");
    let e = number(out, d, hour as u64);
    say(out, e, b"</text>\n")
}

fn draw_hour(sys: &System, report: &[u64; 96], hour: usize, most: u64) -> bool {
    if hour > 23 {
        return false;
    }
    let mut out = [0u8; 4096];
    let x = 70 + 34 * (hour as u64);
    let opened = report[4 * hour];
    let cuts = report[4 * hour + 1];
    let a = column(&mut out, 0, x, part(opened, most), b"#4477aa");
    let b = column(&mut out, a, x + 15, part(cuts, most), b"#cc3311");
    let c = hour_name(&mut out, b, x + 14, hour);
    tool_files::print(sys, &out, c)
}

// The frame: title, base line, the most of an hour, what the colours are.
fn draw_frame(sys: &System, most: u64) -> bool {
    let mut out = [0u8; 4096];
    let a = say(
        &mut out,
        0,
        b"<svg xmlns=\"http://www.w3.org/2000/svg\" viewBox=\"0 0 910 310\" font-family=\"sans-serif\" font-size=\"12\">\n<rect width=\"910\" height=\"310\" fill=\"#fff\"/>\n",
    );
    let b = say(
        &mut out,
        a,
        b"<text x=\"60\" y=\"24\" font-size=\"16\">The year by hour: accesses opened, and cuts beside them</text>\n",
    );
    let c = say(
        &mut out,
        b,
        b"<rect x=\"640\" y=\"14\" width=\"12\" height=\"12\" fill=\"#4477aa\"/><text x=\"658\" y=\"24\">opened</text>\n<rect x=\"730\" y=\"14\" width=\"12\" height=\"12\" fill=\"#cc3311\"/><text x=\"748\" y=\"24\">cuts</text>\n",
    );
    let d = say(
        &mut out,
        c,
        b"<path d=\"M60 60H890M60 260H890\" stroke=\"#999\"/>\n<text x=\"54\" y=\"264\" text-anchor=\"end\">0</text>\n<text x=\"54\" y=\"64\" text-anchor=\"end\">",
    );
    let e = number(&mut out, d, most);
    let f = say(
        &mut out,
        e,
        b"</text>\n<text x=\"475\" y=\"298\" text-anchor=\"middle\">hour of the day</text>\n",
    );
    tool_files::print(sys, &out, f)
}

// The whole picture; whether it could be written.
pub fn draw(sys: &System, report: &[u64; 96]) -> bool {
    let most = most_of(report);
    if !draw_frame(sys, most) {
        return false;
    }
    for hour in 0..24 {
        if !draw_hour(sys, report, hour, most) {
            return false;
        }
    }
    tool_files::put(sys, b"</svg>\n")
}
