// What a call did, in words: the code and its name, why it is no success, the place, who was cut; and the order line that it left.
#![tactic(auto)]

ghost use Rattle.std.specs.Prelude.{◌≡◌, true};
ghost use Rattle.table.specs.Soundness.{is_row};

use decision::Outcome;
use message::Kind;
use reasons::Why;
use tool_notice_line::Lengths;
use tool_words::{number, say, text};

// A request to the server on a table of form 1, for operator 0. Its own host and realm have fixed names.
pub fn call_server(
    table: &mut [u8],
    m: &[u8],
    wag: bool,
    answer: &mut [u8; answers::ANSWER_LEAST],
    notice: &mut [u8; answers::NOTICE_LENGTH],
) -> Outcome {
    decision::handle(
        table,
        1,
        0,
        b"wm.example",
        b"example",
        m,
        wag,
        answer,
        notice,
    )
}

// Why `call_server` answers a request as it does, asked before it.
pub fn why(
    table: &[u8],
    m: &[u8],
    wag: bool,
    answer: &[u8; answers::ANSWER_LEAST],
    notice: &[u8; answers::NOTICE_LENGTH],
) -> Why {
    reasons::first_failed(
        table,
        1,
        0,
        b"wm.example",
        b"example",
        m,
        wag,
        answer,
        notice,
    )
}

// A code by its number and its name.
fn code(out: &mut [u8; 4096], at: usize, kind: Kind, n: u32) -> usize {
    match kind {
        Kind::NoAnswer => {
            let a = say(out, at, b"no answer, number ");
            let b = number(out, a, u64::from(n));
            let c = say(out, b, b": ");
            tool_names::no_answer(out, c, n)
        }
        Kind::Plain => {
            let a = number(out, at, u64::from(n));
            let b = say(out, a, b" ");
            tool_names::result(out, b, n)
        }
        Kind::Experimental => {
            let a = number(out, at, u64::from(n));
            let b = say(out, a, b" ");
            tool_names::experimental(out, b, n)
        }
    }
}

// The place of a new access.
fn place(out: &mut [u8; 4096], at: usize, k: usize) -> usize {
    if k == 0 {
        return at;
    }
    let a = say(out, at, b", place ");
    number(out, a, k as u64)
}

// The access that was cut, as the notice has it.
fn cut(out: &mut [u8; 4096], at: usize, form: u32, notice: &[u8], l: Lengths) -> usize {
    let a = say(out, at, b", cut ");
    tool_notice_line::tunnel(out, a, form, notice, l)
}

// The code and its name, why it is no success on a table of that form, the place, who was cut.
pub fn outcome(
    out: &mut [u8; 4096],
    at: usize,
    form: u32,
    o: Outcome,
    why: Why,
    notice: &[u8],
) -> usize {
    let kind = o.kind;
    let a = code(out, at, kind, o.code);
    let b = tool_why::why(out, a, why, form);
    let c = place(out, b, o.place);
    match o.cut {
        None => c,
        Some(what) => {
            let l = Lengths {
                session: what.session,
                host: what.host,
                realm: what.realm,
            };
            cut(out, c, form, notice, l)
        }
    }
}

// A place of the line, with the Session-Id of its access.
fn standing(out: &mut [u8; 4096], at: usize, row: &[u8], k: usize) -> usize
    requires { is_row row.now ≡ true }
{
    if k < 1 || 8 < k {
        return at;
    }
    let a = say(out, at, b" ");
    let b = number(out, a, k as u64);
    let c = say(out, b, b" (");
    let d = text(out, c, row::session(row, k));
    say(out, d, b")")
}

// The order line, first opened first.
pub fn line(out: &mut [u8; 4096], at: usize, row: &[u8]) -> usize {
    if !tool_row_lines::is_row(row) {
        return at;
    }
    let mut a = say(out, at, b"line:");
    for i in 0..8 {
        a = standing(out, a, row, row::line_place(row, i));
    }
    a
}
