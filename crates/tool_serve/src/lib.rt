// The messages of a file put to the server, in order, a burst at a time: each answer and each notice written, a line said, and the board fed, if there is one.
#![tactic(auto)]

use burst::Taken;
use decision::Outcome;
use effects::Cut;
use message::Kind;
use reasons::{Reason, Why};
use system::System;
use tool_outcomes::Sheets;
use tool_page::{Beside, Desk, End, Names, Page, Slot};
use tool_screens::Entry;
use tool_totals::Totals;

// The files that are named in lines: the requests, and those that answers and notices go to.
#[derive(Clone, Copy)]
pub struct Paths<'a> {
    pub requests: &'a [u8],
    pub answers: &'a [u8],
    pub notices: &'a [u8],
}

fn written_to(d: Desk) -> Sheets {
    Sheets {
        answers: d.answers,
        notices: d.notices,
    }
}

// So many bytes from a place on; none where there are not so many.
fn part(s: &[u8], from: usize, n: usize) -> &[u8] {
    let Some(rest) = s.get(from..) else {
        return b"";
    };
    rest.get(..n).unwrap_or(b"")
}

// ONE MESSAGE

// What came of a message, written, counted, said and fed to the board. None where it could not be, as below.
fn report(
    sys: &System,
    d: Desk,
    paths: Paths,
    screens: &mut [Entry],
    m: &[u8],
    b: Beside,
    o: Outcome,
    why: Why,
    answer: &[u8],
    notice: &[u8],
    t: Totals,
) -> Option<Totals> {
    if !tool_outcomes::keep(
        sys,
        written_to(d),
        paths.answers,
        paths.notices,
        d.form,
        o,
        answer,
        notice,
    ) {
        return None;
    }
    let u = tool_totals::counted(t, o, tool_expected::is_expected(o, b.expected));
    if !tool_outcomes::tell_unless_quiet(
        sys, d.quiet, b.expected, u.messages, m, d.form, o, why, notice,
    ) {
        return None;
    }
    tool_feed::feed(sys, u.messages, d.quiet, d.form, screens, m, o, notice).then_some(u)
}

// A message put to the server by itself, and what comes of it.
fn serve_one(
    sys: &System,
    d: Desk,
    paths: Paths,
    table: &mut [u8],
    screens: &mut [Entry],
    names: Names,
    m: &[u8],
    b: Beside,
    t: Totals,
) -> Option<Totals> {
    let mut answer = [0u8; answers::ANSWER_LEAST];
    let mut notice = [0u8; answers::NOTICE_LENGTH_2];
    let why = reasons::first_failed(
        table,
        d.form,
        d.op,
        names.host,
        names.realm,
        m,
        b.wag,
        &answer,
        &notice,
    );
    let o = decision::handle(
        table,
        d.form,
        d.op,
        names.host,
        names.realm,
        m,
        b.wag,
        &mut answer,
        &mut notice,
    );
    report(sys, d, paths, screens, m, b, o, why, &answer, &notice, t)
}

// WHAT A BURST GIVES

fn kind_of(n: u32) -> Kind {
    match n {
        0 => Kind::NoAnswer,
        1 => Kind::Plain,
        _ => Kind::Experimental,
    }
}

fn cut_of(r: [u32; 8]) -> Option<Cut> {
    if r[4] == 0 {
        return None;
    }
    Some(Cut {
        session: r[5] as usize,
        host: r[6] as usize,
        realm: r[7] as usize,
    })
}

// The outcome that a place for results has.
fn outcome_of(r: [u32; 8]) -> Outcome {
    Outcome {
        code: r[0],
        kind: kind_of(r[1]),
        length: r[2] as usize,
        place: r[3] as usize,
        cut: cut_of(r),
    }
}

fn result_at(results: &[[u32; 8]], i: usize) -> [u32; 8] {
    results.get(i).copied().unwrap_or([0; 8])
}

// How many bytes of notices an outcome has.
fn noticed(form: u32, o: Outcome) -> usize {
    let cut = o.cut;
    if tool_totals::is_cut(cut) {
        return tool_form::notice_length(form);
    }
    0
}

// WHY, AFTERWARDS

// Why a message was refused, from a reason that holds of the table afterwards as if the gateway said no. Messages change neither names nor labels, and
// make no row unsound; only which Session-Ids are held may have changed, and then the code tells. A policy that goes with others was not refused by the gateway.
fn refused_for(r: Reason, o: Outcome) -> Reason {
    match r {
        Reason::GatewaySaysNo => Reason::NoAccess,
        Reason::Passes => {
            if o.code == 5012 {
                return Reason::SessionHeld;
            }
            Reason::Unused
        }
        _ => r,
    }
}

fn why_refused(d: Desk, table: &[u8], names: Names, m: &[u8], o: Outcome) -> Why {
    let answer = [0u8; answers::ANSWER_LEAST];
    let notice = [0u8; answers::NOTICE_LENGTH_2];
    let why = reasons::first_failed(
        table,
        d.form,
        d.op,
        names.host,
        names.realm,
        m,
        false,
        &answer,
        &notice,
    );
    match why {
        Why::Unanswered(n) => Why::Unanswered(n),
        Why::Answered(r) => Why::Answered(refused_for(r, o)),
    }
}

// Nothing is asked where no line is said or nothing was refused.
fn why_told(d: Desk, table: &[u8], names: Names, m: &[u8], b: Beside, o: Outcome) -> Why {
    if o.code == 2001 || d.quiet && tool_expected::is_expected(o, b.expected) {
        return Why::Answered(Reason::Passes);
    }
    why_refused(d, table, names, m, o)
}

// A PAGE

// How far a page is told: the slot, the message of the burst, and where the next message, answer and notice stand.
#[derive(Clone, Copy)]
struct At {
    slot: usize,
    message: usize,
    bytes: usize,
    answers: usize,
    notices: usize,
}

fn at_start() -> At {
    At {
        slot: 0,
        message: 0,
        bytes: 0,
        answers: 0,
        notices: 0,
    }
}

// Behind a message that is passed over.
fn behind_passed(a: At) -> At {
    At {
        slot: a.slot.saturating_add(1),
        ..a
    }
}

// Behind a message of n bytes that came to this.
fn behind(a: At, n: usize, form: u32, o: Outcome) -> At {
    At {
        slot: a.slot.saturating_add(1),
        message: a.message.saturating_add(1),
        bytes: a.bytes.saturating_add(n),
        answers: a.answers.saturating_add(o.length),
        notices: a.notices.saturating_add(noticed(form, o)),
    }
}

// The next place, once the slot is told.
fn next(form: u32, slot: Option<Slot>, results: &[[u32; 8]], a: At) -> At {
    match slot {
        Some(s) => behind(a, s.bytes, form, outcome_of(result_at(results, a.message))),
        None => behind_passed(a),
    }
}

// A message that the burst took.
fn tell_taken(
    sys: &System,
    d: Desk,
    paths: Paths,
    table: &[u8],
    screens: &mut [Entry],
    names: Names,
    m: &[u8],
    b: Beside,
    said: &[u8],
    cuts: &[u8],
    o: Outcome,
    a: At,
    t: Totals,
) -> Option<Totals> {
    let why = why_told(d, table, names, m, b, o);
    let answer = part(said, a.answers, o.length);
    let notice = part(cuts, a.notices, noticed(d.form, o));
    report(sys, d, paths, screens, m, b, o, why, answer, notice, t)
}

// The slot at which the page is: passed over, taken by the burst, or put to the server by itself.
fn tell_slot(
    sys: &System,
    d: Desk,
    paths: Paths,
    table: &mut [u8],
    screens: &mut [Entry],
    names: Names,
    messages: &[u8],
    slot: Option<Slot>,
    said: &[u8],
    cuts: &[u8],
    results: &[[u32; 8]],
    taken: usize,
    a: At,
    t: Totals,
) -> Option<Totals> {
    let Some(s) = slot else {
        return Some(tool_totals::passed(t));
    };
    let m = part(messages, a.bytes, s.bytes);
    let b = s.beside;
    if a.message < taken {
        let o = outcome_of(result_at(results, a.message));
        return tell_taken(
            sys, d, paths, table, screens, names, m, b, said, cuts, o, a, t,
        );
    }
    serve_one(sys, d, paths, table, screens, names, m, b, t)
}

// All slots of a page, in order, up to the first of which something could not be written.
fn tell_page(
    sys: &System,
    d: Desk,
    paths: Paths,
    table: &mut [u8],
    screens: &mut [Entry],
    names: Names,
    messages: &[u8],
    slots: &[Option<Slot>],
    said: &[u8],
    cuts: &[u8],
    results: &[[u32; 8]],
    p: Page,
    taken: usize,
    all: usize,
    before: Totals,
) -> Option<Totals> {
    let mut t = before;
    let mut a = at_start();
    for _ in 0..p.slots {
        let slot = slots.get(a.slot).copied().flatten();
        t = tell_slot(
            sys, d, paths, table, screens, names, messages, slot, said, cuts, results, taken, a, t,
        )?;
        tool_totals::progress(sys, t.messages, Some(all));
        a = next(d.form, slot, results, a);
    }
    Some(t)
}

fn none_taken() -> Taken {
    Taken {
        number: 0,
        messages: 0,
        bytes: 0,
        answers: 0,
        notices: 0,
    }
}

// The burst of a page.
fn call(
    d: Desk,
    table: &mut [u8],
    names: Names,
    messages: &[u8],
    wags: &[u8],
    p: Page,
    said: &mut [u8],
    cuts: &mut [u8],
    results: &mut [[u32; 8]],
) -> Taken {
    let Some(texts) = messages.get(..p.bytes) else {
        return none_taken();
    };
    let Some(words) = wags.get(..p.messages) else {
        return none_taken();
    };
    burst::burst(
        table,
        d.form,
        d.op,
        names.host,
        names.realm,
        texts,
        words,
        said,
        cuts,
        results,
    )
}

// A page put to the server. What the burst does not take, because it is refused or would not be cut the same way, goes by itself.
fn serve_page(
    sys: &System,
    d: Desk,
    paths: Paths,
    table: &mut [u8],
    screens: &mut [Entry],
    names: Names,
    messages: &[u8],
    slots: &[Option<Slot>],
    wags: &[u8],
    p: Page,
    said: &mut [u8],
    cuts: &mut [u8],
    all: usize,
    t: Totals,
) -> Option<Totals> {
    let mut results = [[0u32; 8]; 128];
    let taken = call(d, table, names, messages, wags, p, said, cuts, &mut results);
    tell_page(
        sys,
        d,
        paths,
        table,
        screens,
        names,
        messages,
        slots,
        said,
        cuts,
        &results,
        p,
        taken.messages,
        all,
        t,
    )
}

// What could not be read again, said.
fn check_page(sys: &System, requests: &[u8], p: Page, t: Totals) -> Option<Totals> {
    match p.end {
        Some(End::NoMessage) => {
            tool_files::refuse_word(sys, requests, b": a message could not be read again");
            None
        }
        Some(End::NoLine) => {
            tool_files::refuse(sys, b"a line of wags= or codes= could not be read again");
            None
        }
        Some(End::Full) | None => Some(t),
    }
}

// ALL MESSAGES

// The next page, read, put to the server and told.
fn turn(
    sys: &System,
    d: Desk,
    paths: Paths,
    table: &mut [u8],
    screens: &mut [Entry],
    names: Names,
    messages: &mut [u8],
    said: &mut [u8],
    cuts: &mut [u8],
    all: usize,
    t: Totals,
) -> Option<Totals> {
    let mut slots = [None; 128];
    let mut wags = [0u8; 128];
    let left = all.saturating_sub(t.messages);
    let p = tool_page::gather(sys, d, table, names, messages, &mut slots, &mut wags, left);
    let u = serve_page(
        sys, d, paths, table, screens, names, messages, &slots, &wags, p, said, cuts, all, t,
    )?;
    check_page(sys, paths.requests, p, u)
}

// All pages of the file, up to the first of which something could not be served, which is then said.
fn serve_pages(
    sys: &System,
    d: Desk,
    paths: Paths,
    table: &mut [u8],
    screens: &mut [Entry],
    names: Names,
    messages: &mut [u8],
    said: &mut [u8],
    cuts: &mut [u8],
    all: usize,
) -> Option<Totals> {
    let mut t = tool_totals::none();
    for _ in 0..all {
        t = turn(
            sys, d, paths, table, screens, names, messages, said, cuts, all, t,
        )?;
        if all <= t.messages {
            return Some(t);
        }
    }
    Some(t)
}

// A function of its own lends the rooms, as arrays: where they are made, a slice of an array this long takes the proof more than its stack.
fn lend(
    sys: &System,
    d: Desk,
    paths: Paths,
    table: &mut [u8],
    screens: &mut [Entry],
    names: Names,
    messages: &mut [u8; 262144],
    said: &mut [u8; 655360],
    cuts: &mut [u8; 49152],
    all: usize,
) -> Option<Totals> {
    serve_pages(
        sys, d, paths, table, screens, names, messages, said, cuts, all,
    )
}

// The rooms of a page: 128 messages with all that they can ask for, so that a file of a hundred is one burst.
fn in_rooms(
    sys: &System,
    d: Desk,
    paths: Paths,
    table: &mut [u8],
    screens: &mut [Entry],
    names: Names,
    all: usize,
) -> Option<Totals> {
    let mut messages = [0u8; 262144];
    let mut said = [0u8; 655360];
    let mut cuts = [0u8; 49152];
    lend(
        sys,
        d,
        paths,
        table,
        screens,
        names,
        &mut messages,
        &mut said,
        &mut cuts,
        all,
    )
}

// All messages of the file, in order, under the names that the words say. None where something could not be read or written, which is then said.
pub fn serve_all(
    sys: &System,
    d: Desk,
    paths: Paths,
    table: &mut [u8],
    screens: &mut [Entry],
    all: usize,
) -> Option<Totals> {
    let mut host = [0u8; 4096];
    let mut realm = [0u8; 4096];
    let names = Names {
        host: tool_options::host(sys, d.host, &mut host),
        realm: tool_options::realm(sys, d.realm, &mut realm),
    };
    in_rooms(sys, d, paths, table, screens, names, all)
}
