// The worked cases of document 01 on a table of one row, step by step: what was asked, what the server answered, and the order line after it.
// In case 7 "Board" answers as "board" does: labels are compared without regard to case.
#![tactic(auto)]

use tool_words::{number, octet, say};

// A step is three signs: what is done, the Session-Id, and the first letter of the label.
// # is the case of that number, < the cases 1 to 3 again, ? what to look at, ! what was seen, + a fresh table, s the sums, r the result in the
// last answer, and a letter else a request (`tool_case_requests`).
fn sign(i: usize) -> u8 {
    let signs =
        b"#01+..oab#02obb#03?..ocb!..#04odb<..+..oabobbocb#05obb#06tcbtab#07veyvebveBoeBteB#08s..#09ofbr..#10ugbr..#11l8.l9.m6.m0.b..";
    signs.get(i).copied().unwrap_or(0)
}

// The heading of a case, by its two digits.
fn heading(out: &mut [u8; 4096], tens: u8, ones: u8) -> usize {
    let two = [tens, ones];
    let digits = two.strip_prefix(b"0").unwrap_or(&two);
    let a = say(out, 0, b"case ");
    let b = say(out, a, digits);
    say(out, b, b"\n")
}

// Before the first cut.
fn watch(out: &mut [u8; 4096]) -> usize {
    say(
        out,
        0,
        b"  WATCH: board is full, two tunnels of two. The next one is let in all the same, and the one opened first, a, goes.\n",
    )
}

// Behind it.
fn seen(out: &mut [u8; 4096]) -> usize {
    say(
        out,
        0,
        b"  SEEN: c is in, at the place that a had; a is cut, and its gateway is named, so that it can be told; b is the oldest now.\n",
    )
}

fn set(out: &mut [u8; 4096], at: usize, what: &[u8], n: u32) -> usize {
    let a = say(out, at, what);
    let b = number(out, a, u64::from(n));
    say(out, b, b"\n")
}

// The order line of the only row, on a line of its own. The Session-Ids of the steps about sizes are too long for it.
fn line(out: &mut [u8; 4096], at: usize, what: u8, row: &[u8]) -> usize {
    if tool_case_requests::is_sized(what) {
        return at;
    }
    let a = say(out, at, b"    ");
    let b = tool_reply_line::line(out, a, row);
    say(out, b, b"\n")
}

// A fresh table of form 1 with the subscriber of the cases, who is of operator 0, as its only row is.
fn fresh(table: &mut [u8; table::ROW_LENGTH_1], out: &mut [u8; 4096]) -> usize {
    let user = b"001010123456789";
    let shares: [u32; 16] = [1, 0, 0, 0, 0, 0, 0, 0, 0, 0, 0, 0, 0, 0, 0, 0];
    let a = set(out, 0, b"  clear: ", setup::clear(table, 1));
    let b = set(
        out,
        a,
        b"  enter 001010123456789: ",
        setup::enter(table, 1, 0, &shares, user),
    );
    let c = set(
        out,
        b,
        b"  add board, limit 2: ",
        setup::add(table, 1, 0, user, b"board", 2, 0),
    );
    set(
        out,
        c,
        b"  add yard, limit 1, barred: ",
        setup::add(table, 1, 0, user, b"yard", 1, 1),
    )
}

fn sums(out: &mut [u8; 4096], at: usize, block: &[u8; table::BLOCK_LENGTH]) -> usize {
    let sums = table::sums_of(block);
    let a = octet(out, at, (sums.second % 256) as u8);
    let b = say(out, a, b" ");
    let c = octet(out, b, (sums.first % 256) as u8);
    say(out, c, b"\n")
}

// The zeros in front of a text leave both sums at 0.
fn both_sums(out: &mut [u8; 4096]) -> usize {
    let mut block = [0u8; table::BLOCK_LENGTH];
    let a = say(out, 0, b"  the sums of a zero block: ");
    let b = sums(out, a, &block);
    block[505..510].copy_from_slice(b"abcde");
    let c = say(out, b, b"  the sums of \"abcde\": ");
    sums(out, c, &block)
}

// The result in an answer to a request whose Session-Id is one byte long: it stands behind the header, the Session-Id and two numbers.
fn result(out: &mut [u8; 4096], answer: &[u8]) -> usize {
    if answer.len() < answers::ANSWER_LEAST {
        return 0;
    }
    let end = 56 + octets::read24(answer, 61);
    if answers::ANSWER_LEAST < end {
        return 0;
    }
    let a = say(out, 0, b"  its result:");
    let b = tool_words::octets(out, a, &answer[56..end]);
    say(out, b, b"\n")
}

// The first n bytes of the room as a message, and what came of it.
fn send(
    table: &mut [u8; table::ROW_LENGTH_1],
    room: &[u8],
    n: usize,
    answer: &mut [u8; answers::ANSWER_LEAST],
    notice: &mut [u8; answers::NOTICE_LENGTH],
    out: &mut [u8; 4096],
    at: usize,
) -> usize {
    let Some(m) = room.get(..n) else {
        return at;
    };
    let why = tool_reply_line::why(table, m, true, answer, notice);
    let o = tool_reply_line::call_server(table, m, true, answer, notice);
    let a = say(out, at, b": ");
    let b = tool_reply_line::outcome(out, a, 1, o, why, notice);
    say(out, b, b"\n")
}

// The step k: what it says stands in `out`, as many bytes as are returned.
pub fn step(
    k: usize,
    table: &mut [u8; table::ROW_LENGTH_1],
    room: &mut [u8; 4100],
    answer: &mut [u8; answers::ANSWER_LEAST],
    notice: &mut [u8; answers::NOTICE_LENGTH],
    out: &mut [u8; 4096],
) -> usize {
    if 40 < k {
        return 0;
    }
    let what = sign(3 * k);
    let who = sign(3 * k + 1);
    let label = sign(3 * k + 2);
    match what {
        b'#' => heading(out, who, label),
        b'<' => say(out, 0, b"cases 1 to 3 again\n"),
        b'?' => watch(out),
        b'!' => seen(out),
        b'+' => fresh(table, out),
        b's' => both_sums(out),
        b'r' => result(out, answer),
        _ => {
            let n = tool_case_requests::build(room, what, who, label);
            let a = tool_case_requests::asked(out, what, who, label);
            let b = send(table, room, n, answer, notice, out, a);
            line(out, b, what, table)
        }
    }
}
