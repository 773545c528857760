// A burst: messages back to back in one call, each with its word from the WAG; answers, notices and results are written the same way.
#![tactic(auto)]

ghost use Rattle.std.specs.Prelude.{◌≡◌, ◌&&◌, List, map, ℕ, ◌+◌, ◌≤◌, ◌<◌, leb, length, drop, set};
ghost use Rattle.octets.specs.Choice.{pick};
ghost use Rattle.message.specs.TheRooms.{answer_least};
ghost use Rattle.table.specs.Answers.{lent};
ghost use Rattle.rules.specs.Calls.{Result, handle};
ghost use Rattle.decision.specs.Outcomes.{call_of, leaves as call_leaves, result_said};
ghost use Rattle.numbers.specs.InNumbers.{In32};
ghost use Rattle.burst.specs.TheBurst.{burst, burst_number, next_length, whole_messages};
ghost use Rattle.burst.specs.Code.{burst_of, leaves, result_in};

use decision::Outcome;

// What a burst returns: the number, 0 on success; how many messages were taken and how many bytes they have; how many bytes of answers and how many
// notices were written.
#[repr(C)]
#[derive(Clone, Copy)]
pub struct Taken {
    pub number: u32,
    pub messages: usize,
    pub bytes: usize,
    pub answers: usize,
    pub notices: usize,
}

// WHERE MESSAGES END

// A message has a header or more; its length stands in the first four bytes.
const LENGTH_END: usize = 4;

// How long the message from `at` on is, 0 where no whole one stands there.
fn next_length(messages: &[u8], at: usize) -> usize
    requires { at ≤ length messages.now }
    ensures { result ≡ next_length (drop at messages.now) }
{
    let left = messages.len() - at;
    if left < LENGTH_END {
        return 0;
    }
    let n = octets::read24(messages, at + 1);
    if n < message::HEADER_LENGTH {
        return 0;
    }
    if left < n {
        return 0;
    }
    n
}

// How many whole messages there are before the first bad boundary, or the end.
fn whole_messages(messages: &[u8]) -> usize
    ensures { result ≡ length (whole_messages messages.now) }
{
    let mut at: usize = 0;
    let mut whole: usize = 0;
    let mut next = next_length(messages, at);
    while next != 0 {
        at += next;
        whole += 1;
        next = next_length(messages, at);
    }
    whole
}

// REFUSALS

// The number that a burst is refused with, 0 where it is not, for as many words and places for results as are said.
fn burst_number(
    table: &[u8],
    form: u32,
    op: u32,
    host: &[u8],
    realm: &[u8],
    messages: &[u8],
    words: usize,
    places: usize,
) -> u32
    ensures { (wags answers notices : List ℕ) (results : List Result) → length wags ≡ words → length results ≡ places
        → result ≡ burst_number (lent form table.now) (burst_of op host.now realm.now messages.now wags answers notices results) }
{
    let n = table::number_for(table, form, op);
    if n != 0 {
        return n;
    }
    if !decision::name_fits(host) {
        return 2;
    }
    if !decision::name_fits(realm) {
        return 2;
    }
    let whole = whole_messages(messages);
    if words < whole {
        return 18;
    }
    if places < whole {
        return 18;
    }
    0
}

// RESULTS IN NUMBERS

// The numbers in the i-th place; all others stay.
fn put_result(results: &mut [[u32; 8]], i: usize, o: Outcome)
    requires { (i < length results.old) × In32 (result_said o) }
    ensures { map result_in results.new ≡ set (map result_in results.old) i (result_said o) }
{
    let n = numbers::numbers_of(o);
    results[i] = [
        n.code, n.kind, n.length, n.place, n.cut, n.session, n.host, n.realm,
    ];
}

// ONE MESSAGE

// The message handled in the rooms that are lent, its result in the i-th place.
fn take_one(
    table: &mut [u8],
    form: u32,
    op: u32,
    host: &[u8],
    realm: &[u8],
    message: &[u8],
    wag: bool,
    answer: &mut [u8],
    notice: &mut [u8],
    results: &mut [[u32; 8]],
    i: usize,
) -> Outcome
    requires { i < length results.old }
    ensures { (call_leaves result (lent form table.new) answer.new notice.new
        ≡ handle (lent form table.old) (call_of op message.now host.now realm.now answer.old notice.old wag))
        × (map result_in results.new ≡ set (map result_in results.old) i (result_said result)) }
{
    let o = decision::handle(table, form, op, host, realm, message, wag, answer, notice);
    put_result(results, i, o);
    o
}

// ALL OF THEM

// How long the message from `at` on is, 0 where the burst stops: there is no whole message, or too little room is left.
fn next_taken(messages: &[u8], at: usize, answers: usize, notices: usize, room: usize) -> usize
    requires { at ≤ length messages.now }
    ensures { result ≡ pick (leb answer_least answers && leb room notices) (next_length (drop at messages.now)) 0 }
{
    if answers < answers::ANSWER_LEAST {
        return 0;
    }
    if notices < room {
        return 0;
    }
    next_length(messages, at)
}

// The messages, one by one, into what is left of the rooms.
fn take_all(
    table: &mut [u8],
    form: u32,
    op: u32,
    host: &[u8],
    realm: &[u8],
    messages: &[u8],
    wags: &[u8],
    answers: &mut [u8],
    notices: &mut [u8],
    results: &mut [[u32; 8]],
) -> Taken
    requires { burst_number (lent form table.old) (burst_of op host.now realm.now messages.now wags.now answers.old notices.old (map result_in results.old)) ≡ 0 }
    ensures { leaves result (lent form table.new) answers.new notices.new results.new
        ≡ burst (lent form table.old) (burst_of op host.now realm.now messages.now wags.now answers.old notices.old (map result_in results.old)) }
{
    let room = decision::notice_length(form);
    let most = answers.len();
    let last = notices.len();
    let mut taken: usize = 0;
    let mut at: usize = 0;
    let mut used: usize = 0;
    let mut cuts: usize = 0;
    let mut from: usize = 0;
    let mut next = next_taken(messages, at, most, last, room);
    while next != 0 {
        let end = at + next;
        let wag = wags[taken] != 0;
        let o = take_one(
            table,
            form,
            op,
            host,
            realm,
            &messages[at..end],
            wag,
            &mut answers[used..most],
            &mut notices[from..last],
            results,
            taken,
        );
        let cut = o.cut;
        used += o.length;
        cuts += numbers::cut_number(cut) as usize;
        from = cuts * room;
        at = end;
        taken += 1;
        next = next_taken(messages, at, most - used, last - from, room);
    }
    Taken {
        number: 0,
        messages: taken,
        bytes: at,
        answers: used,
        notices: cuts,
    }
}

// Messages back to back, as far as the rooms reach. Nothing is asked of what is lent; a refusal has its number and changes nothing.
pub fn burst(
    table: &mut [u8],
    form: u32,
    op: u32,
    host: &[u8],
    realm: &[u8],
    messages: &[u8],
    wags: &[u8],
    answers: &mut [u8],
    notices: &mut [u8],
    results: &mut [[u32; 8]],
) -> Taken
    ensures { leaves result (lent form table.new) answers.new notices.new results.new
        ≡ burst (lent form table.old) (burst_of op host.now realm.now messages.now wags.now answers.old notices.old (map result_in results.old)) }
{
    let n = burst_number(
        table,
        form,
        op,
        host,
        realm,
        messages,
        wags.len(),
        results.len(),
    );
    if n != 0 {
        return Taken {
            number: n,
            messages: 0,
            bytes: 0,
            answers: 0,
            notices: 0,
        };
    }
    take_all(
        table, form, op, host, realm, messages, wags, answers, notices, results,
    )
}
