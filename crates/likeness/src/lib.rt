// Another server's answer held against ours (W10): whether it is the same answer, and where it first differs. It knows no table.
#![tactic(auto)]

ghost use Rattle.std.specs.Prelude.{◌≡◌, true, false, ◌&&◌, ◌||◌, not, List, ℕ, ◌+◌, ◌-◌, ◌≤◌, ◌<◌, eqb, leb, ltb, length, get_or, take, drop};
ghost use Rattle.octets.specs.Choice.{pick};
ghost use Rattle.octets.specs.Texts.{same, zeros};
ghost use Rattle.message.specs.ReadingAMessage.{base, same_name, having};
ghost use Rattle.likeness.specs.TheSameAnswer.{nothing, failed_avp, is_group, fault_in, agreeing, compared, header_due, header_finding, same_avp, first_is, fits, starts_like, misplaced, complete, answer_finding};
ghost use Rattle.likeness.specs.Code.{mismatch_number, said, avp_at, avps_from, named_from, next_at, Stands, mark_count, mark_of, Kept, Marked, Behind, Noted};

// What two servers left that is not the same.
#[derive(Clone, Copy, PartialEq, Eq)]
pub enum Mismatch {
    Header = 1,
    BrokenAvp = 2,
    OtherAvp = 3,
    MissingAvp = 4,
    Notice = 5,
    Row = 6,
}

// Why theirs is not the same: groups stand too deep in it, or the first mismatch and the byte at which it is.
#[derive(Clone, Copy)]
pub enum Difference {
    TooDeep,
    At(Mismatch, usize),
}

// ONE AVP

// How many bytes an AVP's header has, by its flags and length as one word; of a length under 8 it does not matter. The word is compared as a whole: asked
// for V alone, the compiler would load it byte by byte.
fn head_length(word: u32) -> usize
    ensures { result ≡ pick (leb 2147483656 word) 12 8 }
{
    if 2147483656 <= word {
        return 12;
    }
    8
}

// Where the AVP behind the one at a place starts; 0 where there is none or it fails one of the four tests. It is a step of its own: that of a request's
// walk would have two callers, and the compiler would put it in line at neither.
fn next_at(m: &[u8], at: usize) -> usize
    ensures { result ≡ next_at m.now at }
{
    if m.len() <= at {
        return 0;
    }
    let left = m.len() - at;
    if left < 8 {
        return 0;
    }
    let word = message::flags_and_length(m, at);
    let n = (word % 536870912) as usize;
    if 16777216 <= n {
        return 0;
    }
    if n < head_length(word) {
        return 0;
    }
    let whole = (n + 3) / 4 * 4;
    if left < whole {
        return 0;
    }
    at + whole
}

// Its value.
fn value_of(m: &[u8], at: usize) -> &[u8]
    requires { Stands m.now at }
    ensures { result.now ≡ (avp_at m.now at).value }
{
    let end = at + octets::read24(m, at + 5);
    if m[at + 4] < 128 {
        let from = at + 8;
        return &m[from..end];
    }
    let from = at + 12;
    &m[from..end]
}

// Whether its V is set. Since its length is 8 at least, the word tells it as a whole.
fn has_v(m: &[u8], at: usize) -> bool
    requires { Stands m.now at }
    ensures { result ≡ leb 128 (get_or m.now (at + 4) 0) }
{
    2147483656 <= message::flags_and_length(m, at)
}

// Whether it has this code, without V.
fn is_base(m: &[u8], at: usize, code: u32) -> bool
    requires { Stands m.now at }
    ensures { result ≡ same_name (base code) (avp_at m.now at).name }
{
    if has_v(m, at) {
        return false;
    }
    code == octets::read32(m, at)
}

// Whether it is a group.
fn is_group(m: &[u8], at: usize) -> bool
    requires { Stands m.now at }
    ensures { result ≡ is_group (avp_at m.now at).name }
{
    if is_base(m, at, 279) {
        return true;
    }
    if is_base(m, at, 297) {
        return true;
    }
    is_base(m, at, 443)
}

// Whether two AVPs have the same name.
fn same_name(a: &[u8], p: usize, b: &[u8], q: usize) -> bool
    requires { Stands a.now p × Stands b.now q }
    ensures { result ≡ same_name (avp_at a.now p).name (avp_at b.now q).name }
{
    if octets::read32(a, p) != octets::read32(b, q) {
        return false;
    }
    if a[p + 4] < 128 {
        return b[q + 4] < 128;
    }
    if b[q + 4] < 128 {
        return false;
    }
    octets::read32(a, p + 8) == octets::read32(b, q + 8)
}

// Whether they have the same flags and the same value.
fn same_avp(a: &[u8], p: usize, b: &[u8], q: usize) -> bool
    requires { Stands a.now p × Stands b.now q }
    ensures { result ≡ same_avp (avp_at a.now p) (avp_at b.now q) }
{
    if a[p + 4] != b[q + 4] {
        return false;
    }
    octets::same_bytes(value_of(a, p), value_of(b, q))
}

// THE AVPS OF A NAME

// 1 where it is so, else 0.
fn one_if(b: bool) -> usize
    ensures { result ≡ pick b 1 0 }
{
    if b {
        return 1;
    }
    0
}

// How many AVPs from a place on have the name of the one that stands at `at` of `other`.
fn named_from(m: &[u8], from: usize, other: &[u8], at: usize) -> usize
    requires { Stands other.now at }
    ensures { result ≡ named_from (avp_at other.now at).name m.now from }
{
    let mut p: usize = from;
    let mut n: usize = 0;
    let mut next: usize = next_at(m, p);
    while next != 0 {
        n += one_if(same_name(other, at, m, p));
        p = next;
        next = next_at(m, p);
    }
    n
}

// Whether an AVP is the one that is looked for: of the name, with none of it to pass any more.
fn is_it(same: bool, left: usize) -> bool
    ensures { result ≡ same && eqb left 0 }
{
    if same {
        return left == 0;
    }
    false
}

// The difference, 0 where there is none.
fn minus(a: usize, b: usize) -> usize
    ensures { result ≡ a - b }
{
    if a < b {
        return 0;
    }
    a - b
}

// Whether the k-th AVP of ours, counted from 0, with the name of the one that stands at `at` of theirs is there and has its flags and its value.
fn met_by(ours: &[u8], k: usize, theirs: &[u8], at: usize) -> bool
    requires { Stands theirs.now at }
    ensures { result ≡ first_is (drop k (having (avp_at theirs.now at).name (avps_from ours.now 20))) (avp_at theirs.now at) }
{
    let mut p: usize = message::HEADER_LENGTH;
    let mut left: usize = k;
    let mut next: usize = next_at(ours, p);
    while next != 0 {
        let same = same_name(theirs, at, ours, p);
        if is_it(same, left) {
            return same_avp(ours, p, theirs, at);
        }
        left = minus(left, one_if(same));
        p = next;
        next = next_at(ours, p);
    }
    false
}

// HOW FAR TWO TEXTS AGREE

// How many bytes agree from the start on.
fn agreeing(a: &[u8], b: &[u8]) -> usize
    ensures { result ≡ agreeing a.now b.now }
{
    let mut i: usize = 0;
    while i < a.len() {
        if b.len() <= i {
            return i;
        }
        if a[i] != b[i] {
            return i;
        }
        i += 1;
    }
    i
}

// 255 where two bytes are the same, else 0: of sixteen at once one instruction of the machine.
fn agreed(x: u8, y: u8) -> u8
    ensures { result ≡ pick (eqb x y) 255 0 }
{
    if x == y {
        return 255;
    }
    0
}

// The smaller of two bytes.
fn smaller(x: u8, y: u8) -> u8
    ensures { result ≡ pick (ltb x y) x y }
{
    if x < y {
        return x;
    }
    y
}

// Whether two texts are the same, with no way out of the loop, so that the compiler takes many bytes at once: a row is long, and mostly the one due.
fn same_throughout(a: &[u8], b: &[u8]) -> bool
    ensures { result ≡ same a.now b.now }
{
    if a.len() != b.len() {
        return false;
    }
    let mut least: u8 = 255;
    let mut i: usize = 0;
    while i < a.len() {
        least = smaller(agreed(a[i], b[i]), least);
        i += 1;
    }
    least == 255
}

// Nothing where two texts are the same, else the mismatch at the first byte that differs.
pub fn compared(mismatch: Mismatch, a: &[u8], b: &[u8]) -> Result<(), Difference>
    ensures { said result ≡ compared (mismatch_number mismatch) a.now b.now }
{
    if same_throughout(a, b) {
        return Ok(());
    }
    Err(Difference::At(mismatch, agreeing(a, b)))
}

// THE HEADER

// The byte of the header due that stands at a place, for an answer of n bytes.
fn header_byte(ours: &[u8], n: usize, i: usize) -> usize
    requires { (20 ≤ length ours.now) × (i < 20) }
    ensures { result ≡ get_or (header_due ours.now n) i 0 }
{
    if i == 1 {
        return n / 65536;
    }
    if i == 2 {
        return n / 256 % 256;
    }
    if i == 3 {
        return n % 256;
    }
    octets::long(ours[i])
}

// How many bytes of it agree with the header due, where ours is an answer.
fn header_agrees(ours: &[u8], theirs: &[u8]) -> usize
    requires { 20 ≤ length ours.now }
    ensures { (result ≡ agreeing (take 20 theirs.now) (header_due ours.now (length theirs.now))) × (result ≤ 20) }
{
    let mut i: usize = 0;
    while i < message::HEADER_LENGTH {
        if theirs.len() <= i {
            return i;
        }
        if octets::long(theirs[i]) != header_byte(ours, theirs.len(), i) {
            return i;
        }
        i += 1;
    }
    i
}

// Whether it is the header due, without a look at each byte; what this says no to is looked at byte by byte.
fn header_right(ours: &[u8], theirs: &[u8]) -> bool
    requires { 20 ≤ length ours.now }
    ensures { result ≡ true → header_finding ours.now theirs.now ≡ nothing }
{
    if theirs.len() < message::HEADER_LENGTH {
        return false;
    }
    if theirs[0] != ours[0] {
        return false;
    }
    if octets::read24(theirs, 1) != theirs.len() {
        return false;
    }
    octets::same_bytes(
        &theirs[4..message::HEADER_LENGTH],
        &ours[4..message::HEADER_LENGTH],
    )
}

// Nothing where the header is the one due, else where it first differs.
fn header_found(ours: &[u8], theirs: &[u8]) -> Result<(), Difference>
    ensures { said result ≡ header_finding ours.now theirs.now }
{
    if ours.len() < message::HEADER_LENGTH {
        if theirs.len() == 0 {
            return Ok(());
        }
        return Err(Difference::At(Mismatch::Header, 0));
    }
    if header_right(ours, theirs) {
        return Ok(());
    }
    let at = header_agrees(ours, theirs);
    if at < message::HEADER_LENGTH {
        return Err(Difference::At(Mismatch::Header, at));
    }
    Ok(())
}

// THE MARKS

// How many there are: by the last bits of their codes no two names of an answer of ours have the same mark.
const MARKS: usize = 64;

// Which mark an AVP has, by its code.
fn mark_of(m: &[u8], at: usize) -> usize
    requires { Stands m.now at }
    ensures { (result ≡ mark_of (avp_at m.now at).name) × (result < mark_count) }
{
    octets::long(m[at + 3]) % MARKS
}

// What is noted first: a place, unless there is one already.
fn first_of(mark: usize, at: usize) -> usize
    ensures { result ≡ pick (eqb mark 0) at mark }
{
    if mark == 0 {
        return at;
    }
    mark
}

// Notes for each mark where the first AVP of ours stands that has it.
fn mark_first(ours: &[u8], marks: &mut [usize])
    requires { marks.old ≡ zeros mark_count }
    ensures { (theirs : List ℕ) → Marked ours.now theirs 20 marks.new }
{
    let mut at: usize = message::HEADER_LENGTH;
    let mut next: usize = next_at(ours, at);
    while next != 0 {
        let k = mark_of(ours, at);
        marks[k] = first_of(marks[k], at);
        at = next;
        next = next_at(ours, at);
    }
}

// Where ours goes on behind the AVP at a mark, if that has the name of the one at `at` of theirs, else 0.
fn behind_mark(ours: &[u8], mark: usize, theirs: &[u8], at: usize) -> usize
    requires { Stands theirs.now at }
    ensures { (result ≡ 0 → ⊥) → Behind ours.now mark (avp_at theirs.now at).name result }
{
    if mark < 2 {
        return 0;
    }
    let next = next_at(ours, mark);
    if next == 0 {
        return 0;
    }
    if same_name(theirs, at, ours, mark) {
        return next;
    }
    0
}

// Where ours goes on behind the AVP at a mark, if that has the same bytes as the one of theirs from `at` to `next`, else 0. An AVP is what its bytes say, so
// that none of the four tests is made once more.
fn behind_same(ours: &[u8], mark: usize, theirs: &[u8], at: usize, next: usize) -> usize
    requires { (mark ≤ length ours.now) × (next ≡ next_at theirs.now at) × (next ≡ 0 → ⊥) }
    ensures { (result ≡ 0 → ⊥) → (2 ≤ mark) × (next_at ours.now mark ≡ result) × (avp_at ours.now mark ≡ avp_at theirs.now at) }
{
    if mark < 2 {
        return 0;
    }
    let whole = next - at;
    if ours.len() - mark < whole {
        return 0;
    }
    let behind = mark + whole;
    if octets::same_bytes(&ours[mark..behind], &theirs[at..next]) {
        return behind;
    }
    0
}

// What is noted behind an AVP of theirs, where `met` is what ours has behind the same bytes. Of a name that ours lacks nothing changes; 1, which says
// nothing, is noted where the AVP at the mark has another name.
fn mark_behind(ours: &[u8], mark: usize, theirs: &[u8], at: usize, met: usize) -> usize
    requires { Stands theirs.now at × ((met ≡ 0 → ⊥) → Behind ours.now mark (avp_at theirs.now at).name met) }
    ensures { Noted ours.now mark (avp_at theirs.now at).name result }
{
    if met != 0 {
        return met;
    }
    if mark == 0 {
        return mark;
    }
    let behind = behind_mark(ours, mark, theirs, at);
    if behind != 0 {
        return behind;
    }
    if named_from(ours, message::HEADER_LENGTH, theirs, at) != 0 {
        return 1;
    }
    mark
}

// THE AVPS BY PLACE

// Whether the AVP that stands at a place of theirs may stand there, whatever is marked. It is no Failed-AVP.
fn fits_anywhere(ours: &[u8], theirs: &[u8], at: usize) -> bool
    requires { Stands theirs.now at × (same_name failed_avp (avp_at theirs.now at).name ≡ false) }
    ensures { result ≡ fits (avps_from ours.now 20) (avps_from theirs.now 20) (avps_from theirs.now at) (avp_at theirs.now at) }
{
    if named_from(ours, message::HEADER_LENGTH, theirs, at) == 0 {
        return passes(theirs, at);
    }
    let all = named_from(theirs, message::HEADER_LENGTH, theirs, at);
    let rest = named_from(theirs, at, theirs, at);
    met_by(ours, minus(all, rest), theirs, at)
}

// Whether an AVP of a name that ours lacks may stand at a place of theirs.
fn passes(theirs: &[u8], at: usize) -> bool
    requires { Stands theirs.now at }
    ensures { result ≡ (same_name failed_avp (avp_at theirs.now at).name || not (avp_at theirs.now at).mandatory) }
{
    if theirs[at + 4] / 64 % 2 != 1 {
        return true;
    }
    is_base(theirs, at, 279)
}

// Whether the AVP that stands at a place of theirs may stand there, by its mark. Where it is met it has the same bytes as the one of ours there.
fn place_fits(ours: &[u8], theirs: &[u8], at: usize, mark: usize, met: usize) -> bool
    requires { Stands theirs.now at × Kept ours.now theirs.now at (avp_at theirs.now at).name mark
        × ((met ≡ 0 → ⊥) → (2 ≤ mark) × (next_at ours.now mark ≡ met) × (avp_at ours.now mark ≡ avp_at theirs.now at)) }
    ensures { result ≡ fits (avps_from ours.now 20) (avps_from theirs.now 20) (avps_from theirs.now at) (avp_at theirs.now at) }
{
    if met != 0 {
        return true;
    }
    if mark == 0 {
        return passes(theirs, at);
    }
    if is_base(theirs, at, 279) {
        return true;
    }
    if behind_mark(ours, mark, theirs, at) != 0 {
        return same_avp(ours, mark, theirs, at);
    }
    fits_anywhere(ours, theirs, at)
}

// Whether theirs starts as ours does: with Session-Id, where ours has it first.
fn starts_like(ours: &[u8], theirs: &[u8]) -> bool
    ensures { result ≡ starts_like (avps_from ours.now 20) (avps_from theirs.now 20) }
{
    if next_at(theirs, message::HEADER_LENGTH) == 0 {
        return true;
    }
    if next_at(ours, message::HEADER_LENGTH) == 0 {
        return true;
    }
    if is_base(ours, message::HEADER_LENGTH, 263) {
        return is_base(theirs, message::HEADER_LENGTH, 263);
    }
    true
}

// Where the first AVP of theirs starts that does not fit; 0 where all do.
fn misplaced(ours: &[u8], theirs: &[u8], marks: &mut [usize]) -> usize
    requires { Marked ours.now theirs.now 20 marks.old }
    ensures { (result ≡ misplaced (avps_from ours.now 20) (avps_from theirs.now 20))
        × (result ≡ 0 → Marked ours.now theirs.now (length theirs.now) marks.new) }
{
    if !starts_like(ours, theirs) {
        return message::HEADER_LENGTH;
    }
    let mut at: usize = message::HEADER_LENGTH;
    let mut next: usize = next_at(theirs, at);
    while next != 0 {
        let k = mark_of(theirs, at);
        let mark = marks[k];
        let met = behind_same(ours, mark, theirs, at, next);
        if !place_fits(ours, theirs, at, mark, met) {
            return at;
        }
        marks[k] = mark_behind(ours, mark, theirs, at, met);
        at = next;
        next = next_at(theirs, at);
    }
    0
}

// Whether of each name of ours theirs has no fewer.
fn none_fewer(ours: &[u8], theirs: &[u8]) -> bool
    ensures { result ≡ complete (avps_from ours.now 20) (avps_from theirs.now 20) }
{
    let mut at: usize = message::HEADER_LENGTH;
    let mut next: usize = next_at(ours, at);
    while next != 0 {
        let n = named_from(ours, message::HEADER_LENGTH, ours, at);
        if named_from(theirs, message::HEADER_LENGTH, ours, at) < n {
            return false;
        }
        at = next;
        next = next_at(ours, at);
    }
    true
}

// The same, where all of theirs fit: each of ours has been met if it stands before its mark.
fn complete(ours: &[u8], theirs: &[u8], marks: &[usize]) -> bool
    requires { Marked ours.now theirs.now (length theirs.now) marks.now }
    ensures { result ≡ complete (avps_from ours.now 20) (avps_from theirs.now 20) }
{
    let mut at: usize = message::HEADER_LENGTH;
    let mut next: usize = next_at(ours, at);
    while next != 0 {
        if marks[mark_of(ours, at)] <= at {
            return none_fewer(ours, theirs);
        }
        at = next;
        next = next_at(ours, at);
    }
    true
}

// THE WALK INTO GROUPS

// The first AVP from a place on that fails one of the four tests, or the first group that is too deep. A group's value is walked as it comes, by
// this function itself, with the depth that is left: it ends where the group does, and the places in it are those of the answer.
fn faults(m: &[u8], from: usize, depth: u32) -> Result<(), Difference>
    ensures { said result ≡ fault_in depth from (drop from m.now) }
{
    let mut at: usize = from;
    while at < m.len() {
        let next = next_at(m, at);
        if next == 0 {
            return Err(Difference::At(Mismatch::BrokenAvp, at));
        }
        if is_group(m, at) {
            if depth == 0 {
                return Err(Difference::TooDeep);
            }
            let end = at + octets::read24(m, at + 5);
            faults(&m[0..end], at + 8, depth - 1)?;
        }
        at = next;
    }
    Ok(())
}

// THE ANSWER AS A WHOLE

// Whether groups stand too deep.
#[tactic(auto, unfolding(crate::specs::Code::said))]
fn is_too_deep(walked: Result<(), Difference>) -> bool
    ensures { result ≡ eqb (said walked).number 31 }
{
    match walked {
        Err(Difference::TooDeep) => true,
        _ => false,
    }
}

// Nothing where theirs is the same answer as ours, else what is told of it: a group that is too deep before everything else, then the first mismatch. Where both have the same
// bytes, each AVP is met by itself.
pub fn answer_found(ours: &[u8], theirs: &[u8]) -> Result<(), Difference>
    ensures { said result ≡ answer_finding ours.now theirs.now }
{
    let walked = faults(theirs, message::HEADER_LENGTH, 4);
    if is_too_deep(walked) {
        return walked;
    }
    header_found(ours, theirs).and(walked)?;
    if octets::same_bytes(ours, theirs) {
        return Ok(());
    }
    let mut marks = [0usize; MARKS];
    mark_first(ours, &mut marks);
    let at = misplaced(ours, theirs, &mut marks);
    if at != 0 {
        return Err(Difference::At(Mismatch::OtherAvp, at));
    }
    if complete(ours, theirs, &marks) {
        return Ok(());
    }
    Err(Difference::At(Mismatch::MissingAvp, 0))
}
