// The year by hour: results counted by hour into a report that the caller lends, reports added, and the year's rate of cuts to accesses opened.
// A report is 96 numbers, four for each hour: opened, cuts, terminations, others. A result is six: hour, the request's kind, code, kind of code, place, cut.
#![tactic(auto, unfolding(crate::specs::Code::told_of, crate::specs::Code::adds, crate::specs::Code::one_more, crate::specs::Code::ratio_said, crate::specs::TheReport::ended, octets::specs::Choice::pick))]

ghost use Rattle.std.specs.Prelude.{◌≡◌, Bool, true, List, [], ◌∷◌, ℕ, ◌+◌, ◌*◌, ◌≤◌, ◌<◌, length, get_or};
ghost use Rattle.octets.specs.Choice.{pick};
ghost use Rattle.octets.specs.Lists.{every};
ghost use Rattle.report.specs.TheReport.{ended, held, how_many, in64, in_column, with, hour_right, count, plus, add, year};
ghost use Rattle.report.specs.Rates.{divisor, lowest, rate};
ghost use Rattle.report.specs.Code.{told_of, told_by, adds, one_more, leaves, summed, totals, ratio_said};

// THE COLUMNS

// Whether the result is a termination's Result-Code 2001.
fn is_ended(t: [u32; 6]) -> bool
    ensures { result ≡ ended (told_of t) }
{
    t[1] == 2 && t[3] == 1 && t[2] == 2001
}

// What a result that opened an access adds to column k: one to the openings, and one to the cuts if it made one.
fn opening_adds(t: [u32; 6], k: usize) -> u64
    requires { get_or t 4 0 ≡ 0 → ⊥ }
    ensures { result ≡ adds k (told_of t) }
{
    match k {
        0 => 1,
        1 if t[5] != 0 => 1,
        _ => 0,
    }
}

// The column of a result that opened no access.
fn ending_column(t: [u32; 6]) -> usize
    ensures { (result ≡ pick (ended (told_of t)) 2 3) × (result ≤ 3) }
{
    if is_ended(t) { 2 } else { 3 }
}

// What one result adds to column k.
fn adds_to(t: [u32; 6], k: usize) -> u64
    ensures { (result ≡ adds k (told_of t)) × (result ≤ 1) }
{
    if t[4] != 0 {
        return opening_adds(t, k);
    }
    if k == ending_column(t) { 1 } else { 0 }
}

// THE TESTS

fn hours_right(told: &[[u32; 6]]) -> bool
    ensures { result ≡ every hour_right (told_by told.now) }
{
    for t in told {
        if t[0] > 23 {
            return false; // wherever it stands, none of the list is counted
        }
    }
    true
}

// How many results count in column k.
fn count_of(told: &[[u32; 6]], k: usize) -> u64
    ensures { result ≡ how_many (in_column k) (told_by told.now) }
{
    let mut n = 0;
    for t in told {
        n += adds_to(*t, k);
    }
    n
}

// The year's total of column k and `more`, if 64 bits hold it.
fn year_and(report: &[u64], k: usize, more: u64) -> Option<u64>
    requires { (length report.now ≡ 96) × (k < 4) }
    ensures { result ≡ summed (more + year report.now k) }
{
    let mut sum = more;
    for hour in 0..24 {
        sum = sum.checked_add(report[4 * hour + k])?;
    }
    Some(sum)
}

// Whether 64 bits hold the year's total of column k with the list counted into it. A column has at most the whole list, so that its length is tried first.
fn year_holds(report: &[u64], told: &[[u32; 6]], k: usize) -> bool
    requires { (length report.now ≡ 96) × (k < 4) }
    ensures { result ≡ in64 (how_many (in_column k) (told_by told.now) + year report.now k) }
{
    year_and(report, k, told.len() as u64).is_some()
        || year_and(report, k, count_of(told, k)).is_some()
}

// Whether 64 bits hold what the report has with the list counted into it.
fn holds_list(report: &[u64], told: &[[u32; 6]]) -> bool
    requires { (length report.now ≡ 96) × (every hour_right (told_by told.now) ≡ true) }
    ensures { result ≡ held (with report.now (told_by told.now)) }
{
    for k in 0..4 {
        if !year_holds(report, told, k) {
            return false;
        }
    }
    true
}

// Whether 64 bits hold both reports added.
fn holds_both(report: &[u64], more: &[u64]) -> bool
    requires { (length report.now ≡ 96) × (length more.now ≡ 96) }
    ensures { result ≡ held (plus report.now more.now) }
{
    for k in 0..4 {
        let Some(n) = year_and(more, k, 0) else {
            return false;
        };
        if year_and(report, k, n).is_none() {
            return false;
        }
    }
    true
}

// COUNTING

// One more in a total.
fn add_one(report: &mut [u64], i: usize)
    requires { (i < length report.old) × (get_or report.old i 0 + 1 < 18446744073709551616) }
    ensures { report.new ≡ one_more i report.old }
{
    report[i] += 1;
}

// One result counted.
fn count_one(report: &mut [u64], t: [u32; 6])
    requires { (length report.old ≡ 96) × (get_or t 0 0 < 24) × (held (with report.old (told_of t ∷ [])) ≡ true) }
    ensures { report.new ≡ with report.old (told_of t ∷ []) }
{
    let at = 4 * (t[0] as usize);
    if t[4] == 0 {
        add_one(report, at + ending_column(t));
        return;
    }
    add_one(report, at);
    if t[5] == 0 {
        return;
    }
    add_one(report, at + 1);
}

// A list counted, of which the hours are right and 64 bits hold the totals.
fn count_all(report: &mut [u64], told: &[[u32; 6]])
    requires { (length report.old ≡ 96) × (every hour_right (told_by told.now) ≡ true) × (held (with report.old (told_by told.now)) ≡ true) }
    ensures { report.new ≡ with report.old (told_by told.now) }
{
    for t in told {
        count_one(report, *t);
    }
}

// A list of results counted into the report. 0, or 29, 30, and then the report is as it was.
pub fn count(report: &mut [u64; 96], told: &[[u32; 6]]) -> u32
    ensures { leaves result report.new ≡ count report.old (told_by told.now) }
{
    if !hours_right(told) {
        return 29;
    }
    if !holds_list(report, told) {
        return 30;
    }
    count_all(report, told);
    0
}

// ADDING

fn add_all(report: &mut [u64], more: &[u64])
    requires { (length report.old ≡ 96) × (length more.now ≡ 96) × (held (plus report.old more.now) ≡ true) }
    ensures { report.new ≡ plus report.old more.now }
{
    // By index: of what a loop over `iter_mut` writes, a proof knows no element.
    for i in 0..96 {
        report[i] += more[i];
    }
}

// A second report added to the first. 0, or 30, and then the first is as it was.
pub fn add(report: &mut [u64; 96], more: &[u64; 96]) -> u32
    ensures { leaves result report.new ≡ add report.old more.now }
{
    if !holds_both(report, more) {
        return 30;
    }
    add_all(report, more);
    0
}

// THE RATE

// The greatest common divisor.
fn divisor_of(cuts: u64, opened: u64) -> u64
    ensures { result ≡ divisor cuts opened }
{
    let mut a: u64 = cuts;
    let mut b: u64 = opened;
    while b != 0 {
        let rest = a % b;
        a = b;
        b = rest;
    }
    a
}

// A number, and cuts to accesses opened.
#[repr(C)]
#[derive(Clone, Copy)]
pub struct Ratio {
    pub number: u32,
    pub cuts: u64,
    pub opened: u64,
}

fn lowest_of(cuts: u64, opened: u64) -> Ratio
    ensures { ratio_said result ≡ lowest cuts opened }
{
    if opened == 0 {
        return Ratio {
            number: 0,
            cuts: 0,
            opened: 1,
        };
    }
    let d = divisor_of(cuts, opened);
    Ratio {
        number: 0,
        cuts: cuts / d,
        opened: opened / d,
    }
}

// The year's cuts and openings, if 64 bits hold every total.
fn totals(report: &[u64]) -> Option<(u64, u64)>
    requires { length report.now ≡ 96 }
    ensures { result ≡ totals report.now }
{
    let opened = year_and(report, 0, 0)?;
    let cuts = year_and(report, 1, 0)?;
    year_and(report, 2, 0)?;
    year_and(report, 3, 0)?;
    Some((cuts, opened))
}

// The year's rate of cuts to accesses opened in lowest terms, 0 and 1 if none was opened. Number 0, or 30 with 0 and 1.
pub fn rate(report: &[u64; 96]) -> Ratio
    ensures { ratio_said result ≡ rate report.now }
{
    match totals(report) {
        Some((cuts, opened)) => lowest_of(cuts, opened),
        None => Ratio {
            number: 30,
            cuts: 0,
            opened: 1,
        },
    }
}
