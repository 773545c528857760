// A script from record to record.
ghost use Rattle.std.specs.Prelude.{◌≤◌, length};

use crate::records::{announced, is_patched, only_number};
use replay_calls::{
    play_abort, play_add, play_answered, play_burst, play_clear, play_enter, play_handle, play_move,
};
use replay_gateway::play_reauth;
use replay_judge::play_judge;
use replay_verdict::{Fault, Verdict};

// How far a script is played: the records and calls so far, the records that HEADER announces, the calls that differ, and the
// table's length.
#[derive(Clone, Copy)]
pub struct Progress {
    pub records: usize,
    pub announced: usize,
    pub calls: usize,
    pub differing: usize,
    pub table: usize,
}

// What is wrong with a script.
#[derive(Clone, Copy, PartialEq, Eq)]
pub enum Damage {
    Ends,
    Length,
    Check,
    Header,
    Kind,
    Fields,
    Table,
    Count,
    Behind,
}

// What comes after a record.
#[derive(Clone, Copy)]
pub enum Turn {
    Next(Progress),
    End(Progress),
}

// A call that differs: its number, the field, where in it, what was expected and what was got.
#[derive(Clone, Copy)]
pub struct Note {
    pub call: usize,
    pub field: u32,
    pub at: usize,
    pub expected: usize,
    pub got: usize,
}

// The first calls that differ.
pub type Notes = [Option<Note>; 20];

// The progress with one record more. A script's counts are 32 bits wide, so none stands still before its script is refused.
fn one_more(p: Progress) -> Progress {
    Progress {
        records: p.records.saturating_add(1),
        ..p
    }
}

// The progress before the first record.
pub fn begin() -> Progress {
    Progress {
        records: 0,
        announced: 0,
        calls: 0,
        differing: 0,
        table: 0,
    }
}

fn on_header(r: &[u8]) -> Result<Progress, Damage> {
    Ok(Progress {
        announced: announced(r).ok_or(Damage::Header)?,
        ..one_more(begin())
    })
}

fn on_set_table(table: &mut [u8], r: &[u8], p: Progress) -> Result<Progress, Damage> {
    let n = only_number(r).ok_or(Damage::Fields)?;
    octets::clear(table.get_mut(..n).ok_or(Damage::Table)?);
    Ok(Progress {
        table: n,
        ..one_more(p)
    })
}

fn on_patch(table: &mut [u8], r: &[u8], p: Progress) -> Result<Progress, Damage>
    requires { length r.now ≤ 65536 }
{
    if is_patched(table, r) {
        return Ok(one_more(p));
    }
    Err(Damage::Fields)
}

fn on_end(r: &[u8], p: Progress) -> Result<Progress, Damage> {
    let n = only_number(r).ok_or(Damage::Fields)?;
    if n != p.calls || one_more(p).records != p.announced {
        return Err(Damage::Count);
    }
    Ok(p)
}

// The call of a record of type 4 to 7 or 9 to 14, on the table as long as it is now.
fn play(kind: u8, table: &mut [u8], r: &[u8], answer: &mut [u8], notice: &mut [u8]) -> Verdict
    requires { (length r.now ≤ 65536) × (length answer.old ≤ 65536) × (length notice.old ≤ 65536) }
{
    match kind {
        4 => play_clear(table, r),
        5 => play_enter(table, r),
        6 => play_add(table, r),
        9 => play_move(table, r, answer),
        10 => play_abort(table, r, answer),
        11 => play_answered(table, r),
        12 => play_burst(table, r, answer, notice),
        13 => play_reauth(table, r, answer, notice),
        14 => play_judge(table, r, answer, notice),
        _ => play_handle(table, r, answer, notice),
    }
}

// What came of a call. A difference is kept, as long as there is room.
fn on_verdict(v: Verdict, notes: &mut Notes, p: Progress) -> Result<Progress, Damage> {
    let calls = p.calls.saturating_add(1);
    let after = Progress {
        calls,
        ..one_more(p)
    };
    match v {
        Err(Fault::Damaged) => Err(Damage::Fields),
        Ok(()) => Ok(after),
        Err(Fault::Differs(field, at, expected, got)) => {
            if let Some(place) = notes.get_mut(p.differing) {
                *place = Some(Note {
                    call: calls,
                    field,
                    at,
                    expected,
                    got,
                });
            }
            Ok(Progress {
                differing: p.differing.saturating_add(1),
                ..after
            })
        }
    }
}

// One record: its type and its body, on the table and the rooms.
pub fn on_record(
    kind: u8,
    r: &[u8],
    table: &mut [u8],
    answer: &mut [u8],
    notice: &mut [u8],
    notes: &mut Notes,
    p: Progress,
) -> Result<Turn, Damage>
    requires { (length r.now ≤ 65536) × (length answer.old ≤ 65536) × (length notice.old ≤ 65536) }
{
    if p.records == 0 {
        if kind == 1 {
            return Ok(Turn::Next(on_header(r)?));
        }
        return Err(Damage::Header);
    }
    let n = p.table;
    if table.len() < n {
        return Err(Damage::Table);
    }
    match kind {
        2 => Ok(Turn::Next(on_set_table(table, r, p)?)),
        3 => Ok(Turn::Next(on_patch(&mut table[..n], r, p)?)),
        8 => Ok(Turn::End(on_end(r, p)?)),
        4..=14 => {
            let v = play(kind, &mut table[..n], r, answer, notice);
            Ok(Turn::Next(on_verdict(v, notes, p)?))
        }
        _ => Err(Damage::Kind),
    }
}
