// The records that are no calls.
ghost use Rattle.std.specs.Prelude.{◌≤◌, length};

use replay_verdict::{number, text_end};

// The number of records that a HEADER announces.
pub fn announced(r: &[u8]) -> Option<usize> {
    if r.len() != 16 || !r.starts_with(b"WMSCRIPT") || number(r, 8) != 7 {
        return None;
    }
    Some(number(r, 12))
}

// The only number of a SET-TABLE or an END.
pub fn only_number(r: &[u8]) -> Option<usize> {
    if r.len() != 4 {
        return None;
    }
    Some(number(r, 0))
}

// A PATCH put into the table; false where its fields do not fill it or it goes past the table's end.
pub fn is_patched(table: &mut [u8], r: &[u8]) -> bool
    requires { length r.now ≤ 65536 }
{
    if r.len() < 8 {
        return false;
    }
    let at = number(r, 0);
    let e = text_end(r, 4);
    if r.len() != e || table.len() < at + (e - 8) {
        return false;
    }
    octets::put_bytes(table, at, &r[8..e]);
    true
}
