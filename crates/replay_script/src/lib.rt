// The format of the independent program's scripts (oracle/README.md), as far as it is computed: digests, the check of a record,
// the bytes that a room is filled with, and where two texts part.
#![tactic(auto)]

ghost use Rattle.std.specs.Prelude.{◌≡◌, ℕ, ◌-◌, ◌<◌, ◌≤◌, eqb, length, take, drop, get_or};
ghost use Rattle.octets.specs.Numbers.{net32};
ghost use Rattle.replay_script.specs.TheScript.{digest_of, digest_step, room_byte, as_filled, unlike};

// The digest of `s` at the factor `k`.
pub fn digest(s: &[u8], k: u64) -> u64
    requires { k ≤ 1103515245 }
    ensures { (result ≡ digest_of k 0 s.now) × (result < 2147483647) }
{
    let mut h: u64 = 0;
    for x in s {
        h = digested(h, k, *x);
    }
    h
}

fn digested(h: u64, k: u64, x: u8) -> u64
    requires { (h < 2147483647) × (k ≤ 1103515245) }
    ensures { (result ≡ digest_step k h x) × (result < 2147483647) }
{
    (h * k + u64::from(x) + 1) % 2147483647
}

// Byte i of a room before a call.
fn room_byte(seed: u8, i: usize) -> u8
    requires { i ≤ 65536 }
    ensures { result ≡ room_byte seed i }
{
    ((usize::from(seed) + 7 * i) % 256) as u8
}

// The room as it is before a call.
pub fn fill(room: &mut [u8], seed: u8)
    requires { length room.old ≤ 65536 }
    ensures { (i : ℕ) → i < length room.old → get_or room.new i 0 ≡ room_byte seed i }
{
    for i in 0..room.len() {
        room[i] = room_byte(seed, i);
    }
}

// Whether the room is as before the call from byte `from` on.
pub fn is_filled(room: &[u8], seed: u8, from: usize) -> bool
    requires { (from ≤ length room.now) × (length room.now ≤ 65536) }
    ensures { result ≡ as_filled seed from (drop from room.now) }
{
    for i in from..room.len() {
        if room[i] != room_byte(seed, i) {
            return false;
        }
    }
    true
}

// The first index at which `b` differs from `a`, a text of the same length; that length where none does.
pub fn first_unlike(a: &[u8], b: &[u8]) -> usize
    requires { length a.now ≡ length b.now }
    ensures { (result ≡ unlike a.now b.now) × (result ≤ length a.now) }
{
    for i in 0..a.len() {
        if a[i] != b[i] {
            return i;
        }
    }
    a.len()
}

// Whether the check at the end of a whole record is right.
pub fn is_checked(whole: &[u8]) -> bool
    requires { 4 ≤ length whole.now }
    ensures { result ≡ eqb (digest_of 1103515245 0 (take (length whole.now - 4) whole.now)) (net32 whole.now (length whole.now - 4)) }
{
    let end = whole.len() - 4;
    let expected = u64::from(octets::read32(whole, end));
    digest(&whole[0..end], 1103515245) == expected
}
