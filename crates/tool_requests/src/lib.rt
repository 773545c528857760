// Requests written into a lent room. An AVP for which there is no room is left out, so that nothing is written past the end.
#![tactic(auto)]

ghost use Rattle.std.specs.Prelude.{◌≡◌, ◌+◌, ◌≤◌, ◌<◌, length};

// The flags M, and V with M, over the length of an AVP.
const M: u32 = 0x4000_0000;

const V_AND_M: u32 = 0xC000_0000;

// An AVP at `at`, with the bytes of its vendor if it has one; its length does not count the padding, which is zero. Returns where the next one goes.
fn put(room: &mut [u8], at: usize, code: u32, flags: u32, vendor: &[u8], value: &[u8]) -> usize
    requires { (at ≤ length room.old) × (length room.old ≤ 8192) × (length vendor.now ≤ 4) × (length value.now ≤ 8192) }
    ensures { result ≤ length room.new }
{
    let behind = 8 + vendor.len();
    let n = behind + value.len();
    let e = at + (n + 3) / 4 * 4;
    if room.len() < e {
        return at;
    }
    let size = flags | n as u32;
    let all = &mut room[at..e];
    all.fill(0);
    all[0..4].copy_from_slice(&code.to_be_bytes());
    all[4..8].copy_from_slice(&size.to_be_bytes());
    all[8..behind].copy_from_slice(vendor);
    all[behind..n].copy_from_slice(value);
    e
}

// An AVP at `at`: M set, no vendor. Returns where the next one goes.
pub fn put_avp(room: &mut [u8], at: usize, code: u32, value: &[u8]) -> usize
    requires { (at ≤ length room.old) × (length room.old ≤ 8192) × (length value.now ≤ 8192) }
    ensures { result ≤ length room.new }
{
    put(room, at, code, M, &[], value)
}

// The same with V and the vendor 3GPP, 10415.
pub fn put_3gpp(room: &mut [u8], at: usize, code: u32, value: &[u8]) -> usize
    requires { (at ≤ length room.old) × (length room.old ≤ 8192) × (length value.now ≤ 8192) }
    ensures { result ≤ length room.new }
{
    put(room, at, code, V_AND_M, &[0, 0, 0x28, 0xAF], value)
}

// The header of a request of `n` bytes: version 1, R and P set, Application-Id 1.
pub fn put_header(room: &mut [u8], n: usize, command: u32)
    requires { (20 ≤ length room.old) × (n ≤ 8192) }
{
    let size = n as u32;
    room[0..4].copy_from_slice(&(0x0100_0000 | size).to_be_bytes());
    room[4..8].copy_from_slice(&(0xC000_0000 | command & 0x00FF_FFFF).to_be_bytes());
    room[8..20].copy_from_slice(&[0, 0, 0, 1, 0, 0, 0, 7, 0, 0, 0, 9]);
}

// The five AVPs that both requests begin with.
fn put_common(room: &mut [u8], session: &[u8]) -> usize
    requires { (20 ≤ length room.old) × (length room.old ≤ 8192) × (length session.now ≤ 8192) }
    ensures { result ≤ length room.new }
{
    let a = put_avp(room, 20, 263, session);
    let b = put_avp(room, a, 258, &[0, 0, 0, 1]);
    let c = put_avp(room, b, 264, b"gateway.example");
    let d = put_avp(room, c, 296, b"example");
    put_avp(room, d, 283, b"example")
}

// The AVPs of an AA-Request up to its type, 0.
fn put_asking(room: &mut [u8], session: &[u8], user: &[u8]) -> usize
    requires { (20 ≤ length room.old) × (length room.old ≤ 8192) × (length session.now ≤ 8192) × (length user.now ≤ 8192) }
    ensures { result ≤ length room.new }
{
    let a = put_common(room, session);
    let b = put_avp(room, a, 274, &[0, 0, 0, 2]);
    let c = put_avp(room, b, 293, b"server.example");
    let d = put_avp(room, c, 1, user);
    put_3gpp(room, d, 311, &[0, 0, 0, 0])
}

// AA-Request of type 0: a tunnel to `label`. Returns its length.
pub fn opening(room: &mut [u8], session: &[u8], user: &[u8], label: &[u8]) -> usize
    requires { (20 ≤ length room.old) × (length room.old ≤ 8192) × (length session.now ≤ 8192) × (length user.now ≤ 8192) × (length label.now ≤ 8192) }
    ensures { result ≤ length room.new }
{
    let a = put_asking(room, session, user);
    let b = put_3gpp(room, a, 100, label);
    put_header(room, b, 265);
    b
}

// The same from a visited network.
pub fn visiting(room: &mut [u8], session: &[u8], user: &[u8], label: &[u8]) -> usize
    requires { (20 ≤ length room.old) × (length room.old ≤ 8192) × (length session.now ≤ 8192) × (length user.now ≤ 8192) × (length label.now ≤ 8192) }
    ensures { result ≤ length room.new }
{
    let a = put_asking(room, session, user);
    let b = put_3gpp(room, a, 600, b"visited.example");
    let c = put_3gpp(room, b, 100, label);
    put_header(room, c, 265);
    c
}

// Session-Termination-Request: the tunnel of a Session-Id ends.
pub fn ending(room: &mut [u8], session: &[u8], user: &[u8], label: &[u8]) -> usize
    requires { (20 ≤ length room.old) × (length room.old ≤ 8192) × (length session.now ≤ 8192) × (length user.now ≤ 8192) × (length label.now ≤ 8192) }
    ensures { result ≤ length room.new }
{
    let a = put_common(room, session);
    let b = put_avp(room, a, 295, &[0, 0, 0, 1]);
    let c = put_avp(room, b, 293, b"server.example");
    let d = put_avp(room, c, 1, user);
    let e = put_3gpp(room, d, 100, label);
    put_header(room, e, 275);
    e
}

// The request of `n` bytes made as long as the room, by a Class: known, and no list asks for it.
pub fn lengthen(room: &mut [u8], n: usize) -> usize
    requires { (20 ≤ length room.old) × (length room.old ≤ 4100) × (n ≤ length room.old) }
    ensures { result ≤ length room.new }
{
    let all = room.len();
    let zeros = [0u8; 4100];
    if all < n + 8 {
        return n;
    }
    let k = all - n - 8;
    let e = put_avp(room, n, 25, &zeros[0..k]);
    put_header(room, e, 265);
    e
}
