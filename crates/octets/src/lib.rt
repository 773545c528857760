// Leaf functions on byte slices: compare, write, clear, and numbers in network order. They know nothing of Diameter.
#![tactic(auto)]

ghost use Rattle.std.specs.Prelude.{◌≡◌, ℕ, ◌+◌, ◌*◌, ◌≤◌, ◌<◌, length};
ghost use Rattle.octets.specs.Texts.{zeros, same, all_zero, put};
ghost use Rattle.octets.specs.Numbers.{net24, net32, low32, low64, Bytes4};

// A byte as a wider number: the cast alone, so that its callers need no proof that it fits.
pub fn wide(x: u8) -> u32
    ensures { (result ≡ x) × (result < 256) }
{
    u32::from(x)
}

pub fn half(x: u8) -> u16
    ensures { (result ≡ x) × (result < 256) }
{
    u16::from(x)
}

pub fn long(x: u8) -> usize
    ensures { (result ≡ x) × (result < 256) }
{
    usize::from(x)
}

// The number in the three bytes from `at` on.
pub fn read24(s: &[u8], at: usize) -> usize
    requires { at + 3 ≤ length s.now }
    ensures { (result ≡ net24 s.now at) × (result < 16777216) }
{
    usize::from(s[at]) * 65536 + usize::from(s[at + 1]) * 256 + usize::from(s[at + 2])
}

// The number in the four bytes from `at` on.
pub fn read32(s: &[u8], at: usize) -> u32
    requires { at + 4 ≤ length s.now }
    ensures { result ≡ net32 s.now at }
{
    u32::from_be_bytes([s[at], s[at + 1], s[at + 2], s[at + 3]])
}

// Eight bytes as a number, the lowest first: one load of the machine, so that eight bytes are compared at once.
pub fn eight(s: &[u8], at: usize) -> u64
    requires { at + 8 ≤ length s.now }
    ensures { (result ≡ low64 s.now at) × Bytes4 s.now at × Bytes4 s.now (at + 4) }
{
    u64::from_le_bytes([
        s[at],
        s[at + 1],
        s[at + 2],
        s[at + 3],
        s[at + 4],
        s[at + 5],
        s[at + 6],
        s[at + 7],
    ])
}

// Whether two texts of the same length are the same, byte by byte.
fn same_few(a: &[u8], b: &[u8]) -> bool
    requires { length a.now ≡ length b.now }
    ensures { result ≡ same a.now b.now }
{
    a.iter().zip(b).all(|(x, y)| *x == *y)
}

// Whether two texts are the same. From eight bytes on they are compared eight at a time, the last eight once more if need be.
pub fn same_bytes(a: &[u8], b: &[u8]) -> bool
    ensures { result ≡ same a.now b.now }
{
    let n = a.len();
    if n != b.len() {
        return false;
    }
    if n < 8 {
        return same_few(a, b);
    }
    let last = n - 8;
    for k in 0..(last + 7) / 8 {
        if eight(a, 8 * k) != eight(b, 8 * k) {
            return false;
        }
    }
    eight(a, last) == eight(b, last)
}

// Whether all of a few bytes are zero.
fn zero_few(s: &[u8]) -> bool
    ensures { result ≡ all_zero s.now }
{
    s.iter().all(|x| *x == 0)
}

// Whether all bytes are zero. From eight bytes on they are taken eight at a time, the last eight first, with no way out of the loop, so that the
// compiler takes many at once.
pub fn all_zero(s: &[u8]) -> bool
    ensures { result ≡ all_zero s.now }
{
    let n = s.len();
    if n < 8 {
        return zero_few(s);
    }
    let last = n - 8;
    let mut some: u64 = eight(s, last);
    for k in 0..(last + 7) / 8 {
        some |= eight(s, 8 * k);
    }
    some == 0
}

// The bytes of `src` written into `room` from `at` on.
pub fn put_bytes(room: &mut [u8], at: usize, src: &[u8])
    requires { at + length src.now ≤ length room.old }
    ensures { room.new ≡ put room.old at src.now }
{
    // By index: `copy_from_slice` calls the C library's `memmove`, and the archives call `memset` alone.
    for j in 0..src.len() {
        room[at + j] = src[j];
    }
}

// All bytes of `s` zero.
pub fn clear(s: &mut [u8])
    ensures { s.new ≡ zeros (length s.old) }
{
    // `fill` would store the last byte apart, behind the rest: a loop is one call of memset.
    for i in 0..s.len() {
        s[i] = 0;
    }
}

// n zero bytes written into `room` from `at` on.
pub fn put_zeros(room: &mut [u8], at: usize, n: usize)
    requires { at + n ≤ length room.old }
    ensures { room.new ≡ put room.old at (zeros n) }
{
    let end = at + n;
    clear(&mut room[at..end]);
}
