// Copying texts in words. A word is read whole into an array of its own before any byte of it is written: the compiler, which does
// not know that two slices stand apart, can then move it in one piece. The last word overlaps the one before, so that no bytes are left.
#![tactic(auto)]

ghost use Rattle.std.specs.Prelude.{◌≡◌, ◌+◌, ◌≤◌, ◌<◌, length};
ghost use Rattle.octets.specs.Texts.{part, put};

// N bytes of `src` from `from` on, written into `room` from `at` on.
fn put_word<const N: usize>(room: &mut [u8], at: usize, src: &[u8], from: usize)
    requires { (from + N ≤ length src.now) × (at + N ≤ length room.old) }
    ensures { room.new ≡ put room.old at (part src.now from N) }
{
    let mut word = [0u8; N];
    word.copy_from_slice(&src[from..from + N]);
    room[at..at + N].copy_from_slice(&word);
}

// A text of at most 16 bytes.
fn put_short(room: &mut [u8], at: usize, src: &[u8])
    requires { (length src.now ≤ 16) × (at + length src.now ≤ length room.old) }
    ensures { room.new ≡ put room.old at src.now }
{
    let n = src.len();
    if 8 <= n {
        put_word::<8>(room, at, src, 0);
        put_word::<8>(room, at + (n - 8), src, n - 8);
        return;
    }
    if 4 <= n {
        put_word::<4>(room, at, src, 0);
        put_word::<4>(room, at + (n - 4), src, n - 4);
        return;
    }
    octets::put_bytes(room, at, src);
}

// A text of 16 to 64 bytes: words from both ends, and no loop.
fn put_medium(room: &mut [u8], at: usize, src: &[u8])
    requires { (16 ≤ length src.now) × (length src.now ≤ 64) × (at + length src.now ≤ length room.old) }
    ensures { room.new ≡ put room.old at src.now }
{
    let n = src.len();
    if n <= 32 {
        put_word::<16>(room, at, src, 0);
        put_word::<16>(room, at + (n - 16), src, n - 16);
        return;
    }
    put_word::<16>(room, at, src, 0);
    put_word::<16>(room, at + 16, src, 16);
    put_word::<16>(room, at + (n - 32), src, n - 32);
    put_word::<16>(room, at + (n - 16), src, n - 16);
}

// The bytes of `src` written into `room` from `at` on.
pub fn put_text(room: &mut [u8], at: usize, src: &[u8])
    requires { at + length src.now ≤ length room.old }
    ensures { room.new ≡ put room.old at src.now }
{
    let n = src.len();
    if n < 16 {
        put_short(room, at, src);
        return;
    }
    if n <= 64 {
        put_medium(room, at, src);
        return;
    }
    let last = n - 16;
    for j in (0..last).step_by(16) {
        put_word::<16>(room, at + j, src, j);
    }
    put_word::<16>(room, at + last, src, last);
}

// The 64 bytes of `src` from `from` on, written into `room` from `at` on: four words, and no loop.
fn put_64(room: &mut [u8], at: usize, src: &[u8], from: usize)
    requires { (from + 64 ≤ length src.now) × (at + 64 ≤ length room.old) }
    ensures { room.new ≡ put room.old at (part src.now from 64) }
{
    put_word::<16>(room, at, src, from);
    put_word::<16>(room, at + 16, src, from + 16);
    put_word::<16>(room, at + 32, src, from + 32);
    put_word::<16>(room, at + 48, src, from + 48);
}

// A text of at most 128 bytes: above 64 the first 64 and the last 64, and no loop.
pub fn put_name(room: &mut [u8], at: usize, src: &[u8])
    requires { (length src.now ≤ 128) × (at + length src.now ≤ length room.old) }
    ensures { room.new ≡ put room.old at src.now }
{
    let n = src.len();
    if n <= 64 {
        put_text(room, at, src);
        return;
    }
    put_64(room, at, src, 0);
    put_64(room, at + (n - 64), src, n - 64);
}
