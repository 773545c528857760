// An outcome as its eight numbers, each of 32 bits: what C gets of a call, and what a burst writes for each of its messages.
#![tactic(auto)]

ghost use Rattle.std.specs.Prelude.{◌≡◌, ℕ, ◌<◌};
ghost use Rattle.message.specs.Codes.{kind_of};
ghost use Rattle.message.specs.Kinds.{code_from};
ghost use Rattle.decision.specs.Outcomes.{cut_made, result_said};
ghost use Rattle.numbers.specs.InNumbers.{In32, numbers_said};

use decision::Outcome;
use effects::Cut;
use message::Kind;

// The numbers in C's order.
#[repr(C)]
#[derive(Clone, Copy)]
pub struct Numbers {
    pub code: u32,
    pub kind: u32,
    pub length: u32,
    pub place: u32,
    pub cut: u32,
    pub session: u32,
    pub host: u32,
    pub realm: u32,
}

// A number that fits 32 bits.
pub fn narrow(n: usize) -> u32
    requires { n < 4294967296 }
    ensures { result ≡ n }
{
    n as u32
}

// The number of a kind of code.
pub fn kind_number(kind: Kind) -> u32
    ensures { (code : ℕ) → result ≡ kind_of (code_from kind code) }
{
    match kind {
        Kind::NoAnswer => 0,
        Kind::Plain => 1,
        Kind::Experimental => 2,
    }
}

// 1 for a cut, which is also how many notices it leaves.
pub fn cut_number(cut: Option<Cut>) -> u32
    ensures { result ≡ cut_made cut }
{
    u32::from(cut.is_some())
}

// The eight numbers of an outcome; the lengths of no cut are 0.
pub fn numbers_of(o: Outcome) -> Numbers
    requires { In32 (result_said o) }
    ensures { numbers_said result ≡ result_said o }
{
    let none = Cut {
        session: 0,
        host: 0,
        realm: 0,
    };
    let cut = o.cut.unwrap_or(none);
    Numbers {
        code: o.code,
        kind: kind_number(o.kind),
        length: narrow(o.length),
        place: narrow(o.place),
        cut: cut_number(o.cut),
        session: narrow(cut.session),
        host: narrow(cut.host),
        realm: narrow(cut.realm),
    }
}
