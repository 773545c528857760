// A whole call.
#![tactic(auto)]

mod handling;

use effects::Cut;
pub use handling::{call_number, handle, most_policies, name_fits, notice_length, text};
use message::{Kind, Span};

// Where the texts stand that a request brings for its change; empty where it brings none.
#[derive(Clone, Copy)]
pub struct Texts {
    pub session: Span,
    pub host: Span,
    pub realm: Span,
    pub first: Span,
    pub second: Span,
    pub third: Span,
}

// What is decided on a message that gets an answer: the code and its kind, the user that a success names, the place of a new access, else 0,
// and the cut, where one was made.
#[derive(Clone, Copy)]
pub struct Decided {
    pub code: u32,
    pub kind: Kind,
    pub user: Span,
    pub place: usize,
    pub cut: Option<Cut>,
}

// What a call returns: the code and its kind, the length of the answer, the place of a new access, else 0, and the cut, where one was made.
#[derive(Clone, Copy)]
pub struct Outcome {
    pub code: u32,
    pub kind: Kind,
    pub length: usize,
    pub place: usize,
    pub cut: Option<Cut>,
}
