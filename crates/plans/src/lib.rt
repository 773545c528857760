// Deciding on a sound row: which refusal, or which change.
#![tactic(auto)]

mod finding;
mod planning;

pub use planning::{plan_policy, plan_termination, plan_tunnel};

// What is to be done with a sound row: one of the refusals, or a change.
#[derive(Clone, Copy)]
pub enum Plan {
    NotSubscribed,
    Barred,
    RoamingNotAllowed,
    UnableToComply,
    UnusedByUser,
    // the access that is asked for stands already, and goes on as it is
    Stands,
    // a new access on the entry, and the place that is cut for it
    Open { entry: usize, cut: Option<usize> },
    // the policy of the access at the place
    Route(usize),
    // the place is freed
    Free(usize),
}
