// Deciding: the tests of each request, in order, on a sound row.
ghost use Rattle.std.specs.Prelude.{◌≡◌, true, ◌&&◌, not, ◌≤◌, ◌/◌, ◌%◌, eqb, length};
ghost use Rattle.changes.specs.Changes.{Opening};
ghost use Rattle.table.specs.TheTable.{Policies, read_row};
ghost use Rattle.table.specs.Soundness.{sound};
ghost use Rattle.rules.specs.Deciding.{type0, type1, terminate, admit, held_already};
ghost use Rattle.plans.specs.Plans.{Brought, fit_plan, fit_policies, planned};

use super::{Plan, finding};

// An opening on entry n: at its limit, the entry's first-opened access is cut for it.
fn plan_opening(row: &[u8], n: usize) -> Plan
    requires { (sound row.now ≡ true) × (1 ≤ n) × (n ≤ length (read_row row.now).entries) }
    ensures { ((o : Opening) (p : Policies)
        → planned (record { opening = o; policies = p }) result (read_row row.now) ≡ admit n o (read_row row.now))
        × ((p : Policies) → fit_plan p result row.now ≡ true) }
{
    if soundness::accesses_on(row, n) < usize::from(finding::limit_of(row, n)) {
        return Plan::Open {
            entry: n,
            cut: None,
        };
    }
    Plan::Open {
        entry: n,
        cut: finding::first_on(row, n),
    }
}

// A visited network is named, and the entry may not roam.
fn roams_unasked(flags: u8, visited: bool) -> bool
    ensures { result ≡ visited && not (eqb (flags / 2 % 2) 1) }
{
    visited && flags / 2 % 2 != 1
}

// A Session-Id that is already in the row: on entry n its access goes on.
fn plan_held(row: &[u8], n: usize, session: &[u8]) -> Plan
    requires { sound row.now ≡ true }
    ensures { ((b : Brought) → planned b result (read_row row.now) ≡ held_already n session.now (read_row row.now))
        × ((p : Policies) → fit_plan p result row.now ≡ true) }
{
    match finding::place_on(row, n, session) {
        Some(_) => Plan::Stands,
        None => Plan::UnableToComply,
    }
}

// Type 0: may a tunnel open?
pub fn plan_tunnel(row: &[u8], session: &[u8], label: &[u8], visited: bool) -> Plan
    requires { sound row.now ≡ true }
    ensures { ((o : Opening) (p : Policies) → o.session ≡ session.now
        → planned (record { opening = o; policies = p }) result (read_row row.now)
        ≡ type0 o label.now visited (read_row row.now))
        × ((p : Policies) → fit_plan p result row.now ≡ true) }
{
    let Some(n) = finding::entry_named(row, label) else {
        return Plan::NotSubscribed;
    };
    let flags = finding::flags_of(row, n);
    let roams = roams_unasked(flags, visited);
    if flags % 2 == 1 {
        return Plan::Barred;
    }
    if roams {
        return Plan::RoamingNotAllowed;
    }
    if finding::place_of(row, session).is_some() {
        return plan_held(row, n, session);
    }
    plan_opening(row, n)
}

// Type 1: a policy for an access that stands, if the wireless gateway agrees.
pub fn plan_policy(row: &[u8], session: &[u8], wag: bool) -> Plan
    requires { sound row.now ≡ true }
    ensures { ((o : Opening) (p : Policies)
        → planned (record { opening = o; policies = p }) result (read_row row.now)
        ≡ type1 session.now p wag (read_row row.now))
        × ((p : Policies) → fit_policies p ≡ true → fit_plan p result row.now ≡ true) }
{
    let Some(k) = finding::place_of(row, session) else {
        return Plan::UnableToComply;
    };
    if wag {
        return Plan::Route(k);
    }
    Plan::UnableToComply
}

// Termination of the access with this Session-Id on this W-APN.
pub fn plan_termination(row: &[u8], session: &[u8], label: &[u8]) -> Plan
    requires { sound row.now ≡ true }
    ensures { ((o : Opening) (p : Policies)
        → planned (record { opening = o; policies = p }) result (read_row row.now)
        ≡ terminate session.now label.now (read_row row.now))
        × ((p : Policies) → fit_plan p result row.now ≡ true) }
{
    let Some(n) = finding::entry_named(row, label) else {
        return Plan::UnusedByUser;
    };
    let Some(k) = finding::place_on(row, n, session) else {
        return Plan::UnusedByUser;
    };
    Plan::Free(k)
}
