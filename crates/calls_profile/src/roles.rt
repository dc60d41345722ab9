// The role of a component at a location: what it has to have for itself there.
ghost use Rattle.std.specs.Prelude.{◌≡◌, true};
ghost use Rattle.table.specs.Valid.{script_ok, comp_ok};
ghost use Rattle.calls_profile.specs.Roles.{OfRole, role_of};

use calls_must::forced::ready_at;
use table::{Comp, Head, Script, words};
use terms::Timer;

// Where the places of receivers begin, and how many places there are.
const RECEIVERS: usize = 64;

pub(crate) const PLACES: usize = 128;

#[derive(Clone, Copy)]
pub(crate) enum Role {
    // that of a sender or a receiver: its channel's place, which nobody else may have
    Place(usize),
    // that of all who ask nothing
    Nothing,
    // that of a `go` that is not due, which nobody may have
    Late,
}

pub(crate) fn role_of(w: &Script, l: u32, c: Comp) -> Role
    requires { (script_ok w.now ≡ true) × (comp_ok w.now c ≡ true) }
    ensures { OfRole (role_of w.now l c) result }
{
    if !ready_at(l, c) {
        return Role::Nothing;
    }
    match words::head_at(w, words::wide(c.place)) {
        Head::Stop => Role::Nothing,
        Head::Go(_, _, _) => {
            let t = Timer { raw: c.timer };
            if t.is_due() {
                Role::Nothing
            } else {
                Role::Late
            }
        }
        Head::Out(d, _, _, _, _) => Role::Place(words::wide(d)),
        Head::In(d, _, _, _, _) => Role::Place(words::wide(d) + RECEIVERS),
        Head::Call(_, _) => Role::Nothing,
    }
}
