// The right that an action needs (question 20): by its label, and by the component that has to perform it.
ghost use Rattle.std.specs.Prelude.{◌≡◌};
ghost use Rattle.table.specs.Fire.{granted_at, right_in};
ghost use Rattle.calls_fire.specs.Fired.{tag_of};

use super::Label;
use super::fire::value_in;
use table::{Comp, Head, Script};
use table_rights::{may_leave, may_meet};

// Has an action with this label its right?
pub(crate) fn granted(w: &Script, x: Label) -> bool
    ensures { result ≡ granted_at w.now (tag_of x) }
{
    match x.kind {
        1 => true,
        2 => may_leave(w, x.at, x.a),
        _ => may_meet(w, x.at, x.a),
    }
}

// Has the action that c, a component with the head h, has to perform its right?
pub fn right_in(w: &Script, c: Comp, h: Head) -> bool
    ensures { result ≡ right_in w.now c h }
{
    match h {
        Head::Go(_, v, _) => {
            let x = value_in(c.vals, v);
            may_leave(w, c.loc, x)
        }
        Head::Out(d, _, _, _, _) => may_meet(w, c.loc, d),
        Head::Stop | Head::In(_, _, _, _, _) | Head::Call(_, _) => true,
    }
}
