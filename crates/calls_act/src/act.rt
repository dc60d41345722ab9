// An action at positions of a table that passes question 17, in the lent components. A refusal writes nothing.
ghost use Rattle.std.specs.Prelude.{◌≡◌, true};
ghost use Rattle.terms.specs.Rules.Action.{single, pair};
ghost use Rattle.table.specs.Meaning.{comps_of};
ghost use Rattle.table.specs.Valid.{script_ok, comp_ok, valid};
ghost use Rattle.table.specs.Fire.{alone_at, act_on};
ghost use Rattle.calls_fire.specs.Fired.{one_of};
ghost use Rattle.calls_act.specs.Acted.{action_rule, refusal, acted_of, ActsAs, LeavesAs, limited, kind_is};

use super::Acted;
use super::action::{Action, Kind};
use calls_fire::{Fired, Label, fire};
use table::comps::{comp_at, put_comp, sized};
use table::{Comp, Script, Words, words};
use table_waits::{count_messages, messages};
use terms::refusal::Refusal;
use waits::MOST;

pub fn refuse(code: u32) -> Acted
    ensures { result ≡ refusal code }
{
    Acted {
        code: code,
        label: Label {
            kind: 0,
            a: 0,
            b: 0,
            at: 0,
        },
    }
}

// Questions 9, 10 and 20 of a call by x, or of a move of x.
pub(crate) fn fire_one(w: &Script, kind: Kind, x: Comp) -> Result<Fired, Refusal>
    requires { (script_ok w.now ≡ true) × (comp_ok w.now x ≡ true) }
    ensures { one_of result ≡ alone_at w.now (kind_is kind) x }
{
    match kind {
        Kind::Call => fire::fire_call(w, x),
        Kind::Move => fire::fire_move(w, x),
    }
}

fn act_one(w: &Script, c: &mut Words, n: usize, kind: Kind, p: usize) -> Result<Label, Refusal>
    requires { valid w.now (record { c = c.now; n = n }) ≡ true }
    ensures { LeavesAs (record { c = c.entry.now; n = n }) (single (kind_is kind) p) (limited (record { c = c.entry.now; n = n }) (single (kind_is kind) p) (act_on w.now (single (kind_is kind) p) (comps_of (record { c = c.entry.now; n = n })))) (acted_of result) c.exit.now }
{
    if n <= p {
        return Err(Refusal::OutOfRange);
    }
    sized(*c);
    let f = fire_one(w, kind, comp_at(c, p))?;
    put_comp(c, p, f.comp);
    Ok(f.label)
}

// Question 18 comes last: is there a count left?
fn act_pair(w: &Script, c: &mut Words, n: usize, p: usize, q: usize) -> Result<Label, Refusal>
    requires { valid w.now (record { c = c.now; n = n }) ≡ true }
    ensures { LeavesAs (record { c = c.entry.now; n = n }) (pair p q) (limited (record { c = c.entry.now; n = n }) (pair p q) (act_on w.now (pair p q) (comps_of (record { c = c.entry.now; n = n })))) (acted_of result) c.exit.now }
{
    if n <= p || n <= q {
        return Err(Refusal::OutOfRange);
    }
    sized(*c);
    let x = comp_at(c, p);
    let m = fire::fire_pair(w, x, comp_at(c, q))?;
    if MOST <= messages(c) {
        return Err(Refusal::MessagesFull);
    }
    put_comp(c, p, m.sender);
    put_comp(c, q, m.receiver);
    count_messages(c, 1, words::wide(x.wait));
    Ok(m.label)
}

// Questions 8 to 11, 20 and 18 of an action, and what it leaves.
pub fn act_by(
    w: &Script,
    c: &mut Words,
    n: usize,
    kind: u32,
    p: usize,
    q: usize,
) -> Result<Label, Refusal>
    requires { valid w.now (record { c = c.now; n = n }) ≡ true }
    ensures { ActsAs w.now (record { c = c.entry.now; n = n }) (action_rule w.now (record { c = c.entry.now; n = n }) kind p q) (acted_of result) c.exit.now }
{
    match Action::numbered(kind, p, q)? {
        Action::Single(kind, p) => act_one(w, c, n, kind, p),
        Action::Pair(p, q) => act_pair(w, c, n, p, q),
    }
}

// The same, as a caller in another language gets it.
pub fn act_valid(w: &Script, c: &mut Words, n: usize, kind: u32, p: usize, q: usize) -> Acted
    requires { valid w.now (record { c = c.now; n = n }) ≡ true }
    ensures { ActsAs w.now (record { c = c.entry.now; n = n }) (action_rule w.now (record { c = c.entry.now; n = n }) kind p q) result c.exit.now }
{
    Acted::from(act_by(w, c, n, kind, p, q))
}
