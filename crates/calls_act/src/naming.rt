// The label of an action on a table that passes question 17: questions 8 to 11 and 20, asked of the action's components alone. Nothing is written or copied.
ghost use Rattle.std.specs.Prelude.{◌≡◌};
ghost use Rattle.terms.specs.Refusals.{answer_of};
ghost use Rattle.terms.specs.Rules.{act};
ghost use Rattle.terms.specs.Rules.Action.{single, pair};
ghost use Rattle.table.specs.Meaning.{context_of, net_of};
ghost use Rattle.calls_act.specs.Acted.{action_allowed, kind_is};
ghost use Rattle.calls_act.specs.Labelled.{name_of, named, labelled};

use super::action::{Action, Kind};
use super::{Acted, act};
use calls_fire::{Label, fire};
use table::comps::comp_at;
use table::network::Network;
use terms::refusal::Refusal;

fn label_one(net: Network, kind: Kind, p: usize) -> Result<Label, Refusal>
    ensures { answer_of (name_of net.entry.script.now) result ≡ labelled (act (context_of net.entry.script.now) (single (kind_is kind) p) (net_of net.entry.script.now (record { c = net.entry.words.now; n = net.entry.n }))) }
{
    if net.n <= p {
        return Err(Refusal::OutOfRange);
    }
    let f = act::fire_one(net.script, kind, comp_at(net.words, p))?;
    Ok(f.label)
}

fn label_pair(net: Network, p: usize, q: usize) -> Result<Label, Refusal>
    ensures { answer_of (name_of net.entry.script.now) result ≡ labelled (act (context_of net.entry.script.now) (pair p q) (net_of net.entry.script.now (record { c = net.entry.words.now; n = net.entry.n }))) }
{
    if net.n <= p || net.n <= q {
        return Err(Refusal::OutOfRange);
    }
    let m = fire::fire_pair(net.script, comp_at(net.words, p), comp_at(net.words, q))?;
    Ok(m.label)
}

fn label_by(net: Network, kind: u32, p: usize, q: usize) -> Result<Label, Refusal>
    ensures { answer_of (name_of net.entry.script.now) result ≡ labelled (action_allowed net.entry.script.now (record { c = net.entry.words.now; n = net.entry.n }) kind p q) }
{
    match Action::numbered(kind, p, q)? {
        Action::Single(kind, p) => label_one(net, kind, p),
        Action::Pair(p, q) => label_pair(net, p, q),
    }
}

// By the kind; another is refused by question 8.
pub fn label_at(net: Network, kind: u32, p: usize, q: usize) -> Acted
    ensures { named net.entry.script.now result ≡ labelled (action_allowed net.entry.script.now (record { c = net.entry.words.now; n = net.entry.n }) kind p q) }
{
    Acted::from(label_by(net, kind, p, q))
}
