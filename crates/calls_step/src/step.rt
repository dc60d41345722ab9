// The step at a location of a table that passes question 17: questions 8, 15, 18 and 13. A refusal puts the components back.
ghost use Rattle.std.specs.Prelude.{◌≡◌, true, ◌++◌, ◌+◌, ◌<◌, ◌≤◌, Ok, length, take, drop};
ghost use Rattle.terms.specs.Same.{every};
ghost use Rattle.table.specs.Words.{locs_in};
ghost use Rattle.table.specs.Meaning.{comps_of, count_in};
ghost use Rattle.table.specs.Valid.{valid};
ghost use Rattle.calls_steady.specs.Steady.{stays_one};
ghost use Rattle.calls_step.specs.Stepped.{step_rule, StepsAs, refusal, stepped_of, put_back};

use super::{Done, Stepped};
use calls_pass::pass;
use calls_steady::known_steady;
use calls_sweep::sweep;
use table::comps::sized;
use table::network::Network;
use table::{Script, Words, words};
use table_waits::{count_messages, messages};
use terms::refusal::Refusal;
use waits::MOST;

pub fn refuse(code: u32, n: usize) -> Stepped
    ensures { result ≡ refusal code n }
{
    Stepped { code, count: 0, n }
}

// The first records of acts, in front of what is there.
fn put_records(acts: &[[u32; 3]; 256], count: usize, records: &mut [[u32; 3]])
    requires { (length acts.now ≡ 256) × (count ≤ 256) × (count ≤ length records.old) }
    ensures { records.new ≡ take count acts.now ++ drop count records.old }
{
    records[..count].copy_from_slice(&acts[..count]);
}

// Is it known at little cost that none of 15, 18 and 13 is answered by no? There is room for an action at every position, a count for a message of each, and
// every component stays one.
fn spared(net: Network, l: u32, size: usize) -> bool
    ensures { result ≡ true → (net.entry.n ≤ size) × (count_in net.entry.words.now + net.entry.n ≤ 1000000) × (every (stays_one net.entry.script.now l) (comps_of (record { c = net.entry.words.now; n = net.entry.n })) ≡ true) }
{
    if size < net.n || MOST - 256 < messages(net.words) {
        return false;
    }
    known_steady(net, l)
}

// The step where it is so: nothing is to be put back, the records are written where they are wanted, and as many components are left as there were.
fn step_free(w: &Script, c: &mut Words, n: usize, l: u32, records: &mut [[u32; 3]]) -> Done
    requires { (valid w.now (record { c = c.now; n = n }) ≡ true) × (l < locs_in w.now) × (n ≤ length records.old) × (count_in c.now + n ≤ 1000000) × (every (stays_one w.now l) (comps_of (record { c = c.now; n = n })) ≡ true) }
    ensures { StepsAs w.now (record { c = c.entry.now; n = n }) (step_rule w.now (record { c = c.entry.now; n = n }) l (length records.old)) (stepped_of n (Ok result)) c.exit.now records.old records.new }
{
    sized(*c);
    let s = sweep::sweep(w, c, n, l, records);
    count_messages(c, s.sent, s.sum);
    pass::pass_all(w, c, n, l);
    Done { count: s.count, n }
}

// Questions 15, 18 and 13 of the step, whose records are written beside the lent ones until all are answered; where one is refused, the components are still
// to be put back.
fn step_asked(
    w: &Script,
    c: &mut Words,
    n: usize,
    l: u32,
    records: &mut [[u32; 3]],
) -> Result<Done, Refusal>
    requires { (valid w.now (record { c = c.now; n = n }) ≡ true) × (l < locs_in w.now) }
    ensures { StepsAs w.now (record { c = c.entry.now; n = n }) (step_rule w.now (record { c = c.entry.now; n = n }) l (length records.old)) (stepped_of n result) (put_back result c.entry.now c.exit.now) records.old records.new }
{
    sized(*c);
    let mut acts = [[0; 3]; 256];
    let s = sweep::sweep(w, c, n, l, &mut acts);
    if records.len() < s.count {
        return Err(Refusal::BufferShort);
    }
    if MOST < messages(c) + s.sent {
        return Err(Refusal::MessagesFull);
    }
    count_messages(c, s.sent, s.sum);
    let Some(k) = pass::pass_all(w, c, n, l) else {
        return Err(Refusal::TableFull);
    };
    put_records(&acts, s.count, records);
    Ok(Done {
        count: s.count,
        n: k,
    })
}

// The step with these questions: a copy of the components is kept until they are answered.
fn step_kept(
    w: &Script,
    c: &mut Words,
    n: usize,
    l: u32,
    records: &mut [[u32; 3]],
) -> Result<Done, Refusal>
    requires { (valid w.now (record { c = c.now; n = n }) ≡ true) × (l < locs_in w.now) }
    ensures { StepsAs w.now (record { c = c.entry.now; n = n }) (step_rule w.now (record { c = c.entry.now; n = n }) l (length records.old)) (stepped_of n result) c.exit.now records.old records.new }
{
    let held = *c;
    let r = step_asked(w, c, n, l, records);
    if r.is_err() {
        *c = held;
    }
    r
}

fn step_by(
    w: &Script,
    c: &mut Words,
    n: usize,
    l: u32,
    records: &mut [[u32; 3]],
) -> Result<Done, Refusal>
    requires { valid w.now (record { c = c.now; n = n }) ≡ true }
    ensures { StepsAs w.now (record { c = c.entry.now; n = n }) (step_rule w.now (record { c = c.entry.now; n = n }) l (length records.old)) (stepped_of n result) c.exit.now records.old records.new }
{
    if words::word(w, 1) <= l {
        return Err(Refusal::OutOfRange);
    }
    let net = Network {
        script: w,
        words: &*c,
        n,
    };
    if spared(net, l, records.len()) {
        return Ok(step_free(w, c, n, l, records));
    }
    step_kept(w, c, n, l, records)
}

pub fn step_valid(w: &Script, c: &mut Words, n: usize, l: u32, records: &mut [[u32; 3]]) -> Stepped
    requires { valid w.now (record { c = c.now; n = n }) ≡ true }
    ensures { StepsAs w.now (record { c = c.entry.now; n = n }) (step_rule w.now (record { c = c.entry.now; n = n }) l (length records.old)) result c.exit.now records.old records.new }
{
    match step_by(w, c, n, l, records) {
        Ok(d) => Stepped {
            code: 0,
            count: d.count,
            n: d.n,
        },
        Err(e) => refuse(e.number(), n),
    }
}
