// Layer 3, calls: the mean wait of the senders of all messages.
//
//   specs/Averaged  what the call answers
//   proofs/Means    the mean in numbers of 32 bits
#![tactic(auto)]

ghost use Rattle.std.specs.Prelude.{◌≡◌, ◌*◌, ◌≤◌};
ghost use Rattle.terms.specs.Rules.Answer.{accepted};
ghost use Rattle.terms.specs.Refusals.{answer_of};
ghost use Rattle.waits.specs.Mean.{mean_of};
ghost use Rattle.table.specs.Meaning.{total_in, count_in};
ghost use Rattle.calls_mean.specs.Averaged.{mean_answer, mean_by, averaged};

use table::words::wide;
use table::{Script, Words};
use table_valid::is_valid;
use table_waits::{messages, total};
use terms::refusal::Refusal;

// The answer: 0 or 17; how many messages there were, and of the total over that number the whole quotient and the remainder. All three are 0 where there were
// none, and where code is not 0.
#[repr(C)]
#[derive(Clone, Copy)]
pub struct Averaged {
    pub code: u32,
    pub count: u32,
    pub quotient: u32,
    pub remainder: u32,
}

// The mean of some messages: of the total over their count the whole quotient and the remainder.
#[derive(Clone, Copy)]
struct MeanWait {
    count: u32,
    quotient: u32,
    remainder: u32,
}

// The call's answer from a mean, or none where there were no messages, or a refusal.
fn answer(x: Result<Option<MeanWait>, Refusal>) -> Averaged
    ensures { result ≡ averaged (answer_of mean_by x) }
{
    let (code, m) = match x {
        Ok(m) => (0, m),
        Err(e) => (e.number(), None),
    };
    match m {
        Some(m) => Averaged {
            code,
            count: m.count,
            quotient: m.quotient,
            remainder: m.remainder,
        },
        None => Averaged {
            code,
            count: 0,
            quotient: 0,
            remainder: 0,
        },
    }
}

// The mean, if there were messages.
fn mean_in(c: &Words) -> Option<MeanWait>
    requires { (count_in c.now ≤ 1000000) × (total_in c.now ≤ 1000000 * count_in c.now) }
    ensures { mean_by result ≡ mean_of (total_in c.now) (count_in c.now) }
{
    let count = messages(c);
    if count == 0 {
        return None;
    }
    let t = total(c);
    let d = wide(count);
    Some(MeanWait {
        count,
        quotient: (t / d) as u32,
        remainder: (t % d) as u32,
    })
}

// The mean, where the total and the count are in range.
pub fn mean_of(c: &Words) -> Averaged
    requires { (count_in c.now ≤ 1000000) × (total_in c.now ≤ 1000000 * count_in c.now) }
    ensures { result ≡ averaged (accepted (mean_of (total_in c.now) (count_in c.now))) }
{
    answer(Ok(mean_in(c)))
}

// The mean: question 17 first.
pub fn mean(w: &Script, c: &Words, n: usize) -> Averaged
    ensures { result ≡ averaged (mean_answer w.now (record { c = c.entry.now; n = n })) }
{
    if !is_valid(w, c, n) {
        return answer(Err(Refusal::NotValid));
    }
    mean_of(c)
}
