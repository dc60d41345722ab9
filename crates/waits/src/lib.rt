// Layer 1, terms and rules: how long components have waited, and the messages that were counted.
//
//   specs/Waits     waits, total and count after an action, a tick, a step; question 18
//   specs/Counted   the calls of the rules with what is kept beside the components
//   specs/Mean      the mean, and rounded to a whole tick
//   specs/Limits    a list of calls where a full table and a full count turn down what the rules allow
//   specs/Examples  small networks, computed
//
//   proofs/Waits     what question 17 asks of waits, total and count no accepted call breaks
//   proofs/Counting  question 18 of several actions at once
//   proofs/Mean      the mean is exact; rounded it is the nearest whole tick, a half going to the even one, and no other number is
//   proofs/Limits    demand 3 with both reasons; any list of calls, and a whole step
#![tactic(auto)]

ghost use Rattle.std.specs.Prelude.{◌≡◌, ◌/◌, ◌%◌, ◌<◌, ◌≤◌, ◌*◌};
ghost use Rattle.waits.specs.Waits as W;
ghost use Rattle.waits.specs.Mean as M;

// Where a wait halts, and how many messages are counted at most.
pub const LONGEST: u32 = 1000000;

pub const MOST: u32 = 1000000;

// One tick more. (`(n + 1).min(LONGEST)` would shorten a wait above it, and pass the last number.)
pub fn longer(n: u32) -> u32
    ensures { result ≡ W.longer n }
{
    if n < LONGEST { n + 1 } else { n }
}

// A quotient with the remainder r over n, to the nearest whole tick, a half going to the even one. The remainder is compared with what it lacks of n,
// so that nothing is doubled.
pub fn rounded(q: u32, r: u32, n: u32) -> u32
    requires { (q ≤ 1000000) × (r < n) }
    ensures { result ≡ M.rounded q r n }
{
    let rest = n - r;
    if r < rest {
        q
    } else if rest < r {
        q + 1
    } else {
        q + q % 2
    }
}
