// Layer 1, the table: waits, and the total and the count of messages that stand behind the components (document 02, R-1).
//
//   specs/Ledger   the words of a total and a count
//   proofs/Ledger  the total and the count after stores
//   proofs/Waits   the waits that an action and a tick leave on the table are those of the rules
#![tactic(auto)]

ghost use Rattle.std.specs.Prelude.{◌≡◌, ◌+◌, ◌≤◌};
ghost use Rattle.table.specs.Meaning.{total_in, count_in};
ghost use Rattle.table.specs.Valid.{ledger_ok};
ghost use Rattle.table_waits.specs.Ledger.{counted};

use table::words::wide;
use table::{COUNT, TOTAL_HIGH, TOTAL_LOW, Words};
use waits::{LONGEST, MOST};

// How long the senders of all messages had waited together.
#[tactic(auto, unfolding(table::specs::Meaning::total_in))]
pub fn total(c: &Words) -> usize
    ensures { result ≡ total_in c.now }
{
    wide(c[TOTAL_LOW]) + wide(c[TOTAL_HIGH]) * 4294967296
}

// How many messages there were.
pub fn messages(c: &Words) -> u32
    ensures { result ≡ count_in c.now }
{
    c[COUNT]
}

// What question 17 asks of the total and the count.
#[tactic(auto, using(std::proofs::lemmas::Bool::Decides::nat_tests), unfolding(table::specs::Valid::ledger_ok))]
pub fn ledger_ok(c: &Words) -> bool
    ensures { result ≡ ledger_ok c.now }
{
    let n = messages(c);
    n <= MOST && total(c) <= wide(LONGEST) * wide(n)
}

// So many messages more, whose senders had waited sum ticks together.
#[tactic(auto, unfolding(crate::specs::Ledger::counted))]
pub fn count_messages(c: &mut Words, sent: u32, sum: usize)
    requires { (count_in c.old + sent ≤ 1000000) × (total_in c.old + sum ≤ 2000000000000) }
    ensures { c.new ≡ counted c.old sent sum }
{
    let t = total(c) + sum;
    let n = messages(c);
    c[TOTAL_LOW] = (t % 4294967296) as u32;
    c[TOTAL_HIGH] = (t / 4294967296) as u32;
    c[COUNT] = n + sent;
}
