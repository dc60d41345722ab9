// The engine as a library for programs in other languages: the outward calls under names of their own, as include/timo.h declares them.
// Each has the contract of the call that it hands on; of the printout it is said in plainer words.
#![tactic(auto)]

ghost use Rattle.std.specs.Prelude.{◌≡◌, ◌≤◌, length};
ghost use Rattle.table.specs.Words.{locs_in, chans_in, loc_name, chan_name};
ghost use Rattle.table.specs.Valid.{valid};
ghost use Rattle.calls_act.specs.Acted.{action_answer, ActsAs};
ghost use Rattle.calls_tick.specs.Ticked.{tick_answer, TicksAs};
ghost use Rattle.calls_step.specs.Stepped.{step_answer, StepsAs};
ghost use Rattle.calls_propose.specs.Proposed.{propose_answer};
ghost use Rattle.calls_forced.specs.Report.{forced_report};
ghost use Rattle.calls_mean.specs.Averaged.{mean_answer, averaged};
ghost use Rattle.calls_profile.specs.Profiled.{test_answer, tested, conforming_answer};
ghost use Rattle.calls_same.specs.Answer.{compared, same_answer};
ghost use Rattle.text_answer.specs.Answer.{ReadsAs, all_settings};
ghost use Rattle.text_write.specs.Answer.{Answers, write_answer};
ghost use Rattle.run_print.specs.Print.{printout};
ghost use Rattle.host.specs.Shown.{count_answer, counted, name_answer, label_answer, line_answer, Shows};

use calls::{action, conforms, forced_report, step_at, step_conforming, tick_at};
use calls_act::Acted;
use calls_forced::Report;
use calls_mean::{Averaged, mean};
use calls_profile::Tested;
use calls_propose::Record;
use calls_propose::outward::propose;
use calls_same::{Compared, same};
use calls_step::Stepped;
use calls_tick::Ticked;
use host::{Counted, action_label, channel_name, channels, location_name, locations, step_line};
use table::{Script, Words};
use table_valid::is_valid;
use text_answer::given::all_rights;
use text_answer::{Reading, Settings};
use text_write::{Written, write};

// An edition with all rights, to be read with or to take rights from. Nothing is asked of the edition.
#[unsafe(no_mangle)]
pub extern "C" fn timo_all_rights(edition: u32) -> Settings
    ensures { result ≡ all_settings edition }
{
    all_rights(edition)
}

// Reading, with what is given beside the text: questions 21 and 1 to 7. A refusal leaves the lent script as it was.
#[unsafe(no_mangle)]
pub extern "C" fn timo_read(text: &[u8], given: Settings, w: &mut Script) -> Reading
    ensures { ReadsAs text.now given w.old w.new result }
{
    text_read::read(text, given, w)
}

// Question 17: does the table stand for a network?
#[unsafe(no_mangle)]
pub extern "C" fn timo_valid(w: &Script, c: &Words, n: usize) -> bool
    ensures { result ≡ valid w.now (record { c = c.entry.now; n = n }) }
{
    is_valid(w, c, n)
}

// A single action: questions 17, 8, 9, 10, 11, 20, 18. A refusal leaves the lent components as they were, here and in all calls that change them.
#[unsafe(no_mangle)]
pub extern "C" fn timo_action(
    w: &Script,
    c: &mut Words,
    n: usize,
    kind: u32,
    p: usize,
    q: usize,
) -> Acted
    ensures { ActsAs w.now (record { c = c.entry.now; n = n }) (action_answer w.now (record { c = c.entry.now; n = n }) kind p q) result c.exit.now }
{
    action(w, c, n, kind, p, q)
}

// The tick at a location: questions 17, 8, 12, 13.
#[unsafe(no_mangle)]
pub extern "C" fn timo_tick(w: &Script, c: &mut Words, n: usize, l: u32) -> Ticked
    ensures { TicksAs w.now (record { c = c.entry.now; n = n }) (tick_answer w.now (record { c = c.entry.now; n = n }) l) result c.exit.now }
{
    tick_at(w, c, n, l)
}

// The step at a location: questions 17, 8, 15, 18, 13. A refusal leaves the lent records as they were too.
#[unsafe(no_mangle)]
pub extern "C" fn timo_step(
    w: &Script,
    c: &mut Words,
    n: usize,
    l: u32,
    records: &mut [[u32; 3]],
) -> Stepped
    ensures { StepsAs w.now (record { c = c.entry.now; n = n }) (step_answer w.now (record { c = c.entry.now; n = n }) l (length records.old)) result c.exit.now records.old records.new }
{
    step_at(w, c, n, l, records)
}

// Does a location conform to the single-outcome profile? Questions 17 and 8; a no is no refusal.
#[unsafe(no_mangle)]
pub extern "C" fn timo_conforms(w: &Script, c: &Words, n: usize, l: u32) -> Tested
    ensures { result ≡ tested (test_answer w.now (record { c = c.entry.now; n = n }) l) }
{
    conforms(w, c, n, l)
}

// The step at a location that conforms: questions 17, 8, 26, and then as the step's, 15, 18, 13.
#[unsafe(no_mangle)]
pub extern "C" fn timo_step_conforming(
    w: &Script,
    c: &mut Words,
    n: usize,
    l: u32,
    records: &mut [[u32; 3]],
) -> Stepped
    ensures { StepsAs w.now (record { c = c.entry.now; n = n }) (conforming_answer w.now (record { c = c.entry.now; n = n }) l (length records.old)) result c.exit.now records.old records.new }
{
    step_conforming(w, c, n, l, records)
}

// A proposal: questions 17, 8 for the location, 8 to 11, 20, 18 and 16 for each record, 12, 13.
#[unsafe(no_mangle)]
pub extern "C" fn timo_propose(
    w: &Script,
    c: &mut Words,
    n: usize,
    l: u32,
    records: &[Record],
) -> Ticked
    ensures { TicksAs w.now (record { c = c.entry.now; n = n }) (propose_answer w.now (record { c = c.entry.now; n = n }) l records.now) result c.exit.now }
{
    propose(w, c, n, l, records)
}

// The forced report: question 17.
#[unsafe(no_mangle)]
pub extern "C" fn timo_forced(w: &Script, c: &Words, n: usize) -> Report
    ensures { result ≡ forced_report w.now (record { c = c.entry.now; n = n }) }
{
    forced_report(w, c, n)
}

// The mean wait of the senders of all messages: question 17.
#[unsafe(no_mangle)]
pub extern "C" fn timo_mean(w: &Script, c: &Words, n: usize) -> Averaged
    ensures { result ≡ averaged (mean_answer w.now (record { c = c.entry.now; n = n })) }
{
    mean(w, c, n)
}

// Writing: questions 17, 14, 15.
#[unsafe(no_mangle)]
pub extern "C" fn timo_write(w: &Script, c: &Words, n: usize, buf: &mut [u8]) -> Written
    ensures { Answers (write_answer w.now (record { c = c.entry.now; n = n }) (length buf.old)) buf.old result buf.new }
{
    write(w, c, n, buf)
}

// Comparing: question 17 of both networks.
#[unsafe(no_mangle)]
pub extern "C" fn timo_same(
    w: &Script,
    a: &Words,
    n: usize,
    v: &Script,
    b: &Words,
    m: usize,
) -> Compared
    ensures { result ≡ compared (same_answer w.now (record { c = a.now; n = n }) v.now (record { c = b.now; n = m })) }
{
    same(w, a, n, v, b, m)
}

// How many locations there are: question 17.
#[unsafe(no_mangle)]
pub extern "C" fn timo_locations(w: &Script, c: &Words, n: usize) -> Counted
    ensures { result ≡ counted (count_answer w.now (record { c = c.entry.now; n = n }) (locs_in w.now)) }
{
    locations(w, c, n)
}

// How many channels there are: question 17.
#[unsafe(no_mangle)]
pub extern "C" fn timo_channels(w: &Script, c: &Words, n: usize) -> Counted
    ensures { result ≡ counted (count_answer w.now (record { c = c.entry.now; n = n }) (chans_in w.now)) }
{
    channels(w, c, n)
}

// The name of the location numbered l: questions 17, 8, 15.
#[unsafe(no_mangle)]
pub extern "C" fn timo_location_name(
    w: &Script,
    c: &Words,
    n: usize,
    l: u32,
    buf: &mut [u8],
) -> Written
    ensures { Answers (name_answer w.now (record { c = c.entry.now; n = n }) (locs_in w.now) (loc_name w.now) l (length buf.old)) buf.old result buf.new }
{
    location_name(w, c, n, l, buf)
}

// The name of the channel numbered h: questions 17, 8, 15.
#[unsafe(no_mangle)]
pub extern "C" fn timo_channel_name(
    w: &Script,
    c: &Words,
    n: usize,
    h: u32,
    buf: &mut [u8],
) -> Written
    ensures { Answers (name_answer w.now (record { c = c.entry.now; n = n }) (chans_in w.now) (chan_name w.now) h (length buf.old)) buf.old result buf.new }
{
    channel_name(w, c, n, h, buf)
}

// The label of an action: questions 17, 8, 9, 10, 11, 20, 15. An action of a step has the same label in the network before the step, which is the law
// step-before of run_line; so the records of a step are shown with the components as they were before it (host/proofs/Records).
#[unsafe(no_mangle)]
pub extern "C" fn timo_action_label(
    w: &Script,
    c: &Words,
    n: usize,
    kind: u32,
    p: usize,
    q: usize,
    buf: &mut [u8],
) -> Written
    ensures { Answers (label_answer w.now (record { c = c.entry.now; n = n }) kind p q (length buf.old)) buf.old result buf.new }
{
    action_label(w, c, n, kind, p, q, buf)
}

// The line of the step at a location, from the components before it: questions 17, 8, 18, 13, 15.
#[unsafe(no_mangle)]
pub extern "C" fn timo_step_line(w: &Script, c: &Words, n: usize, l: u32, buf: &mut [u8]) -> Written
    ensures { Answers (line_answer w.now (record { c = c.entry.now; n = n }) l (length buf.old)) buf.old result buf.new }
{
    step_line(w, c, n, l, buf)
}

// The whole printout of a text, as `timorun` prints it, under edition 1 and with all rights: its length, which is at most 3,477,768, and as much of it as the buffer holds. What `run_print`
// promises of its place and bytes, said without its way of counting.
#[unsafe(no_mangle)]
pub extern "C" fn timo_printout(text: &[u8], buf: &mut [u8]) -> usize
    ensures { Shows (printout text.now) buf.old result buf.new × (result ≤ 3477768) }
{
    run_print::printout(text, buf)
}
