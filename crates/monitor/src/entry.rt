// The monitor lent by a host and changed in place: thin steps that lend the words behind the reference. Elsewhere the same stand by value: a host keeps
// its record, and a caller in Rust hands one on.
ghost use Rattle.std.specs.Prelude.{◌≡◌};
ghost use Rattle.rules.specs.Record.{fresh_monitor};
ghost use Rattle.rules.specs.Sound.{sound};
ghost use Rattle.rules.specs.Equal.{equal as equal_of};
ghost use Rattle.rules.specs.Step.{step_of};
ghost use Rattle.rules.specs.Run.{listed, list_of};
ghost use Rattle.monitor.specs.File.{passed, file_of};
ghost use Rattle.monitor.specs.View.{view, stepped};

use super::equality::equal_in;
use super::file::{Passed, file_on};
use super::run::{list_code, run_on};
use super::sound::is_sound_in;
use super::steps::step_on;
use super::words::{Store, WORDS, clear};
use rules::{Answer, Call};

// One call.
pub fn monitor_step(m: &mut Store, call: Call) -> Answer
    ensures { stepped result (view m.new.words) ≡ step_of (view m.old.words) call }
{
    step_on(&mut m.words, call)
}

// A list of calls, six numbers to a call, and its answers, six places a call: 0, 17, 16 or 19.
pub fn monitor_run(m: &mut Store, calls: &[u32], answers: &mut [i64]) -> i64
    ensures { listed result (view m.new.words) answers.new ≡ list_of (view m.old.words) calls.now answers.old }
{
    list_code(run_on(&mut m.words, calls, answers))
}

// A drill file, and its answers, six places a call.
pub fn monitor_file(m: &mut Store, input: &[u8], answers: &mut [i64]) -> Passed
    ensures { passed (view m.new.words) result.code result.calls result.used answers.new ≡ file_of (view m.old.words) input.now answers.old }
{
    file_on(&mut m.words, input, answers)
}

// Makes the record fresh, whatever it was. The record is the words themselves here and below, which a host lends alike.
pub fn monitor_fresh(words: &mut [u32; WORDS])
    ensures { view words.new ≡ fresh_monitor }
{
    clear(&mut *words);
}

// Is the record sound?
pub fn monitor_sound(words: &[u32; WORDS]) -> bool
    ensures { result ≡ sound (view words.now) }
{
    is_sound_in(words)
}

// Are two both sound, and all their fields alike?
pub fn monitor_equal(a: &[u32; WORDS], b: &[u32; WORDS]) -> bool
    ensures { result ≡ equal_of (view a.now) (view b.now) }
{
    equal_in(a, b)
}
