// The monitor as a host links it: its entries under their names in C, each the library's with the library's contract.
#![tactic(auto)]

ghost use Rattle.std.specs.Prelude.{◌≡◌};
ghost use Rattle.rules.specs.Record.{fresh_monitor};
ghost use Rattle.rules.specs.Sound.{sound};
ghost use Rattle.rules.specs.Equal.{equal as equal_of};
ghost use Rattle.rules.specs.Step.{step_of};
ghost use Rattle.rules.specs.Run.{listed, list_of};
ghost use Rattle.monitor.specs.File.{passed, file_of};
ghost use Rattle.monitor.specs.View.{view, stepped};

use monitor::{Passed, Store, WORDS};
use rules::{Answer, Call};

// One call.
#[unsafe(no_mangle)]
pub extern "C" fn monitor_step(m: &mut Store, call: Call) -> Answer
    ensures { stepped result (view m.new.words) ≡ step_of (view m.old.words) call }
{
    monitor::monitor_step(&mut *m, call)
}

// A list of calls, six numbers to a call, and its answers, six places a call: 0, 17, 16 or 19.
#[unsafe(no_mangle)]
pub extern "C" fn monitor_run(m: &mut Store, calls: &[u32], answers: &mut [i64]) -> i64
    ensures { listed result (view m.new.words) answers.new ≡ list_of (view m.old.words) calls.now answers.old }
{
    monitor::monitor_run(&mut *m, calls, &mut *answers)
}

// A drill file, and its answers, six places a call.
#[unsafe(no_mangle)]
pub extern "C" fn monitor_file(m: &mut Store, input: &[u8], answers: &mut [i64]) -> Passed
    ensures { passed (view m.new.words) result.code result.calls result.used answers.new ≡ file_of (view m.old.words) input.now answers.old }
{
    monitor::monitor_file(&mut *m, input, &mut *answers)
}

// Makes the record fresh, whatever it was. The record is the words themselves here and below, which a host lends alike.
#[unsafe(no_mangle)]
pub extern "C" fn monitor_fresh(words: &mut [u32; WORDS])
    ensures { view words.new ≡ fresh_monitor }
{
    monitor::monitor_fresh(&mut *words);
}

// Is the record sound?
#[unsafe(no_mangle)]
pub extern "C" fn monitor_sound(words: &[u32; WORDS]) -> bool
    ensures { result ≡ sound (view words.now) }
{
    monitor::monitor_sound(words)
}

// Are two both sound, and all their fields alike?
#[unsafe(no_mangle)]
pub extern "C" fn monitor_equal(a: &[u32; WORDS], b: &[u32; WORDS]) -> bool
    ensures { result ≡ equal_of (view a.now) (view b.now) }
{
    monitor::monitor_equal(a, b)
}
