#![tactic(auto)]
// The calls as the host makes them: each is lent the controller, runs the call by value, and stores what it hands back.
ghost use Rattle.rules.specs.Calls.{sample, limit, measure, link, fault, clear, tick};
ghost use Rattle.rules.specs.Lines.{on_line1};
ghost use Rattle.claim.specs.Lent.{AnswersLent, BeginsLent};

use controller::Controller;
use parts::replies::Reply;

pub mod duties; // duties.rt: duty and current, without a controller

// Starts afresh with these settings; a pause of 0 stands for 10,000 ms. Refused, it leaves the lent controller as it is, and the
// reply has zeros beside the number.
#[unsafe(no_mangle)]
pub extern "C" fn chuldariin_begin(
    c: &mut Controller,
    time: u64,
    rated: u32,
    pause: u64,
    ventilation: bool,
    digital: bool,
) -> Reply
    ensures { BeginsLent (record { time = time; rated = rated; pause = pause; ventilation = ventilation; digital = digital }) c.entry result c.exit }
{
    let s = calls::begin(*c, time, rated, pause, ventilation, digital);
    *c = s.controller;
    s.reply
}

// A window of readings of the control pilot, in millivolts.
#[unsafe(no_mangle)]
pub extern "C" fn chuldariin_sample(c: &mut Controller, time: u64, window: &[i32]) -> Reply
    ensures { AnswersLent (record { time = time; event = sample window.now }) c.entry result c.exit }
{
    let s = calls::sample(*c, time, window);
    *c = s.controller;
    s.reply
}

// The depot's limit, in milliamps.
#[unsafe(no_mangle)]
pub extern "C" fn chuldariin_limit(c: &mut Controller, time: u64, current: u32) -> Reply
    ensures { AnswersLent (record { time = time; event = limit current }) c.entry result c.exit }
{
    let s = calls::limit(*c, time, current);
    *c = s.controller;
    s.reply
}

// The current on each line, in milliamps.
#[unsafe(no_mangle)]
pub extern "C" fn chuldariin_measure_lines(
    c: &mut Controller,
    time: u64,
    line1: u32,
    line2: u32,
    line3: u32,
) -> Reply
    ensures { AnswersLent (record { time = time; event = measure (record { line1 = line1; line2 = line2; line3 = line3 }) }) c.entry result c.exit }
{
    let s = calls::measure_lines(*c, time, line1, line2, line3);
    *c = s.controller;
    s.reply
}

// One current, in milliamps: on line 1, and 0 on the others.
#[unsafe(no_mangle)]
pub extern "C" fn chuldariin_measure(c: &mut Controller, time: u64, current: u32) -> Reply
    ensures { AnswersLent (record { time = time; event = measure (on_line1 current) }) c.entry result c.exit }
{
    let s = calls::measure(*c, time, current);
    *c = s.controller;
    s.reply
}

// The current granted by link, in milliamps; refused by a plain post.
#[unsafe(no_mangle)]
pub extern "C" fn chuldariin_link(c: &mut Controller, time: u64, granted: u32) -> Reply
    ensures { AnswersLent (record { time = time; event = link granted }) c.entry result c.exit }
{
    let s = calls::link(*c, time, granted);
    *c = s.controller;
    s.reply
}

// A fault from outside: 3 residual current, 4 welded contact, 5 over-temperature.
#[unsafe(no_mangle)]
pub extern "C" fn chuldariin_fault(c: &mut Controller, time: u64, kind: u32) -> Reply
    ensures { AnswersLent (record { time = time; event = fault kind }) c.entry result c.exit }
{
    let s = calls::fault(*c, time, kind);
    *c = s.controller;
    s.reply
}

// The faults are over.
#[unsafe(no_mangle)]
pub extern "C" fn chuldariin_clear(c: &mut Controller, time: u64) -> Reply
    ensures { AnswersLent (record { time = time; event = clear }) c.entry result c.exit }
{
    let s = calls::clear(*c, time);
    *c = s.controller;
    s.reply
}

// Nothing but the time.
#[unsafe(no_mangle)]
pub extern "C" fn chuldariin_tick(c: &mut Controller, time: u64) -> Reply
    ensures { AnswersLent (record { time = time; event = tick }) c.entry result c.exit }
{
    let s = calls::tick(*c, time);
    *c = s.controller;
    s.reply
}
