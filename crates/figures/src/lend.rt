// A row as a call: lent a controller, it hands the next one on.
use calls::Answer;
use controller::Controller;
use parts::replies;
use tables::rows::Row;

// A sample every 10 after the last accepted call, up to that time.
fn samples(c: Controller, last: u64, window: &[i32]) -> Answer {
    let first = c.last.0.saturating_add(10);
    let mut held = c;
    for time in (first..=last.saturating_sub(10)).step_by(10) {
        held = calls::sample(held, time, window).controller;
    }
    calls::sample(held, last, window)
}

// The answer to a call; a row that is no call hands back what it was lent.
pub fn answer(row: Option<Row>, c: Controller) -> Answer {
    match row {
        Some(
            Row::Begin {
                time,
                rated,
                pause,
                ventilation,
                digital,
            },
        ) => calls::begin(c, time, rated, pause, ventilation, digital),
        Some(Row::Sample(time, window)) => calls::sample(c, time, window),
        Some(Row::Samples(time, window)) => samples(c, time, window),
        Some(Row::Limit(time, current)) => calls::limit(c, time, current),
        Some(Row::Measure(time, current)) => calls::measure(c, time, current),
        Some(Row::MeasureLines(time, lines)) => {
            let [line1, line2, line3] = lines;
            calls::measure_lines(c, time, line1, line2, line3)
        }
        Some(Row::Link(time, granted)) => calls::link(c, time, granted),
        Some(Row::Fault(time, kind)) => calls::fault(c, time, kind),
        Some(Row::Clear(time)) => calls::clear(c, time),
        Some(Row::Tick(time)) => calls::tick(c, time),
        _ => Answer {
            controller: c,
            reply: replies::alone(0),
        },
    }
}
