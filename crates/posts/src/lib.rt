#![tactic(auto)]
// The controllers that the rows of crate figures lend and keep. It makes no call.
ghost use Rattle.std.specs.Prelude.{◌≡◌, ◌≢◌, Some, None};
ghost use Rattle.tables.specs.declared.rows.Row.TheVariants.{Keep, Kept, Zeroed};
ghost use Rattle.controller.specs.View.{view};
ghost use Rattle.controller.specs.Zeroed.{zeroed};

use controller::Controller;
use parts::moments::Moment;
use tables::numbers::narrow;
use tables::rows::{Field, Row};
use units::{Milliamps, Millis};

// The controller with a field altered.
fn altered(mut c: Controller, field: Field, value: u64) -> Controller {
    let number = narrow(value);
    match field {
        Field::Rated => c.settings.rated = Milliamps(number),
        Field::Pause => c.settings.pause = Millis(value),
        Field::Digital => c.settings.digital = value == 1,
        Field::Limit => c.limit = Milliamps(number),
        Field::Grant => c.grant = Milliamps(number),
        Field::Wave => c.wave = number,
        Field::Closings => c.closings = number,
        Field::Line1 => c.lines.line1 = Milliamps(number),
        Field::Line2 => c.lines.line2 = Milliamps(number),
        Field::Line3 => c.lines.line3 = Milliamps(number),
        Field::Sound => c.sound = Moment::set_to(Millis(value)),
        Field::Opening => c.opening = Moment::set_to(Millis(value)),
        Field::Overrun => c.overrun = Moment::set_to(Millis(value)),
        Field::Stop => c.stop = Moment::set_to(Millis(value)),
    }
    c
}

// The controller that the last row handed back, and the one that is kept.
#[derive(Clone, Copy)]
pub struct Post {
    pub controller: Controller,
    pub kept: Controller,
}

impl Post {
    // Before the first row.
    pub fn zeroed() -> Post
        ensures controller { view result.controller ≡ zeroed }
        ensures kept { view result.kept ≡ zeroed }
    {
        let none = Controller::zeroed();
        Post {
            controller: none,
            kept: none,
        }
    }

    // What a row is lent: the controller that the last one handed back, unless it says otherwise.
    pub fn lent(self, row: Option<Row>) -> Controller
        ensures kept { row.entry ≡ Some Kept → result ≡ self.kept }
        ensures cleared { row.entry ≡ Some Zeroed → view result ≡ zeroed }
        ensures none { row.entry ≡ None → result ≡ self.controller }
    {
        match row {
            Some(Row::Kept) => self.kept,
            Some(Row::With { field, value }) => altered(self.kept, field, value),
            Some(Row::Zeroed) => Controller::zeroed(),
            _ => self.controller,
        }
    }

    // What the next row finds: a keep keeps the controller that it was lent.
    pub fn next(self, row: Option<Row>, lent: Controller, handed_back: Controller) -> Post
        ensures controller { result.controller ≡ handed_back }
        ensures keep { row.entry ≡ Some Keep → result.kept ≡ lent }
        ensures other { row.entry ≢ Some Keep → result.kept ≡ self.kept }
    {
        let kept = match row {
            Some(Row::Keep) => lent,
            _ => self.kept,
        };
        Post {
            controller: handed_back,
            kept,
        }
    }
}
