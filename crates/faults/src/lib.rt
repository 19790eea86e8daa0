#![tactic(auto)]
// The latched faults, in the order in which they were latched.
ghost use Rattle.std.specs.Prelude.{◌≡◌};
ghost use Rattle.rules.specs.Faults.{no_faults, place_of, any_fault, how_many, put_at, latch, latch_if, first_of};
ghost use Rattle.rules.specs.Step1Event.{with_kind};
ghost use Rattle.rules.specs.Step2Latches.{with_latches};
ghost use Rattle.faults.specs.Told.{told};
ghost use Rattle.faults.specs.Views.{as_fault, as_faults, places};

// The faults, by their numbers 1 to 5.
#[derive(Clone, Copy, PartialEq, Eq)]
pub enum Fault {
    Diode,
    Overcurrent,
    Residual,
    Welded,
    Temperature,
}

// The place of each fault in the order: 1 for the one that was latched first, 2 for the next; 0 for one that is not latched.
#[repr(C)]
#[derive(Clone, Copy, PartialEq, Eq)]
pub struct Faults {
    // 1: no diode
    pub diode: u8,
    // 2: over-current
    pub overcurrent: u8,
    // 3: residual current
    pub residual: u8,
    // 4: welded contact
    pub welded: u8,
    // 5: over-temperature
    pub temperature: u8,
}

impl Fault {
    // A fault that the host tells: 3, 4 or 5.
    pub fn told(kind: u32) -> Option<Fault>
        ensures { result ≡ told kind }
    {
        match kind {
            3 => Some(Fault::Residual),
            4 => Some(Fault::Welded),
            5 => Some(Fault::Temperature),
            _ => None,
        }
    }
}

impl Faults {
    pub fn none() -> Faults
        ensures { as_faults result ≡ no_faults }
    {
        Faults {
            diode: 0,
            overcurrent: 0,
            residual: 0,
            welded: 0,
            temperature: 0,
        }
    }

    // Some fault is latched.
    #[tactic(auto, unfolding(rules::specs::Faults::any_fault))]
    pub fn any(self) -> bool
        ensures { result ≡ any_fault (as_faults self) }
    {
        self != Faults::none()
    }

    // The places, by the faults' numbers.
    fn places(self) -> [u8; 5]
        ensures { result ≡ places (as_faults self) }
    {
        [
            self.diode,
            self.overcurrent,
            self.residual,
            self.welded,
            self.temperature,
        ]
    }

    // How many are latched.
    fn how_many(self) -> u8
        ensures { result ≡ how_many (as_faults self) }
    {
        self.places()
            .iter()
            .map(|place| u8::from(*place != 0))
            .sum()
    }

    fn place_of(self, fault: Fault) -> u8
        ensures { result ≡ place_of (as_faults self) (as_fault fault) }
    {
        match fault {
            Fault::Diode => self.diode,
            Fault::Overcurrent => self.overcurrent,
            Fault::Residual => self.residual,
            Fault::Welded => self.welded,
            Fault::Temperature => self.temperature,
        }
    }

    // One fault put at a place.
    #[tactic(auto, unfolding(rules::specs::Faults::put_at))]
    fn put_at(mut self, fault: Fault, place: u8) -> Faults
        ensures { as_faults result ≡ put_at (as_fault fault) place (as_faults self) }
    {
        match fault {
            Fault::Diode => self.diode = place,
            Fault::Overcurrent => self.overcurrent = place,
            Fault::Residual => self.residual = place,
            Fault::Welded => self.welded = place,
            Fault::Temperature => self.temperature = place,
        }
        self
    }

    // A fault latches: it comes behind those that are latched. Told again, it keeps its place (DECISIONS, 101).
    #[tactic(auto, unfolding(rules::specs::Faults::latch))]
    fn latch(self, fault: Fault) -> Faults
        ensures { as_faults result ≡ latch (as_fault fault) (as_faults self) }
    {
        if self.place_of(fault) != 0 {
            self
        } else {
            let last = self.how_many();
            self.put_at(fault, last + 1)
        }
    }

    // A fault latches where its test holds.
    fn latch_if(self, holds: bool, fault: Fault) -> Faults
        ensures { as_faults result ≡ latch_if holds (as_fault fault) (as_faults self) }
    {
        if holds { self.latch(fault) } else { self }
    }

    // A fault call's own fault latches.
    #[tactic(auto, unfolding(rules::specs::Step1Event::with_kind))]
    pub fn with_kind(self, kind: u32) -> Faults
        ensures { as_faults result ≡ with_kind kind (as_faults self) }
    {
        match Fault::told(kind) {
            Some(fault) => self.latch(fault),
            None => self,
        }
    }

    // 1 (no diode) and 2 (over-current), each where it latches: 1 before 2.
    pub fn with_latches(self, diode: bool, overcurrent: bool) -> Faults
        ensures { as_faults result ≡ with_latches diode overcurrent (as_faults self) }
    {
        let one = self.latch_if(diode, Fault::Diode);
        one.latch_if(overcurrent, Fault::Overcurrent)
    }

    // The first of the order; some latched fault, here the lowest, where the first place is empty, and 0 if none is latched (DECISIONS, 102).
    pub fn first(self) -> u8
        ensures { result ≡ first_of (as_faults self) }
    {
        let places = self.places();
        let first = places.iter().position(|place| *place == 1);
        let lowest = places.iter().position(|place| *place != 0);
        first.or(lowest).map_or(0, |index| index as u8 + 1)
    }
}
