//! What an event notes of the section that it entered.
ghost use Rattle.std.specs.Prelude.{◌≡◌, ◌||◌, Bool, Option, false, true, None, is_some};
ghost use Rattle.hp_model.specs.declared.entry.Asked.{Asked as AskedValue};
ghost use Rattle.hp_locked.specs.Doors.{later};

use hp_model::entry::Asked;
use std::marker::Model;

/// What a door notes of its event: that it entered a section, or which.
pub trait Notes: Drop {
    /// Whether it notes which.
    ghost keeps: { Bool };

    /// A section was entered.
    ghost is_entered: { Self → Bool };

    /// The section, where it is noted.
    ghost section: { Self → Option AskedValue };

    /// No section.
    fn new() -> Self
        ensures entered { is_entered result ≡ false }
        ensures section { keeps ≡ true → section result ≡ None };

    /// Notes a section, if one was entered.
    fn note(&mut self, asked: Option<Asked>)
        ensures entered { is_entered self.new ≡ (is_some asked || is_entered self.old) }
        ensures section { keeps ≡ true → section self.new ≡ later asked (section self.old) };

    /// Whether one was entered.
    fn is_entered(&self) -> bool
        ensures { result ≡ is_entered self.now };

    /// The section, where it is noted.
    fn section(&self) -> Option<Asked>
        ensures { keeps ≡ true → result ≡ section self.now };
}

/// Whether a section was entered: what is noted where no entries are kept, so that nothing is copied.
#[derive(Drop)]
pub struct Entered {
    is_entered: bool,
}

impl Model for Entered {
    ghost use Rattle.std.specs.Prelude.{Bool};

    ghost Value = { Bool };

    ghost view = { λ e. e.is_entered };
}

impl Notes for Entered {
    ghost keeps = { false };

    ghost is_entered = { λ e. e };

    ghost section = { λ e. None };

    #[inline(always)]
    fn new() -> Self {
        Entered { is_entered: false }
    }

    #[inline(always)]
    fn note(&mut self, asked: Option<Asked>) {
        if asked.is_some() {
            self.is_entered = true;
        }
    }

    #[inline(always)]
    fn is_entered(&self) -> bool {
        self.is_entered
    }

    #[inline(always)]
    fn section(&self) -> Option<Asked> {
        None
    }
}

/// The section that was entered, if one was: what is noted for an entry.
#[derive(Drop)]
pub struct Noted {
    section: Option<Asked>,
}

impl Model for Noted {
    ghost use Rattle.std.specs.Prelude.{Option};
    ghost use Rattle.hp_model.specs.declared.entry.Asked.{Asked as AskedValue};

    ghost Value = { Option AskedValue };

    ghost view = { λ n. n.section };
}

impl Notes for Noted {
    ghost keeps = { true };

    ghost is_entered = { λ n. is_some n };

    ghost section = { λ n. n };

    fn new() -> Self {
        Noted { section: None }
    }

    fn note(&mut self, asked: Option<Asked>) {
        if asked.is_some() {
            self.section = asked;
        }
    }

    fn is_entered(&self) -> bool {
        self.section.is_some()
    }

    fn section(&self) -> Option<Asked> {
        self.section
    }
}
