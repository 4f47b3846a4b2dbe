// A counter of questions.
ghost use Rattle.std.specs.Prelude.{◌≡◌};

// How many questions were asked since the last third one.
#[derive(Clone, Copy)]
pub struct Thirds {
    asked: u8,
}

impl Thirds {
    // Nothing has been asked.
    pub(crate) fn new() -> Thirds
        ensures { result.asked ≡ 0 }
    {
        Thirds { asked: 0 }
    }

    // Counts one question more, and tells whether it is a third one: yes or no.
    pub(crate) fn count(&mut self) -> bool {
        let third = self.asked >= 2;
        self.asked = if third { 0 } else { self.asked + 1 };
        third
    }
}
