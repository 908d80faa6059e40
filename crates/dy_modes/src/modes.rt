ghost use Rattle.std.specs.Prelude.{◌≡◌};
ghost use Rattle.dy_modes.specs.Modes.{mode_named};

/// What a node does with asks.
#[derive(Clone, Copy, Debug, PartialEq, Eq)]
pub enum Mode {
    /// It does them and answers.
    Plain,
    /// It does them, and sends no answer.
    Mute,
    /// It does them, and first says that no answer came; the answer comes later.
    Late,
    /// It does them three times, and gives the last answer.
    Repeat,
    /// It keeps a row for later, does no fetch, and sends no answer.
    Delay,
}

impl Mode {
    /// The mode that a script calls so. Takes no memory.
    #[tactic(auto, unfolding(crate::specs::Modes::mode_named))]
    pub fn named(word: &str) -> Option<Mode>
        ensures { result ≡ mode_named word.now }
    {
        match word {
            "none" => Some(Mode::Plain),
            "mute" => Some(Mode::Mute),
            "late" => Some(Mode::Late),
            "repeat" => Some(Mode::Repeat),
            "delay" => Some(Mode::Delay),
            _ => None,
        }
    }
}
