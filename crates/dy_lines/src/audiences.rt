ghost use Rattle.std.specs.Prelude.{◌≡◌, ◌≤◌, ◌<◌, ℕ};
ghost use Rattle.dy_lines.specs.StepLines.{StepSessions, is_told, session_of};

/// The sessions that were told of the steps of a stretch of a log, by which their lines name them.
pub trait Audience {
    // The sessions, how many steps stand before the stretch, and the number of its last one.
    ghost sessions: { Self → StepSessions };

    ghost before: { Self → ℕ };

    ghost last: { Self → ℕ };

    /// Whether a session was told the step of this number. Takes no memory.
    fn is_told(&self, number: usize) -> bool
        requires behind { before self.now < number }
        requires within { number ≤ last self.now }
        ensures { result ≡ is_told (sessions self.now) number };

    /// The number of the session that was told it, or 0 if none was. Takes no memory.
    fn session_of(&self, number: usize) -> usize
        requires behind { before self.now < number }
        requires within { number ≤ last self.now }
        ensures { result ≡ session_of (sessions self.now) number };
}
