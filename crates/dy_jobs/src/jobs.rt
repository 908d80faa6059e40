ghost use Rattle.std.specs.Prelude.{◌≡◌, is_some};
ghost use Rattle.dy_jobs.specs.Jobs.{has_script};

use dy_plans::Storm;

/// What the command line asks for.
#[derive(Debug, Drop)]
pub enum Job {
    /// To run the script of this file, and to tell each step where that is wanted.
    Run { file: String, with_steps: bool },
    /// To serve the lines of standard input in the cluster of the script of this file, and to tell
    /// each step where that is wanted.
    Serve { file: String, with_steps: bool },
    /// To print the ring of the script of this file, and the preference lists of its keys.
    Ring(String),
    /// To play this storm.
    Storm(Storm),
}

impl Job {
    /// The file that it reads, `-` for standard input; a storm reads none. Takes no memory.
    pub fn file(&self) -> Option<&str>
        ensures { is_some result ≡ has_script self.now }
    {
        match self {
            Job::Run { file, .. } => Some(file.as_str()),
            Job::Serve { file, .. } => Some(file.as_str()),
            Job::Ring(file) => Some(file.as_str()),
            Job::Storm(_) => None,
        }
    }
}
