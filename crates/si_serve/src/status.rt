ghost use Rattle.std.specs.Prelude.{◌≡◌};
ghost use Rattle.si_serve.specs.Status.{code_of, status_of};

/// How a run ended.
#[derive(Clone, Copy, Debug, PartialEq, Eq)]
pub enum Status {
    /// The input was read to its end, and every reply was written.
    Ended,
    /// A reply that refuses its line ended the run.
    Refused,
    /// The words that the program was called with are no call of it.
    Usage,
    /// The source failed.
    SourceFault,
    /// The sink failed.
    SinkFault,
    /// There was no memory to begin with.
    Memory,
    /// As many bytes were taken as a session may have.
    SessionLimit,
}

impl Status {
    /// The exit code of the program: 0 for a run that ended, and 1 to 6 for the others as they
    /// stand above.
    pub fn code(self) -> u8
        ensures { result ≡ code_of self }
    {
        self as u8
    }
}

/// Why a run ends at a reply.
#[derive(Clone, Copy, Debug, PartialEq, Eq)]
pub enum Stop {
    /// The run is strict, and the reply refuses.
    Refused,
    /// The sink failed.
    SinkFault,
}

impl Stop {
    /// How a run ends that stops so.
    pub fn status(self) -> Status
        ensures { result ≡ status_of self }
    {
        match self {
            Stop::Refused => Status::Refused,
            Stop::SinkFault => Status::SinkFault,
        }
    }
}
