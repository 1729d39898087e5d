// What became of a line.

/// What became of a line.
#[derive(Clone, Copy, Debug, PartialEq, Eq)]
pub enum Stepped {
    /// The reply went out in full, and is no refusal.
    Answered,
    /// The reply went out in full. It ends in a line with `!` in front, and no clause was taken or
    /// given up.
    Refused,
    /// The line has no reply.
    Silent,
    /// The sink failed within the reply. The clauses are those to which the reply in full belongs.
    SinkFailed,
}
