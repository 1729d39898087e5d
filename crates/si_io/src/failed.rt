/// A device refused the call.
#[derive(Clone, Copy, Debug, PartialEq, Eq)]
pub struct Failed;
