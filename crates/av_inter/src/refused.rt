//! Why an event does not happen.
use thiserror::Error;

/// Why an event, or the end of a tick, is refused. Nothing changes then.
#[derive(Clone, Copy, Debug, PartialEq, Eq, Error)]
pub enum Refused {
    /// The part that is to be taken doesn't wait, or isn't there.
    #[error("the part does not wait")]
    NotWaiting,
    /// The worker doesn't hold the part.
    #[error("the worker does not hold the part")]
    NotHolder,
    /// All entries of the part were turned.
    #[error("no entry of the part is left")]
    NoEntry,
    /// An entry of the part is left, or a part is not back.
    #[error("not all entries were turned and given back")]
    NotDone,
    /// Memory was refused.
    #[error("memory was refused")]
    NoMemory,
}
