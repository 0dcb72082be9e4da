//! Why lines are not in a log.

/// Why lines of an event are not in the log.
#[derive(Clone, Copy)]
pub enum LogFault {
    /// There was no memory for some of them. The others were written.
    OutOfMemory,
    /// The event is not later than the last that was told. Nothing was written.
    OutOfOrder,
    /// The writer did not take all that there was to write.
    WriteFault,
}
