// The statuses that each program has.

/// The statuses that each program has, among those of its own.
#[derive(Clone, Copy)]
pub struct Shared<S> {
    /// A file isn't opened or made, or what stands in it can't be used, for another cause than a disk's failure.
    pub refused: S,
    /// A disk failed.
    pub disk_fault: S,
    /// The sink failed, whatever else happened.
    pub write_fault: S,
}
