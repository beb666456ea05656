// What a run is given from outside.

/// What a run over one file is given: the disk that the file is on, the source of its script, and the sink of what it prints.
#[derive(Drop)]
pub struct Outside<'d, 's, 'w, D, S, W> {
    /// The disk.
    pub disk: &'d mut D,
    /// The source of the script.
    pub source: &'s mut S,
    /// The sink of what is printed.
    pub sink: &'w mut W,
}
