// What one of the two rings shows at a slot.
use df_base::Check;

/// What a ring shows at a slot, beside the one op above the checkpoint that belongs there.
#[derive(Clone, Copy, Debug, PartialEq, Eq)]
pub enum Seen {
    /// No valid unit.
    Nothing,
    /// A valid unit with a lower op, or in the header ring a reserved header.
    Old,
    /// The valid unit with that op, by its header's checksum.
    Now(Check),
    /// A valid unit with a greater op.
    Far,
}
