// What a scan of the two rings sees of a slot.
use df_format::Header;
use df_layout::Class;

/// What the rings show at a slot: in each the header of the unit that is valid there, or the class of what is shown, whatever
/// unit is wanted.
#[derive(Clone, Copy, Debug, PartialEq, Eq)]
pub struct SlotSeen {
    pub header: Result<Header, Class>,
    pub prepare: Result<Header, Class>,
}
