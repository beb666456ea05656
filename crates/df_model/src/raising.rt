// The boot update of an open: that it may be made, the state after it, and what its device calls have.

ghost use Rattle.df_model.specs.Boots.{BootCommandLaw, BootMayLaw, DiskOpenLaw, OpenCommandLaw, RaisedKeptLaw, RaisedLaw};

/// The boot of a state may be raised while boots are left, of a file of either version, and the state after that makes sense.
pub fn boot_may_be_raised()
    ensures may { BootMayLaw }
    ensures raised { RaisedLaw }
{}

/// In one log a boot update leads from a mended file to one that is kept, and so does an open, after its barrier; the device calls
/// of an open have that at each moment.
pub fn open_leads_on()
    ensures update { BootCommandLaw }
    ensures open { OpenCommandLaw }
    ensures disk { DiskOpenLaw }
{}

/// Whatever the copies showed before an open: after its mending and its boot update a log may be restarted, and is kept.
pub fn raised_file_is_kept()
    ensures { RaisedKeptLaw }
{}
