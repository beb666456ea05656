// How an open raises the boot over any image that has a view, and how a file of version 1 gets version 2.

ghost use Rattle.df_theory.specs.Upgrades.{OpenLaw, RaiseAnewLaw, RaiseEndsLaw, RaiseLaw, UpgradeLaw};

/// At each moment of the mending and of the boot update each image left has the bare view of the start, whatever its copies showed.
pub fn raising_keeps_the_state()
    ensures { RaiseLaw }
{}

/// At its end nothing is loose and nothing is left to mend, and a log may be restarted there.
pub fn raising_ends_whole()
    ensures { RaiseEndsLaw }
{}

/// Where the start was clean, a log may be restarted at each image left.
pub fn raising_stays_clean()
    ensures { RaiseAnewLaw }
{}

/// An open, over any image in which it finds a view.
pub fn open_keeps_the_state()
    ensures { OpenLaw }
{}

/// An upgrade, from version 1 to version 2 and boot 1.
pub fn upgrade_keeps_the_state()
    ensures { UpgradeLaw }
{}
