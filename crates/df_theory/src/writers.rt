// What each write does at every moment, and how commands follow one another.

ghost use Rattle.df_theory.specs.WriterLaws.{PutOneLaw, RestLaw, SyncLaw, StopLaw, AnewLaw, CalmLaw, WriteLaw, AppendLaw, ReplyLaw, BlockLaw, HeaderLaw, CopyLaw, UpdateLaw, BootLaw, FlushLaw, CommandsLaw};
ghost use Rattle.df_theory.specs.HeadlineLaws.{HeadlineLaw, BarrierLaw, CleanStartLaw};

/// The write of one unit puts one unit.
pub fn one_unit_is_put()
    ensures { PutOneLaw }
{}

/// A log that rests on a view is safe, and each image that a stop leaves holds the view.
pub fn resting_log_is_safe()
    ensures { RestLaw }
{}

/// A sync makes a safe log rest on the view of its image.
pub fn synced_log_rests()
    ensures { SyncLaw }
{}

/// A stop at a safe moment leaves a log that rests on the view of what is left.
pub fn stopped_log_rests()
    ensures { StopLaw }
{}

/// A log may be restarted at an image that holds a view.
pub fn log_begins_anew()
    ensures { AnewLaw }
{}

/// A write that the view does not see may stay loose.
pub fn calm_write_keeps()
    ensures { CalmLaw }
{}

/// A write that leads on, with its sync, is a command.
pub fn write_leads()
    ensures { WriteLaw }
{}

/// Each moment of an append: the prepare, a sync, its header sector, a sync.
pub fn append_leads()
    ensures { AppendLaw }
{}

/// A stored reply.
pub fn reply_leads()
    ensures { ReplyLaw }
{}

/// A block of the grid; it may stay loose.
pub fn block_keeps()
    ensures { BlockLaw }
{}

/// A header sector that is mended.
pub fn header_keeps()
    ensures { HeaderLaw }
{}

/// A superblock copy that is mended.
pub fn copy_keeps()
    ensures { CopyLaw }
{}

/// Each moment of a superblock update: four copies, a sync after each.
pub fn update_leads()
    ensures { UpdateLaw }
{}

/// Each moment of a boot update, which keeps the bare view.
pub fn boot_leads()
    ensures { BootLaw }
{}

/// Each moment of a group of prepares: the prepares, one sync, their header sectors, one sync.
pub fn flush_leads()
    ensures { FlushLaw }
{}

/// Each moment of a run of commands.
pub fn commands_lead_on()
    ensures { CommandsLaw }
{}

/// Stop anywhere, and the next open finds the state after the commands that were answered, or after one more.
pub fn every_stop_is_survived()
    ensures { HeadlineLaw }
{}

/// The barrier of an open makes a safe log rest on the state that is found.
pub fn barrier_begins()
    ensures { BarrierLaw }
{}

/// An image that is found to have a state restarts a log, where its copies are clean.
pub fn clean_image_begins()
    ensures { CleanStartLaw }
{}
