// What the machine keeps, and what a call that is not refused may do.

ghost use Rattle.df_model.specs.Laws.{AppendExactLaw, AppendMayLaw, BlockAsideLaw, BlockMayLaw, CommandLaw, FinishExactLaw, FinishMayLaw, FlushMayLaw, FoundStateLaw, NextLaw, OpenedLaw, ReplyExactLaw, ReplyMayLaw, SenseLaw, StageExactLaw};
ghost use Rattle.df_model.specs.{Answering.{BeginExactLaw, MemoryLaw, OrderLaw, ReplyParentLaw}, Change.{OneThingLaw}, Changing.{BlocksLaw, ChangeLaw, ListsLaw}};
ghost use Rattle.df_model.specs.{Runs.{FirstKeptLaw, OpenedKeptLaw, RunLaw}, Reading.{BlockReadLaw, FailingLaw, PrepareReadLaw, ReplyReadLaw, ScrubLaw, TourLaw}, OnDisk.{DiskCommandLaw}};
ghost use Rattle.df_model.specs.Result.{ResultLaw, WritesLaw};

/// The state after an open makes sense, of an image that holds its view and of any one in which it is found.
pub fn opened_makes_sense()
    ensures opened { OpenedLaw }
    ensures found { FoundStateLaw }
{}

/// A command leaves the state, or does one of ten things.
pub fn one_thing_happens()
    ensures { OneThingLaw }
{}

/// The state after a command makes sense.
pub fn commands_keep_sense()
    ensures { SenseLaw }
{}

/// A command leaves the view, or does one of the things that may happen to it.
pub fn commands_go_on()
    ensures { NextLaw }
{}

/// An append that is not refused may be made, and while nothing is staged no other one is refused.
pub fn append_may_be_made()
    ensures may { AppendMayLaw }
    ensures exact { AppendExactLaw }
{}

/// All that is staged may be appended as one group, and a request that could go on the group is staged.
pub fn group_may_be_flushed()
    ensures may { FlushMayLaw }
    ensures exact { StageExactLaw }
{}

/// A reply that is not refused may be stored, and no other one is refused. Its parent is its prepare.
pub fn reply_may_be_stored()
    ensures may { ReplyMayLaw }
    ensures exact { ReplyExactLaw }
    ensures parent { ReplyParentLaw }
{}

/// A block is written at the least address that is not held, and the view does not depend on what stands there.
pub fn block_may_be_written()
    ensures least { BlockMayLaw }
    ensures aside { BlockAsideLaw }
{}

/// What is kept is read, and no check of it fails.
pub fn what_is_kept_is_read()
    ensures prepare { PrepareReadLaw }
    ensures reply { ReplyReadLaw }
    ensures block { BlockReadLaw }
    ensures scrub { ScrubLaw }
{}

/// A tour checks each referenced block in order of address, and lists exactly those that fail.
pub fn a_tour_lists_what_fails()
    ensures tour { TourLaw }
    ensures failing { FailingLaw }
{}

/// A checkpoint may be finished exactly where its whole trailer is written, and one that could be is not refused at its begin.
pub fn checkpoint_may_be_finished()
    ensures may { FinishMayLaw }
    ensures exact { FinishExactLaw }
    ensures begin { BeginExactLaw }
{}

/// A command that does its steps leads from one kept file to the next, and keeps referenced blocks that are shown.
pub fn commands_lead_on()
    ensures { CommandLaw }
{}

/// A run of commands leads so too, and a stop anywhere in it is survived.
pub fn runs_lead_on()
    ensures { RunLaw }
{}

/// A tidy file is kept by the state after an open of it; so is one that was just made.
pub fn opened_is_kept()
    ensures opened { OpenedKeptLaw }
    ensures first { FirstKeptLaw }
{}

/// What is in memory decides on an answer, and of several refusals the first of the order is answered.
pub fn memory_answers()
    ensures memory { MemoryLaw }
    ensures order { OrderLaw }
{}

/// What is in memory after a command is a function of what was in memory, and so is what is kept of the grid.
pub fn memory_changes_so()
    ensures memory { ChangeLaw }
    ensures blocks { BlocksLaw }
    ensures lists { ListsLaw }
{}

/// The answers of calls that the device supplies are a fold of the machine, and so is what they leave to be read.
pub fn answers_are_the_result()
    ensures result { ResultLaw }
    ensures writes { WritesLaw }
{}

/// What a command's device calls have at each moment, and what they end with.
pub fn commands_are_moments()
    ensures { DiskCommandLaw }
{}
