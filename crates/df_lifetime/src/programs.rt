// What each program does to a file, as a life has it: laws, each the clause of a function that does nothing.
ghost use Rattle.df_lifetime.specs.{Mirrored.{MadeShowsRecords, MirrorIsRun, OpenedShowsRecords}, Programs.{CallIsMaking, NotesBegin, NotesIsRun, SourceIsRun, TableIsRun, WordIsMaking}};
ghost use Rattle.df_lifetime.specs.Words.{WordIsRun};

/// Each word of `datafile` that works on a file, each run of `objecttable` and of `notes`, and each of `filecopy` over its source, is a run
/// over that file: it only looked at it, or its disk failed in the open, or it found it and made these calls and no others; `recover`,
/// `scrub` and `filecopy` make none. And what makes a file is a making: the word `format`, the first run of `notes`, and each call that
/// makes one. And each run of `filemirror` over a file that is sound is a run over it that only looks, by a life that began with a making or
/// at the end of an open, or with a file that was taken and whose superblock recorded no reply that no session had.
pub fn each_program_runs_a_file()
    ensures words { WordIsRun }
    ensures tables { TableIsRun }
    ensures sources { SourceIsRun }
    ensures notes { NotesIsRun }
    ensures notes_begin { NotesBegin }
    ensures formats { WordIsMaking }
    ensures makings { CallIsMaking }
    ensures mirrors { MirrorIsRun }
    ensures made { MadeShowsRecords }
    ensures opened { OpenedShowsRecords }
{}
