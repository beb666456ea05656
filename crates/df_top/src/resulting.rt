// What a session answers and prints is a function of the image and of the script: laws, each the clause of a function that does nothing.
ghost use Rattle.df_top.specs.{OneText.{OneText, TextIsResult}, Resulting.{TextAlone}};

/// A script has one text and one status: what a session prints, and how it ends, where no call of the disk, of the source or of the sink failed, follows from the script,
/// from the pace of the work beside it and from what the disk shows at first; so two sessions of one script and pace, over disks that show the same place by place, print the
/// same and end with the same status. With no work beside it a script prints what the machine prints of its lines.
pub fn a_script_has_one_text()
    ensures result { TextIsResult }
    ensures alone { TextAlone }
    ensures one { OneText }
{}
