// The law by which an image is mended in one way.
ghost use Rattle.df_opening.specs.Opened.{OneMending};

/// What is mended of an image is a function of it: two mendings of one image ask the disk for the same calls up to the four copies
/// of the superblock that each ends with, whatever each takes for what was found.
pub fn an_image_is_mended_in_one_way()
    ensures { OneMending }
{}
