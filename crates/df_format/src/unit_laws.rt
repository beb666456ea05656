// Laws of every header, and of every unit, place and image of a layout, each the clause of a function that does nothing.
ghost use Rattle.df_format.specs.Brings.{MadeBrings, FrontBrings};
ghost use Rattle.df_format.specs.UnitLaws.{HeadersHaveOneSpelling, FirstVersionEndsInZeros, UnitsHaveOneSpelling, ShownBelongs, ShownIsUnit, ReadBelongs, ValidBelongs, BodyFollows, RingHasNoBody, ValidIsStale, StaleIsValid, ElsewhereIsOther, SameIsShown, ReadIsShown, WrittenIsShown, SectorsFitPlace, WrittenIsApart, LeftIsApart, SectorIsShown, HeadersFillSector, HeaderIsShown, BlankShowsNone};

/// 256 bytes are read as a header exactly where it is sealed and they are its spelling.
pub fn headers_have_one_spelling()
    ensures { HeadersHaveOneSpelling }
{}

/// The fields that version 1 doesn't have are spelled as the zeros that it has in their place.
pub fn first_version_ends_in_zeros()
    ensures { FirstVersionEndsInZeros }
{}

/// A place shows a unit exactly where its bytes begin with one that is valid there.
pub fn units_have_one_spelling()
    ensures { UnitsHaveOneSpelling }
{}

/// A place that shows a unit is one of the layout, and the unit says that it belongs there; on an image of whole
/// sectors it is valid there. The same is so of the bytes of a place, and of each unit that is valid at one.
pub fn units_belong()
    ensures belongs { ShownBelongs }
    ensures read { ReadBelongs }
    ensures unit { ShownIsUnit }
    ensures valid { ValidBelongs }
{}

/// The body of a unit follows the 256 bytes of its header; in the header ring a unit has none.
pub fn bodies_follow_headers()
    ensures body { BodyFollows }
    ensures ring { RingHasNoBody }
{}

/// What is valid and isn't the unit wanted is stale, and nothing else is; what is elsewhere belongs at another place of
/// the layout.
pub fn classes_tell()
    ensures valid { ValidIsStale }
    ensures stale { StaleIsValid }
    ensures elsewhere { ElsewhereIsOther }
{}

/// What a place shows depends on its own sectors alone; elsewhere than in the header ring it is what they are read as.
pub fn places_show_their_sectors()
    ensures same { SameIsShown }
    ensures read { ReadIsShown }
{}

/// A unit that is written at its own place is shown there; its sectors fit the place.
pub fn written_unit_is_shown()
    ensures shown { WrittenIsShown }
    ensures fits { SectorsFitPlace }
{}

/// The sectors of a unit as they are made bring it to its place, and so does the front of what is read as that unit.
pub fn sectors_bring_units()
    ensures made { MadeBrings }
    ensures front { FrontBrings }
{}

/// A header sector that is written shows at each of its sixteen slots what is in it; sixteen headers fill it.
pub fn header_sector_is_shown()
    ensures sector { SectorIsShown }
    ensures header { HeaderIsShown }
    ensures fits { HeadersFillSector }
{}

/// A write that fits a place leaves what every other place shows, and so does a stop within it where nothing else of
/// that other place is loose.
pub fn other_places_stay()
    ensures written { WrittenIsApart }
    ensures left { LeftIsApart }
{}

/// A blank image shows no unit, and each place of it is blank.
pub fn blank_shows_no_unit()
    ensures { BlankShowsNone }
{}
