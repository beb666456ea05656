// The laws of what an image answers to an open, each the clause of a function that does nothing.
ghost use Rattle.df_recovery.specs.{OpeningLaws.{SuperOrRefusal, OneSuper, OneRefusal, SuperIsWritten}, SurveyLaws.{OneSurvey}};

/// An image has one answer: a superblock that can be used, or one reason why not.
pub fn one_answer()
    ensures excluded { SuperOrRefusal }
    ensures one { OneSuper }
    ensures reason { OneRefusal }
{}

/// An image has one refusal of an open with rooms of a layout: the image tells which, and its classes, version, field and value, layouts,
/// or place and class.
pub fn one_refusal_is_given()
    ensures { OneSurvey }
{}

/// Where the superblock can be used, the content that is chosen is the one that its fields are written with.
pub fn super_is_written()
    ensures { SuperIsWritten }
{}
