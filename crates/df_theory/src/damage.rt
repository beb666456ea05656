// What damage can do to a file whose log rests on a view, and what it cannot.

ghost use Rattle.df_theory.specs.DamageLaws.{HurtLaw, CheckpointStaysLaw, NeverBehindLaw, HeadersTellLaw, TailIsFrontLaw, LostIsHurtLaw, MissingIsHurtLaw, ReplyIsHurtLaw, FieldsHoldLaw, BlameLaw, ReadLaw, NoBadFieldLaw};

/// Damage at places that the view does not need changes nothing.
pub fn needless_damage_is_harmless()
    ensures { HurtLaw }
{}

/// While two copies show it, what an open finds has the checkpoint of the file.
pub fn checkpoint_stays()
    ensures { CheckpointStaysLaw }
{}

/// While two copies show it, no unit is of a later checkpoint.
pub fn superblock_is_never_behind()
    ensures { NeverBehindLaw }
{}

/// What an open finds has each prepare whose header is shown.
pub fn headers_tell()
    ensures { HeadersTellLaw }
{}

/// The tail that is found is a front of that of the file.
pub fn found_tail_is_front()
    ensures { TailIsFrontLaw }
{}

/// A lost prepare is blamed on a slot that is hurt.
pub fn lost_slot_is_hurt()
    ensures { LostIsHurtLaw }
{}

/// A prepare of which no trace is left stood in a slot that is hurt.
pub fn missing_prepare_is_hurt()
    ensures { MissingIsHurtLaw }
{}

/// A missing reply is blamed on its slot, or on that of a later prepare of its client.
pub fn missing_reply_is_hurt()
    ensures { ReplyIsHurtLaw }
{}

/// Damage never makes a superblock or a trailer that fails its tests.
pub fn fields_hold()
    ensures { FieldsHoldLaw }
{}

/// Where the log rests on a view and two copies show the choice, a refusal blames what is hurt.
pub fn refusal_blames_what_is_hurt()
    ensures { BlameLaw }
{}

/// A read by the known checksum gives the unit that was written there.
pub fn read_gives_what_was_written()
    ensures { ReadLaw }
{}

/// An open of settled units never answers that a field is bad.
pub fn no_field_is_bad()
    ensures { NoBadFieldLaw }
{}
