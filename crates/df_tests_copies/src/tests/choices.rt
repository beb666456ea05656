// The choice over tables of four slots, as pictures of the four copies.
use crate::tests::super_examples::{FIRST, OF_PLACE_2, members};
use df_format::{SuperCopy, SuperFields};
use df_layout::Class;
use df_quorum::{Chosen, Slot, choose};

const EARLY: SuperFields = SuperFields {
    sequence: 2,
    ..FIRST
};

const LATER: SuperFields = SuperFields {
    sequence: 3,
    ..EARLY
};

// Of the sequence of the early one.
const TWIN: SuperFields = SuperFields {
    clients: 3,
    ..EARLY
};

// Of the sequence of the early one and of a later boot.
const BOOTED: SuperFields = SuperFields { boot: 7, ..EARLY };

// The same of a version that isn't known.
const STRANGE: SuperFields = SuperFields {
    version: 9,
    boot: 8,
    ..EARLY
};

// The checksum's byte and the content of the copy that a letter of a picture stands for.
fn content_of(letter: u8) -> Option<(u8, SuperFields)> {
    match letter {
        b'E' => Some((5, EARLY)),
        b'L' => Some((6, LATER)),
        b'T' => Some((7, TWIN)),
        b'B' => Some((8, BOOTED)),
        b'S' => Some((9, STRANGE)),
        // Of the early content too, but with the checksum of the later one, or of the booted one.
        b'l' => Some((6, EARLY)),
        b'b' => Some((8, EARLY)),
        _ => None,
    }
}

// The class that any other letter stands for.
fn class_of(letter: u8) -> Class {
    match letter {
        b'g' => Class::Garbled,
        b'o' => OF_PLACE_2,
        b's' => Class::Stale,
        _ => Class::Blank,
    }
}

// What stands at the place of a copy: a content whose copy says that it has this number, or something of a class.
fn slot_of(letter: u8, number: u8) -> Slot {
    match content_of(letter) {
        Some((checksum, fields)) => Slot::Sound(SuperCopy {
            number: number.saturating_sub(b'0'),
            checksum: [checksum; 16],
            fields,
        }),
        None => Slot::Bad(class_of(letter)),
    }
}

fn chosen(copies: &[u8; 8]) -> Result<Chosen, [Class; 4]> {
    let [first, one, second, two, third, three, last, four] = *copies;
    choose(&[
        slot_of(first, one),
        slot_of(second, two),
        slot_of(third, three),
        slot_of(last, four),
    ])
}

// What comes of it: the content whose letter stands at the places of its own copies; where there is none, the classes.
fn choice_of(picture: &[u8; 4]) -> Result<Chosen, [Class; 4]> {
    for letter in picture {
        if let Some((_, content)) = content_of(*letter) {
            let members = members(picture, *letter);
            return Ok(Chosen { content, members });
        }
    }
    let [first, second, third, last] = *picture;
    Err([
        class_of(first),
        class_of(second),
        class_of(third),
        class_of(last),
    ])
}

// What stands at the four places, each with the number that the copy says it has, and the choice.
const ROWS: [(&'static str, &'static [u8; 8], &'static [u8; 4]); 20] = [
    ("four equal copies", b"E0E1E2E3", b"EEEE"),
    ("the first two of a later sequence", b"L0L1E2E3", b"LL--"),
    ("the last two of a later sequence", b"E0E1L2L3", b"--LL"),
    ("a single one of a later sequence", b"L0E1E2..", b"-EE-"),
    ("two contents of one sequence", b"E0T1E2T3", b"E-E-"),
    ("the same, the other way round", b"T0E1E2T3", b"T--T"),
    ("the last two of a later boot", b"E0E1B2B3", b"--BB"),
    ("the first two of a later boot", b"B0B1E2E3", b"BB--"),
    ("a single one of a later boot", b"B0E1E2..", b"-EE-"),
    ("a later sequence and a later boot", b"B0L1B2L3", b"-L-L"),
    ("a later boot of another version", b"B0B1S2S3", b"--SS"),
    ("two damaged copies", b"g.E1..E3", b"-E-E"),
    ("a damaged copy", b"E0g.E2E3", b"E-EE"),
    ("copies at each other's places", b"L1L0E2E3", b"--EE"),
    // The last one is early too, but for its checksum.
    ("three contents and an odd copy", b"E0L1T2b3", b"ssss"),
    ("two of four contents of later boots", b"B0S1E2T3", b"ssss"),
    ("one checksum with two contents", b"..l1..L3", b".s.s"),
    ("three damaged copies", b"g.o.E2..", b"gos."),
    ("a new file", b"........", b"...."),
    // It is at its own place once.
    ("one copy four times", b"E2E2E2E2", b"ooso"),
];

#[test]
fn the_greatest_content_of_two_copies_is_chosen_or_none_and_the_classes_told(rt: HostRuntime) {
    for (name, copies, choice) in &ROWS {
        assert!(rt; chosen(copies) == choice_of(choice), "{name}");
    }
}
