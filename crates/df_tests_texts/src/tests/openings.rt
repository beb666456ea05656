// The printed lines on files that aren't made or opened, as the tables of printed texts and of the worked sessions give them.
use crate::tests::printed::{elsewhere, expect, new_sink};
use df_inspect::{print_format_refusal, print_open_refusal};
use df_layout::{Class, Field, Layout, Place, Zone};
use df_model::{FormatError, OpenError};
use std::alloc::Global;
use std::process::Abort;

const MAKING: [(FormatError, &str); 3] = [
    (FormatError::ClusterZero, "refused ClusterZero\n"),
    (
        FormatError::NotBlank { copy: 0 },
        "refused NotBlank copy 0\n",
    ),
    (
        FormatError::NotBlank { copy: 3 },
        "refused NotBlank copy 3\n",
    ),
];

#[test]
fn a_file_that_is_not_made_has_its_line(rt: HostRuntime) {
    for (error, line) in &MAKING {
        let mut sink = new_sink(rt.alloc());
        let done = print_format_refusal(&mut sink, *error);
        expect(&rt, done, &sink, line);
    }
}

// Each refusal with its line.
fn expect_refused(rt: &impl Abort, alloc: Global, rows: &[(OpenError, &str)]) {
    for (error, line) in rows {
        let mut sink = new_sink(alloc);
        let done = print_open_refusal(&mut sink, error);
        expect(rt, done, &sink, line);
    }
}

fn no_quorum(classes: [Class; 4]) -> OpenError {
    OpenError::NoQuorum { classes }
}

fn bad_field(field: Field, value: u128) -> OpenError {
    OpenError::BadField { field, value }
}

fn damaged(zone: Zone, index: u64, class: Class) -> OpenError {
    let place = Place { zone, index };
    OpenError::Damaged { place, class }
}

#[test]
fn a_file_that_is_not_opened_has_its_line(rt: HostRuntime) {
    let far = elsewhere(Zone::ClientReplies, u64::MAX);
    let (garbled, stale) = (Class::Garbled, Class::Stale);
    let differs = OpenError::LayoutDiffers {
        reserved: Layout::large(),
        found: Layout::small(),
    };
    let rows = [
        (OpenError::NotFormatted, "refused NotFormatted\n"),
        (
            no_quorum([garbled, garbled, garbled, stale]),
            "refused NoQuorum Garbled Garbled Garbled Stale\n",
        ),
        (
            no_quorum([Class::Blank, stale, far, garbled]),
            "refused NoQuorum Blank Stale Elsewhere ClientReplies 18446744073709551615 Garbled\n",
        ),
        (OpenError::Version { found: 2 }, "refused Version found 2\n"),
        (
            bad_field(Field::Op, 4_611_686_018_427_387_905),
            "refused BadField Op 4611686018427387905\n",
        ),
        (
            differs,
            "refused LayoutDiffers 1024 1048576 64 524288 16384 32 8192 4 16384 64\n",
        ),
        (OpenError::BootSpent, "refused BootSpent\n"),
    ];
    expect_refused(&rt, rt.alloc(), &rows);
}

#[test]
fn zones_and_fields_have_their_names(rt: HostRuntime) {
    for (zone, line) in [
        (Zone::Superblock, "refused Damaged Superblock 1 Stale\n"),
        (Zone::WalHeaders, "refused Damaged WalHeaders 1 Stale\n"),
        (Zone::WalPrepares, "refused Damaged WalPrepares 1 Stale\n"),
        (
            Zone::ClientReplies,
            "refused Damaged ClientReplies 1 Stale\n",
        ),
        (Zone::Grid, "refused Damaged Grid 1 Stale\n"),
    ] {
        expect_refused(&rt, rt.alloc(), &[(damaged(zone, 1, Class::Stale), line)]);
    }
    for (field, line) in [
        (Field::TrailerChain, "refused BadField TrailerChain 3\n"),
        (Field::TrailerRoot, "refused BadField TrailerRoot 3\n"),
        (
            Field::TrailerSessions,
            "refused BadField TrailerSessions 3\n",
        ),
        (Field::TrailerBits, "refused BadField TrailerBits 3\n"),
        (Field::TrailerEnd, "refused BadField TrailerEnd 3\n"),
        (Field::Pending, "refused BadField Pending 3\n"),
    ] {
        expect_refused(&rt, rt.alloc(), &[(bad_field(field, 3), line)]);
    }
}
