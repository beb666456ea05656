// The table of what work is due beside a script.
use df_pace::{Beat, Due, Pace, Piece, due, work_is_done_piece_by_piece};
use std::process::Abort;

#[test]
fn a_begin_is_due_once_enough_prepares_were_accepted_and_no_checkpoint_runs(rt: HostRuntime) {
    let table = [
        (0, 0, false, false),
        (0, 5, false, false),
        (1, 0, false, false),
        (1, 1, false, true),
        (20, 19, false, false),
        (20, 20, false, true),
        (20, 21, false, true),
        (20, 20, true, false),
        (0, 20, true, false),
    ];
    for (every, appended, running, begin) in table {
        let pace = Pace {
            scrub: 3,
            every,
            steps: 2,
        };
        let wanted = Due {
            begin,
            steps: 2,
            scrub: 3,
        };
        assert!(rt; due(&pace, appended, running) == wanted);
    }
}

// A begin is tried after each line, and after it come two steps and one of the scrubber.
const PACE: Pace = Pace {
    scrub: 1,
    every: 1,
    steps: 2,
};

// Whether a checkpoint runs before each piece after an append, the piece, and whether it began one.
const PIECES: [(bool, Piece, bool); 4] = [
    (false, Piece::Begin, true),
    (true, Piece::Step, false),
    (true, Piece::Step, false),
    (true, Piece::Scrub, false),
];

// What is due after an append, once all of it is done.
fn behind_all(rt: &impl Abort, beat: Beat) -> Beat {
    let mut beat = beat;
    for (running, piece, begun) in &PIECES {
        assert!(rt; beat.next(*running) == Some(*piece));
        beat = beat.behind_piece(*piece, *begun, 8);
    }
    beat
}

// After an append a begin comes, two steps of it and one of the scrubber; the next line has the scrubber's alone.
#[test]
fn the_pieces_of_the_work_come_in_their_order(rt: HostRuntime) {
    work_is_done_piece_by_piece();
    let start = Beat::start(7);
    assert!(rt; start.next(true) == None);
    let beat = behind_all(&rt, start.behind_line(&PACE, 8, false));
    assert!(rt; beat.next(true) == None);
    let later = beat.behind_line(&PACE, 8, false);
    assert!(rt; later.next(false) == Some(Piece::Scrub));
}

#[test]
fn a_begin_that_was_refused_is_due_behind_the_next_line(rt: HostRuntime) {
    let first = Beat::start(7).behind_line(&PACE, 8, false);
    let refused = first.behind_piece(Piece::Begin, false, 8);
    assert!(rt; refused.next(false) == Some(Piece::Scrub));
    let again = refused.behind_line(&PACE, 8, false);
    assert!(rt; again.next(false) == Some(Piece::Begin));
}

#[test]
fn with_no_work_nothing_is_due(rt: HostRuntime) {
    let none = Beat::start(7).behind_line(&Pace::idle(), 9, true);
    assert!(rt; none.next(true) == None);
}
