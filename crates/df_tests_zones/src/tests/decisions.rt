// The table, row by row, as it stands in the format's description.
use df_cases::{Decision, Seen, case};

#[test]
fn decisions_are_those_of_the_table(rt: HostRuntime) {
    let same = Seen::Now([1; 16]);
    let other = Seen::Now([2; 16]);
    let take = Decision::Take { mend: false };
    let rows = [
        (Seen::Far, Seen::Nothing, Decision::Behind),
        (Seen::Far, Seen::Old, Decision::Behind),
        (Seen::Far, same, Decision::Behind),
        (Seen::Far, Seen::Far, Decision::Behind),
        (Seen::Nothing, Seen::Far, Decision::Behind),
        (Seen::Old, Seen::Far, Decision::Behind),
        (same, Seen::Far, Decision::Behind),
        (same, same, take),
        (same, other, Decision::Lost),
        (same, Seen::Old, Decision::Lost),
        (same, Seen::Nothing, Decision::Lost),
        (Seen::Old, same, Decision::Take { mend: true }),
        (Seen::Nothing, same, Decision::Take { mend: true }),
        (Seen::Old, Seen::Old, Decision::Empty { mend: false }),
        (Seen::Old, Seen::Nothing, Decision::Empty { mend: false }),
        (Seen::Nothing, Seen::Old, Decision::Empty { mend: true }),
        (Seen::Nothing, Seen::Nothing, Decision::Empty { mend: true }),
    ];
    for (i, (header, prepare, decision)) in rows.iter().enumerate() {
        assert!(rt; case(*header, *prepare) == *decision, "row {i}");
    }
}
