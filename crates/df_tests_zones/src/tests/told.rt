// What a prepare says of the head, where op 4 is the end of the last whole group and the boot is 3. Expected values are those
// of the rules on groups, worked out by hand.
use df_format::{Header, Kind};
use df_group::{binding_op, head_is_told, lost_is_told, survivors_are_told};

// The header of a prepare: its op, its boot, and the first and the last op of its group.
fn header(op: u64, boot: u64, group: u64, group_last: u64) -> Header {
    Header {
        client: 5,
        op,
        request: 1,
        version: 2,
        boot,
        group,
        group_last,
        ..Header::of(Kind::Prepare, 7)
    }
}

// Op, boot and group; whether the prepare binds the head to an op above it.
type Row = (&'static str, (u64, u64, u64, u64), bool);

const ROWS: [Row; 14] = [
    ("the head itself", (4, 3, 4, 4), false),
    ("the next op, by itself", (5, 3, 5, 5), true),
    ("the first of two", (5, 3, 5, 6), false),
    ("the last of two", (6, 3, 5, 6), false),
    ("the first of eight", (5, 3, 5, 12), false),
    ("the last of eight", (12, 3, 5, 12), false),
    ("one within eight", (8, 3, 5, 12), false),
    ("of a group further on", (6, 3, 6, 7), true),
    ("of a group that begins at the head", (5, 3, 4, 5), true),
    ("the head, of such a group", (4, 3, 4, 5), false),
    ("of an earlier boot, by itself", (5, 2, 5, 5), false),
    ("of an earlier boot, of two", (5, 2, 5, 6), false),
    ("of a later boot", (5, 4, 5, 5), false),
    ("without a group", (5, 3, 0, 0), true),
];

#[test]
fn a_prepare_of_a_cut_group_binds_no_head(rt: HostRuntime) {
    head_is_told();
    lost_is_told();
    survivors_are_told();
    for (name, (op, boot, group, group_last), binds) in &ROWS {
        let shown = header(*op, *boot, *group, *group_last);
        assert!(rt; (binding_op(&shown, 3, 4) > 4) == *binds, "{name}");
    }
}

#[test]
fn in_version_1_nothing_is_cut(rt: HostRuntime) {
    assert!(rt; binding_op(&header(5, 0, 5, 6), 0, 4) == 5);
    assert!(rt; binding_op(&header(5, 3, 5, 6), 3, 4) == 0);
    assert!(rt; binding_op(&header(5, 3, 5, 6), 3, 5) == 5);
}
