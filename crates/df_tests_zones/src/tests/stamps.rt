// The two tests at their limits.
use df_stamps::{Counters, behind, lost};

const SEEN: Counters = Counters {
    ring_op: 40,
    reply_top: 39,
    checkpoint: 3,
    boot: 5,
};

#[test]
fn each_limit_is_still_allowed(rt: HostRuntime) {
    for (sequence, op, slots, boot, answer) in [
        (3, 8, 32, 5, false),
        (2, 8, 32, 5, true),
        (3, 7, 32, 5, true),
        (3, 8, 32, 4, true),
        (3, 8, 32, 0, true),
        (u64::MAX, u64::MAX, u32::MAX, u64::MAX, false),
    ] {
        assert!(rt;
            behind(&SEEN, sequence, op, slots, boot) == answer,
            "{sequence} {op} {boot}"
        );
    }
    for (superblock_head, head, answer) in [
        (40, 40, false),
        (41, 40, true),
        (0, 39, true),
        (0, 38, true),
    ] {
        assert!(rt;
            lost(&SEEN, superblock_head, head) == answer,
            "{superblock_head} {head}"
        );
    }
    assert!(rt; !lost(&Counters::default(), 0, 0));
}
