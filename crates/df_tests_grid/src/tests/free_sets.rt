// Sets in use: addresses are given out lowest first, across words, and across words of the summary.
use df_freeset::FreeSet;

#[test]
fn addresses_are_given_out_lowest_first(rt: HostRuntime) {
    let words = [0u64; 2].to_vec(rt.alloc()).expect(&rt, "it succeeds");
    assert!(rt; words.len() == 2);
    let summary = [0u64; 1].to_vec(rt.alloc()).expect(&rt, "it succeeds");
    assert!(rt; summary.len() == 1);
    let mut set = FreeSet::over(words, summary, 70);
    for address in 1..=70 {
        assert!(rt; set.least_free() == Some(address));
        set.take(address);
    }
    assert!(rt; set.least_free() == None);
    assert!(rt; set.free() == 0);
    set.give(66);
    set.give(7);
    assert!(rt; set.free() == 2);
    assert!(rt; set.least_free() == Some(7));
    set.take(7);
    assert!(rt; set.least_free() == Some(66));
    let (room, summary) = set.into_room();
    assert!(rt; room.len() == 2);
    assert!(rt; summary.len() == 1);
}

#[test]
fn last_of_a_large_grid_is_found_through_the_summary(rt: HostRuntime) {
    let words = vec![in rt.alloc(); 0u64; 256].expect(&rt, "it succeeds");
    let summary = vec![in rt.alloc(); 0u64; 4].expect(&rt, "it succeeds");
    let mut set = FreeSet::over(words, summary, 16384);
    for address in 1..=16384 {
        set.take(address);
    }
    assert!(rt; set.least_free() == None);
    set.give(16384);
    assert!(rt; set.least_free() == Some(16384));
    set.give(8191);
    assert!(rt; set.least_free() == Some(8191));
    assert!(rt; set.free() == 2);
}
