// A table in use, with the places, requests and replies that the description of sessions gives.
use df_sessions::{
    Session, SessionTable, ops_stay_apart, requests_of_a_table, sessions_keep_passing,
};

#[test]
fn a_client_keeps_its_place_and_its_latest_request(rt: HostRuntime) {
    requests_of_a_table();
    sessions_keep_passing();
    ops_stay_apart();
    let mut table = SessionTable::new(2);
    assert!(rt; table.len() == 0);
    assert!(rt; table.get(0) == None);
    assert!(rt; table.place_of(7) == None);
    assert!(rt; table.apply(7, 1, 1) == 0);
    assert!(rt; table.apply(5, 1, 2) == 1);
    table.store(0, [9; 16]);
    let answered = Session {
        client: 7,
        request: 1,
        op: 1,
        reply: Some([9; 16]),
    };
    assert!(rt; table.get(0) == Some(answered));
    assert!(rt; table.apply(7, 2, 3) == 0);
    let waiting = Session {
        client: 7,
        request: 2,
        op: 3,
        reply: None,
    };
    assert!(rt; table.get(0) == Some(waiting));
    assert!(rt; table.place_of(5) == Some(1));
    assert!(rt; table.len() == 2);
    assert!(rt; table.as_slice().len() == 2);
    assert!(rt; table.get(2) == None);
}
