// What no contract can say: where it isn't sure that a file would stay off the numbers of the standard streams, it isn't
// opened, nor made.
use crate::tests::files::{FAILING, assert_over};
use crate::tests::guarded::Guarded;
use crate::tests::rows::Call;
use std::fs;

#[test]
fn without_stand_ins_nothing_is_opened_or_made(rt: HostRuntime) {
    let name = "file_of_a_guarded_test";
    let _ = fs::remove_file(&rt, name);
    assert_over(&rt, &Guarded::denying_root(&rt), rt.alloc(), name, &FAILING);
    assert!(rt; fs::exists(&rt, name).ok() == Some(false));
}

#[test]
fn stand_ins_serve_where_no_pipe_tells(rt: HostRuntime) {
    let name = "file_beside_stand_ins";
    let _ = fs::remove_file(&rt, name);
    let rows = [(Call::Fill(0, 1), Ok(true)), (Call::Sync, Ok(true))];
    assert_over(&rt, &Guarded::new(&rt, &[]), rt.alloc(), name, &rows);
    assert!(rt; fs::remove_file(&rt, name).is_ok());
}
