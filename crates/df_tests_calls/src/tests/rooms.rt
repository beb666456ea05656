// Rooms come back: from a survey that refuses them, from an open that a failing call ends, and from what is closed.
use crate::tests::files::{open_in, rooms_of, small_file, survey_in};
use df_layout::Layout;
use df_replica::OpenError;
use std::test::Fail;

fn other_layout() -> Result<Layout, Fail> {
    match Layout::new(16, 4096, 1, 4096, 8) {
        Ok(layout) => Ok(layout),
        Err(_) => Err("no layout".into()),
    }
}

#[test]
fn rooms_of_another_layout_are_refused(rt: HostRuntime) -> Result<(), Fail> {
    let mut disk = small_file(rt.alloc(), 0)?;
    let small = Layout::small();
    let other = other_layout()?;
    let rooms = rooms_of(rt.alloc(), &other)?;
    let Err((rooms, refusal)) = survey_in(&mut disk, rooms) else {
        return Err("another layout is opened".into());
    };
    assert_eq!(rt;
        refusal,
        OpenError::LayoutDiffers {
            reserved: other,
            found: small
        }
    );
    assert_eq!(rt; rooms.layout(), other);
    Ok(())
}

// The making of the file is 15 calls and a survey 43; call 60 is the first sync of the boot update.
#[test]
fn rooms_serve_one_open_after_another(rt: HostRuntime) -> Result<(), Fail> {
    let mut disk = small_file(rt.alloc(), 60)?;
    let small = Layout::small();
    let rooms = rooms_of(rt.alloc(), &small)?;
    let Err((rooms, refusal)) = open_in(&mut disk, rooms) else {
        return Err("a failing call is passed over".into());
    };
    assert_eq!(rt; (refusal, disk.calls()), (OpenError::DiskFault, 60));
    let Ok(surveyed) = survey_in(&mut disk, rooms) else {
        return Err("the file is refused".into());
    };
    let Ok(replica) = open_in(&mut disk, surveyed.close()) else {
        return Err("the file isn't opened".into());
    };
    assert_eq!(rt;
        (replica.summary().sequence, replica.summary().head),
        (1, 0)
    );
    assert_eq!(rt; replica.close().layout(), small);
    Ok(())
}
