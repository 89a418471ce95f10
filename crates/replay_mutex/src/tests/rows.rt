//! What one thread sees that holds all passes.
use crate::tests::parts::{
    closed_late, empty_job, issue_all, last_of, nothing, post_empty, post_piece,
};
use crate::{ClaimError, Hub, Item, PostError, TakeError, Why};
use std::test::*;

#[test]
fn two_workers_and_a_reader_are_answered_in_turn(rt: HostRuntime) -> Result<(), Fail> {
    let alloc = rt.alloc();
    let image = nothing(alloc);
    let (hub, mut passes) = Hub::new(alloc, 2, 1, &image)?;
    let Some(mut reader) = last_of(&hub, &image, 4, &mut passes, 3) else {
        panic!(&rt; "a pass is missing")
    };
    let Some(mut second) = last_of(&hub, &image, 4, &mut passes, 2) else {
        panic!(&rt; "a pass is missing")
    };
    let Some(mut first) = last_of(&hub, &image, 4, &mut passes, 1) else {
        panic!(&rt; "a pass is missing")
    };
    let Some(mut machine) = last_of(&hub, &image, 4, &mut passes, 0) else {
        panic!(&rt; "a pass is missing")
    };
    let look = hub.look(&rt, &mut machine);
    assert_eq!(&rt; (look.waiting, look.ended, look.at), (0, 0, 0));
    issue_all(&rt, &hub, &mut machine, 2)?;
    let (Ok(zero), Ok(one)) = (hub.claim(&rt, &mut first), hub.claim(&rt, &mut second)) else {
        panic!(&rt; "a job is missing")
    };
    assert_eq!(&rt; (zero, one), (empty_job(0), empty_job(1)));
    assert!(&rt; matches!(hub.claim(&rt, &mut first), Err(ClaimError::Empty(4))));
    assert!(&rt; post_empty(&rt, alloc, &hub, &mut second, one).is_none());
    assert!(&rt;
        matches!(
            hub.take_done(&rt, &mut machine, 0),
            Err(TakeError::NotYet(5))
        )
    );
    let taken = hub.take_done(&rt, &mut machine, 1);
    assert!(&rt;
        matches!(
            taken,
            Ok(Item::Done {
                id: 1,
                read: Some(_)
            })
        )
    );
    let flushed = hub.flush(&rt, &mut machine)?;
    assert!(&rt; flushed.items.is_empty());
    hub.end(&rt, &mut reader, Why::Ended);
    let look = hub.look(&rt, &mut machine);
    assert_eq!(&rt; (look.waiting, look.ended, look.at), (0, 1, 8));
    Ok(())
}

#[test]
fn a_pass_left_out_hands_all_back(rt: HostRuntime) -> Result<(), Fail> {
    let alloc = rt.alloc();
    let (hub, mut passes) = Hub::new(alloc, 2, 0, &nothing(alloc))?;
    let Some(left_out) = passes.pop() else {
        panic!(&rt; "a pass is missing")
    };
    let Some(history) = closed_late(hub, passes, left_out)? else {
        panic!(&rt; "closed without a pass, or not with all")
    };
    assert!(&rt; history.entries().is_empty());
    Ok(())
}

#[test]
fn a_stopped_hub_takes_and_gives_nothing(rt: HostRuntime) -> Result<(), Fail> {
    let alloc = rt.alloc();
    let image = nothing(alloc);
    let (hub, mut passes) = Hub::new(alloc, 1, 0, &image)?;
    let Some(mut worker) = last_of(&hub, &image, 2, &mut passes, 1) else {
        panic!(&rt; "a pass is missing")
    };
    let Some(mut machine) = last_of(&hub, &image, 2, &mut passes, 0) else {
        panic!(&rt; "a pass is missing")
    };
    issue_all(&rt, &hub, &mut machine, 2)?;
    hub.stop(&rt, &mut machine);
    assert!(&rt; matches!(hub.claim(&rt, &mut worker), Err(ClaimError::Stopped(3))));
    let posted = post_piece(&rt, alloc, &hub, &mut worker);
    assert!(&rt; matches!(posted, Err(PostError::Stopped(3, Item::Console(_)))));
    hub.stop(&rt, &mut machine);
    assert_eq!(&rt; hub.look(&rt, &mut machine).at, 3);
    Ok(())
}
