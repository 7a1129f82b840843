//! One block's events from the first holder to the last, with each reply and where the deed is after it.
use crate::{Deed, Event, HolderState, Reply};
use std::test::Fail;

/// The events that are sent in turn to the state that `make(4)` gives, and the reply and the deed after each.
const STEPS: [(Event, Reply, Deed); 7] = [
    (
        Event::Split {
            holder: 0,
            gives: 1,
        },
        Reply::NewHolder(1),
        Deed::Home,
    ),
    (Event::LetGo { holder: 1 }, Reply::Kept, Deed::Home),
    (Event::Read { holder: 0 }, Reply::Bytes, Deed::Home),
    (Event::LetGo { holder: 0 }, Reply::Last, Deed::Due(0)),
    (Event::TakeDeed { holder: 1 }, Reply::Refused, Deed::Due(0)),
    (Event::TakeDeed { holder: 0 }, Reply::Deed, Deed::Gone),
    (Event::Read { holder: 0 }, Reply::Refused, Deed::Gone),
];

#[test]
fn last_holder_takes_the_deed(rt: HostRuntime) -> Result<(), Fail> {
    let Ok(mut state) = HolderState::make(rt.alloc(), 4) else {
        assert!(rt; false);
        return Ok(());
    };
    for (event, reply, deed) in STEPS {
        assert_eq!(rt; state.step(event), reply);
        assert_eq!(rt; state.deed(), deed);
    }
    assert_eq!(rt; state.amounts(), [0, 0].as_slice());
    Ok(())
}
