//! The agenda of three components.
use crate::{Agenda, Moment};
use cs_base::time::Time;
use std::test::Fail;

#[test]
fn moments_come_in_order(rt: HostRuntime) -> Result<(), Fail> {
    let mut agenda = Agenda::new(rt.alloc(), 3)?;
    assert_eq!(rt; agenda.first(), None);
    agenda.set(2, Some(Time(7)));
    agenda.set(3, Some(Time(1)));
    agenda.note(1, Time(7));
    agenda.note(1, Time(8));
    assert_eq!(rt;
        agenda.first(),
        Some(Moment {
            at: Time(7),
            component: 1
        })
    );
    assert_eq!(rt;
        agenda.first_but(1),
        Some(Moment {
            at: Time(7),
            component: 2
        })
    );
    agenda.set(2, None);
    assert_eq!(rt; agenda.first_but(1), None);
    Ok(())
}
