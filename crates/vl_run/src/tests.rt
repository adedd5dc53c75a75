use crate::deed::Deed;
use crate::ends::Ends;
use crate::event::Event;
use crate::request::Request;
use crate::tag::Tag;
use crate::trace::Trace;
use std::process::Abort;
use std::test::Fail;

fn event(request: Request) -> Event {
    Event {
        session: 1,
        request,
        opens: None,
        visits: None,
        deed: Deed::Nothing,
        fault: None,
        ends: Ends::Nobody,
        told: Tag::Nothing,
    }
}

#[test]
fn events_are_kept_in_their_order(rt: HostRuntime) -> Result<(), Fail> {
    let mut trace = Trace::new(rt.alloc());
    trace.reserve()?;
    trace.reserve()?;
    trace.reserve()?;
    trace.note(event(Request::Join));
    trace.note(event(Request::Leave));
    trace.release(1);
    let events = trace.as_slice();
    assert_eq!(&rt; events.len(), 2);
    assert!(&rt; matches!(events[0].request, Request::Join));
    assert!(&rt; matches!(events[1].request, Request::Leave));
    Ok(())
}
