//! The example that rtcp_serve opens with.

use super::memory_link::MemoryLink;
use super::session::participant;
use super::zeros::Zeros;
use super::*;
use std::cell::Cell;
use std::rc::Rc;

#[test]
fn example(rt: HostRuntime) -> Result<(), Fail> {
    let made = Rc::new(rt.alloc(), Cell::new(0))?;
    let mut link = MemoryLink::new(rt.alloc(), &[0], &[], &[], 0, &made)?;
    let mut participant = participant(&rt);
    let mut rng = Zeros(0);
    let mut buf = [0; 65_535];
    let end = serve(&mut link, &mut participant, &mut rng, 1_000, &mut buf);
    assert_eq!(rt; end.cause, Cause::Done);
    Ok(())
}
