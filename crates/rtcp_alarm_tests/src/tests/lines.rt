//! The lines of alarms.

use rtcp_alarm::{Alarm, Raised, push_alarm};
use std::alloc::{AllocError, Global};
use std::process::Abort;
use std::test::Fail;

/// The line of an alarm is this, after what was there.
fn says(rt: &impl Abort, alloc: Global, raised: Raised, want: &str) -> Result<(), AllocError> {
    let mut text = Vec::new(alloc);
    text.push(b'>')?;
    push_alarm(&mut text, &raised)?;
    assert_eq!(rt; text.as_slice(), want.as_bytes(), "{want}");
    Ok(())
}

/// The line of a loss of this fraction.
fn loss_says(rt: &impl Abort, alloc: Global, fraction: u8, want: &str) -> Result<(), AllocError> {
    let alarm = Alarm::Loss {
        ssrc: 0x5efa_318e,
        fraction,
    };
    let raised = Raised {
        moment: 12_403_000,
        alarm,
    };
    says(rt, alloc, raised, want)
}

/// 1/256 are 0.39 per cent, 3/256 are 1.17, and 255/256 are 99.61.
#[test]
fn losses(rt: HostRuntime) -> Result<(), Fail> {
    let alloc = rt.alloc();
    loss_says(&rt, alloc, 32, ">alarm 12.403000 loss=5efa318e 12.5%\n")?;
    loss_says(&rt, alloc, 1, ">alarm 12.403000 loss=5efa318e 0.3%\n")?;
    loss_says(&rt, alloc, 3, ">alarm 12.403000 loss=5efa318e 1.1%\n")?;
    loss_says(&rt, alloc, 255, ">alarm 12.403000 loss=5efa318e 99.6%\n")?;
    Ok(())
}

#[test]
fn silence(rt: HostRuntime) -> Result<(), Fail> {
    let raised = Raised {
        moment: 65_000_411,
        alarm: Alarm::Silence,
    };
    says(&rt, rt.alloc(), raised, ">alarm 65.000411 silence\n")?;
    Ok(())
}
