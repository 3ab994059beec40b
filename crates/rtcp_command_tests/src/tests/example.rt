//! The example that rtcp_command opens with.

use rtcp_command::Order;
use rtcp_command::arguments::order;
use rtcp_command::command::command;
use std::test::Fail;

#[test]
fn example(rt: HostRuntime) -> Result<(), Fail> {
    let alloc = rt.alloc();
    let mut faults = Vec::new(alloc);
    let Ok(asked) = order(alloc, &["rtcp", "check"]) else {
        return Err("the words are refused")?;
    };
    let asked = match asked {
        Order::Text(asked) => asked,
        _listening => return Err("the words are refused")?,
    };
    let status = command(alloc, asked, b"0".as_slice(), Vec::new(alloc), &mut faults);
    assert_eq!(rt; status, 2);
    assert_eq!(rt; faults.as_slice(), b"line 1: X4 Hex\n".as_slice());
    Ok(())
}
