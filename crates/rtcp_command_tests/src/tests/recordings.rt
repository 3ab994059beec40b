//! Whether the file of a record is overwritten.

use super::endings::REQUIRED;
use rtcp_command::Order;
use rtcp_command::arguments::order;
use std::test::Fail;

/// Only `--force` lets a file be overwritten, before or after `--record`.
#[test]
fn overwrites(rt: HostRuntime) -> Result<(), Fail> {
    let rows: [(&[&str], bool); 5] = [
        (&[], false),
        (&["--record", "call"], false),
        (&["--record", "force"], false),
        (&["--record", "call", "--force"], true),
        (&["--force", "--record", "call"], true),
    ];
    for (row, (options, wanted)) in rows.iter().enumerate() {
        let mut words = Vec::from_slice(rt.alloc(), &REQUIRED)?;
        words.extend_from_slice(options)?;
        let Ok(Order::Listen(order)) = order(rt.alloc(), &words) else {
            return Err("it was refused")?;
        };
        assert_eq!(rt; order.overwrites, *wanted, "row {row}");
    }
    Ok(())
}
