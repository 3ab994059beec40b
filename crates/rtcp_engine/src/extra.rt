//! The extra items of reports (RFC 3550, 6.5).

ghost use Rattle.std.specs.Prelude.{◌≡◌, ◌<◌, map};
ghost use Rattle.rtcp_report.specs.Views.{extra_of};
ghost use Rattle.rtcp_engine.specs.answers.Reporting.{extra_item as item_of};
ghost use Rattle.rtcp_report.specs.Reports.{item_value};

use rtcp_report::Item;

/// The extra item of the report with this number, which counts from 1: reports 3, 6, 9 and so on carry the
/// items in turn.
pub(crate) fn extra_item(items: &[Item], number: u64) -> Option<&Item>
    requires { 0 < number }
    ensures { extra_of result ≡ item_of (map item_value items.now) number }
{
    if items.is_empty() || number % 3 != 0 {
        return None;
    }
    let turn = (number / 3 - 1) % items.len() as u64;
    Some(&items[turn as usize])
}
