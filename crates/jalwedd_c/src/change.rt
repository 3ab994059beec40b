//! What changed between two listings of the sources of a session.

ghost use Rattle.std.specs.Prelude.{◌≡◌, Some, None, true, false};
ghost use Rattle.rtcp_listing.specs.declared.change.Change.{Change as ChangeValue};
ghost use Rattle.jalwedd_host.specs.Changes.{ShowsChange, both_rise, change_from};

use jalwedd_host::change::{RoleChange, first_from};
use jalwedd_host::source::HostSource;
use jalwedd_host::status::{NO_CHANGE, NOT_RISING, TAKEN};
use rtcp_engine::is_rising;

/// Tells of the sources whose roles differ in two listings the one of least SSRC from `from` on. A listing is
/// what `jalwedd_source` told of each source, one after the other. Begin with 0, and go on with the SSRC told
/// and 1, until the status is not 0: then each change is told once. Else `change` is left as it is.
///
/// Statuses: 0; 9 where no other source changed; 10 where the SSRCs of a listing do not rise.
#[unsafe(no_mangle)]
pub extern "C" fn jalwedd_change(
    before: &[HostSource],
    after: &[HostSource],
    from: u64,
    change: &mut RoleChange,
) -> u32
    ensures found { (told : ChangeValue) → both_rise before.now after.now ≡ true →
        change_from from before.now after.now ≡ Some told → (result ≡ 0) × ShowsChange change.new told }
    ensures none { both_rise before.now after.now ≡ true →
        change_from from before.now after.now ≡ None → (result ≡ 9) × (change.new ≡ change.old) }
    ensures not_rising { both_rise before.now after.now ≡ false →
        (result ≡ 10) × (change.new ≡ change.old) }
{
    if !is_rising(before) || !is_rising(after) {
        return NOT_RISING;
    }
    match first_from(before, after, from) {
        Some(found) => {
            *change = RoleChange::of(&found);
            TAKEN
        }
        None => NO_CHANGE,
    }
}
