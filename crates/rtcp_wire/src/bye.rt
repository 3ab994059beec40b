//! BYEs (RFC 3550, 6.6).

ghost use Rattle.std.specs.Prelude.{◌≡◌, ◌≤◌, ◌*◌, length, take, drop, option_copied};
ghost use Rattle.rtcp_wire.specs.Validity.{IsSomeReason};
ghost use Rattle.rtcp_wire.specs.Views.{goodbye_ids};
ghost use Rattle.rtcp_wire.specs.Walks.{ids_in, reason_in};

use crate::ids::Ids;
use crate::layout::ID_SIZE;

/// A BYE: sources leave the session (RFC 3550, 6.6).
///
/// ```text
/// +-+-+-+-+-+-+-+-+-+-+-+-+-+-+-+-+-+-+-+-+-+-+-+-+-+-+-+-+-+-+-+-+
/// |V=2|P|   SC    |   PT = 203    |            length             |
/// |                      SC identifiers, a word each              |
/// +-+-+-+-+-+-+-+-+-+-+-+-+-+-+-+-+-+-+-+-+-+-+-+-+-+-+-+-+-+-+-+-+
/// |     size      |   size octets of reason, up to a word's end   |
/// +---------------------------------------------------------------+
/// ```
#[derive(Clone, Copy, Debug)]
pub struct Goodbye<'a> {
    id_octets: &'a [u8],
    /// Why the sources leave, at most 255 octets, where the packet says it. It need not be UTF-8.
    pub reason: Option<&'a [u8]>,
}

impl<'a> Goodbye<'a> {
    ghost use Rattle.rtcp_wire.specs.Views.{goodbye_ids};

    /// The SSRCs and CSRCs of the sources that leave: at most 31, perhaps none.
    pub fn ids(&self) -> Ids<'a>
        ensures { result ≡ goodbye_ids self.now }
    {
        Ids::new(self.id_octets)
    }
}

/// The BYE whose body this is, under a header that counts `count` identifiers.
pub(crate) fn goodbye_from(count: u8, body: &[u8]) -> Goodbye<'_>
    requires ids { 4 * count ≤ length body.now }
    requires reason { IsSomeReason (drop (4 * count) body.now) }
    ensures ids { goodbye_ids result ≡ ids_in count body.now }
    ensures reason { option_copied result.reason ≡ reason_in (drop (4 * count) body.now) }
{
    let (id_octets, ends) = body.split_at(ID_SIZE * count as usize);
    let reason = reason_from(ends);
    Goodbye { id_octets, reason }
}

/// The reason in these octets: `None` where there are none.
fn reason_from(octets: &[u8]) -> Option<&[u8]>
    requires { IsSomeReason octets.now }
    ensures { option_copied result ≡ reason_in octets.now }
{
    let (size, text) = octets.split_first()?;
    Some(text.split_at(*size as usize).0)
}
