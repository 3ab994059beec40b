//! Packets that an application defines (RFC 3550, 6.7).

ghost use Rattle.std.specs.Prelude.{◌≡◌, ◌≤◌, length, take, drop};
ghost use Rattle.byteorder.specs.Endian.{big_number};
ghost use Rattle.rtcp_wire.specs.Values.{app};
ghost use Rattle.rtcp_wire.specs.Views.{packet_value};
ghost use Rattle.rtcp_wire.specs.declared.packet.PacketView.TheVariants as views;

use crate::reader::Reader;

/// A packet that an application defines (RFC 3550, 6.7).
///
/// ```text
/// +-+-+-+-+-+-+-+-+-+-+-+-+-+-+-+-+-+-+-+-+-+-+-+-+-+-+-+-+-+-+-+-+
/// |V=2|P| subtype |   PT = 204    |            length             |
/// |                             ssrc                              |
/// |                             name                              |
/// |                       data, whole words                       |
/// +---------------------------------------------------------------+
/// ```
#[derive(Clone, Copy, Debug)]
pub struct Application<'a> {
    /// Five bits that the application defines.
    pub subtype: u8,
    /// The SSRC of the source that sends the packet.
    pub ssrc: u32,
    /// The name of the set of packets that this one belongs to. It need not be ASCII.
    pub name: [u8; 4],
    /// What the application says: whole words.
    pub data: &'a [u8],
}

/// The application's packet whose body this is, under a header that has the subtype where others have a
/// count.
pub(crate) fn application_from(subtype: u8, body: &[u8]) -> Application<'_>
    requires { 8 ≤ length body.now }
    ensures { packet_value (views.App result) ≡
        app subtype (big_number 4 (take 4 body.now)) (take 4 (drop 4 body.now)) (drop 4 (drop 4 body.now)) }
{
    let mut reader = Reader::new(body);
    let ssrc = reader.u32();
    let name = reader.word();
    Application {
        subtype,
        ssrc,
        name,
        data: reader.rest(),
    }
}
