//! The sizes of the first compound and of the last.

use rtcp_report::{bye, bye_size, first_size};

#[test]
fn of_shortest_and_longest_names(rt: HostRuntime) {
    assert_eq!(rt; first_size(b"a"), 20);
    assert_eq!(rt; first_size(&[0x61; 255]), 276);
    assert_eq!(rt; first_size(b""), 20);
}

#[test]
fn of_byes(rt: HostRuntime) {
    let octets = bye(0xaa, b"a");
    let expected = [
        0x80, 0xc9, 0, 1, 0, 0, 0, 0xaa, // an empty receiver report of 0xaa
        0x81, 0xca, 0, 2, 0, 0, 0, 0xaa, 1, 1, b'a', 0, // its CNAME
        0x81, 0xcb, 0, 1, 0, 0, 0, 0xaa, // its BYE
    ];
    assert_eq!(rt; octets.as_slice(), expected.as_slice());
    assert_eq!(rt; bye(0xaa, &[0x61; 255]).len(), 284);
    assert_eq!(rt; (bye_size(b"a"), bye_size(&[0x61; 255])), (28, 284));
}
