//! Octets and cursors that do not belong together. Each call returns, and what it gives lies in the octets.

use super::*;
use rand_core::{Rng, SeedableRng};
use rand_pcg::Pcg32;

/// A datagram whose second packet runs past its end is refused at that packet, and each cursor stays as it was.
#[test]
fn refused(rt: HostRuntime) {
    let fault = WireFault {
        reason: FaultReason::Length,
        place: 8,
    };
    let (octets, _) = GONE.split_at(20);
    let mut cursor = Cursor::default();
    assert_eq!(rt; Sender::next(octets, &mut cursor), Err(fault));
    assert_eq!(rt; Reported::next(octets, &mut cursor), Err(fault));
    assert_eq!(rt; PlacedItem::next(octets, &mut cursor), Err(fault));
    assert_eq!(rt; PlacedGoodbye::next(octets, &mut cursor), Err(fault));
    assert_eq!(rt; PlacedApp::next(octets, &mut cursor), Err(fault));
    assert_eq!(rt; cursor, Cursor::default());
}

/// The cursor of a longer datagram is after the last packet of a shorter one.
#[test]
fn other_datagram(rt: HostRuntime) {
    let mut cursor = Cursor::default();
    assert_eq!(rt; PlacedGoodbye::next(&CALL, &mut cursor).is_ok(), true);
    for _ in 0..2 {
        assert_eq!(rt; PlacedGoodbye::next(&GONE, &mut cursor), Ok(None));
    }
}

/// How many parts a walk gives until it ends, if all lie in the octets.
fn items_given(octets: &[u8], mut cursor: Cursor) -> Option<usize> {
    for given in 0..=octets.len() {
        match PlacedItem::next(octets, &mut cursor) {
            Ok(Some(item)) => {
                if item.text.place + item.text.size > octets.len() {
                    return None;
                }
            }
            _ => return Some(given),
        }
    }
    None
}

fn goodbyes_given(octets: &[u8], mut cursor: Cursor) -> Option<usize> {
    for given in 0..=octets.len() {
        match PlacedGoodbye::next(octets, &mut cursor) {
            Ok(Some(goodbye)) => {
                if let Some(reason) = goodbye.reason {
                    if reason.place + reason.size > octets.len() {
                        return None;
                    }
                }
            }
            _ => return Some(given),
        }
    }
    None
}

fn apps_given(octets: &[u8], mut cursor: Cursor) -> Option<usize> {
    for given in 0..=octets.len() {
        match PlacedApp::next(octets, &mut cursor) {
            Ok(Some(app)) => {
                if app.content.place + app.content.size > octets.len() {
                    return None;
                }
            }
            _ => return Some(given),
        }
    }
    None
}

fn senders_given(octets: &[u8], mut cursor: Cursor) -> Option<usize> {
    for given in 0..=octets.len() {
        if !matches!(Sender::next(octets, &mut cursor), Ok(Some(_))) {
            return Some(given);
        }
    }
    None
}

fn blocks_given(octets: &[u8], mut cursor: Cursor) -> Option<usize> {
    for given in 0..=octets.len() {
        if !matches!(Reported::next(octets, &mut cursor), Ok(Some(_))) {
            return Some(given);
        }
    }
    None
}

/// Random octets, in which every other word is the header of a packet of two to nine words.
fn random_octets(rng: &mut Pcg32) -> [u8; 96] {
    let mut octets = [0; 96];
    rng.fill_bytes(&mut octets);
    for word in 0..12usize {
        octets[8 * word + 1] = 200 + octets[8 * word + 1] % 6;
        octets[8 * word + 2] = 0;
        octets[8 * word + 3] = 1 + octets[8 * word + 3] % 8;
    }
    octets
}

/// A random cursor of a walk that has begun.
fn random_cursor(rng: &mut Pcg32) -> Cursor {
    Cursor {
        next: 8 + 8 * u64::from(rng.next_u32() % 13),
        place: u64::from(rng.next_u32() % 32),
        end: u64::from(rng.next_u32() % 100),
        left: rng.next_u32() % 4,
        ssrc: rng.next_u32(),
    }
}

/// Adds to a total what a walk has given, or returns `false` where it has not ended or has left the octets.
fn add(total: &mut usize, given: Option<usize>) -> bool {
    match given {
        Some(given) => {
            *total = total.saturating_add(given);
            true
        }
        None => false,
    }
}

/// Each walk ends within the octets, and gives something in some of the turns.
#[test]
fn random(rt: HostRuntime) {
    let mut rng = Pcg32::seed_from_u64(17);
    let (mut items, mut goodbyes, mut apps, mut senders, mut blocks) = (0, 0, 0, 0, 0);
    for turn in 0..4_000 {
        let octets = random_octets(&mut rng);
        let cursor = random_cursor(&mut rng);
        let ended = [
            add(&mut items, items_given(&octets, cursor)),
            add(&mut goodbyes, goodbyes_given(&octets, cursor)),
            add(&mut apps, apps_given(&octets, cursor)),
            add(&mut senders, senders_given(&octets, cursor)),
            add(&mut blocks, blocks_given(&octets, cursor)),
        ];
        assert_eq!(rt; ended, [true; 5], "turn {turn}");
    }
    let some = [items > 0, goodbyes > 0, apps > 0, senders > 0, blocks > 0];
    assert_eq!(rt; some, [true; 5]);
}
