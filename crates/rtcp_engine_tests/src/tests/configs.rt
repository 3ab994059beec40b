//! What a participant is configured with.

use super::*;

/// What is not usual in a configuration.
#[derive(Clone, Copy)]
enum Unusual {
    Nothing,
    /// No CNAME, and a capacity of 0.
    Empty,
    Capacity(u32),
    Limit(u32),
    /// Of the senders, and of the others.
    Bandwidths(u32, u32),
    Rate(u32),
    /// One extra item of this type, without text.
    Extra(u8),
}

/// Configurations, and why they are refused, if they are.
static CONFIGS: [(Unusual, Option<ConfigError>); 33] = [
    (Unusual::Nothing, None),
    // of several reasons the first
    (Unusual::Empty, Some(ConfigError::Cname)),
    (Unusual::Capacity(0), Some(ConfigError::Capacity)),
    (Unusual::Capacity(1_025), Some(ConfigError::Capacity)),
    (Unusual::Capacity(1), None),
    (Unusual::Capacity(1_024), None),
    (Unusual::Limit(575), Some(ConfigError::Limit)),
    (Unusual::Limit(572), Some(ConfigError::Limit)),
    (Unusual::Limit(578), Some(ConfigError::Limit)),
    (Unusual::Limit(1_473), Some(ConfigError::Limit)),
    (Unusual::Limit(1_476), Some(ConfigError::Limit)),
    (Unusual::Limit(576), None),
    (Unusual::Limit(1_472), None),
    (Unusual::Bandwidths(0, 300), Some(ConfigError::Bandwidth)),
    (Unusual::Bandwidths(100, 0), Some(ConfigError::Bandwidth)),
    (Unusual::Bandwidths(15, 300), Some(ConfigError::Bandwidth)),
    (Unusual::Bandwidths(100, 15), Some(ConfigError::Bandwidth)),
    (
        Unusual::Bandwidths((1 << 30) + 1, 300),
        Some(ConfigError::Bandwidth),
    ),
    (
        Unusual::Bandwidths(100, (1 << 30) + 1),
        Some(ConfigError::Bandwidth),
    ),
    (Unusual::Bandwidths(16, 300), None),
    (Unusual::Bandwidths(100, 16), None),
    (Unusual::Bandwidths(1 << 30, 300), None),
    (Unusual::Bandwidths(100, 1 << 30), None),
    (Unusual::Rate(0), Some(ConfigError::Rate)),
    (Unusual::Rate((1 << 20) + 1), Some(ConfigError::Rate)),
    (Unusual::Rate(1), None),
    (Unusual::Rate(1 << 20), None),
    (Unusual::Extra(0), Some(ConfigError::Item)),
    (Unusual::Extra(1), Some(ConfigError::Item)),
    (Unusual::Extra(9), Some(ConfigError::Item)),
    (Unusual::Extra(255), Some(ConfigError::Item)),
    (Unusual::Extra(2), None),
    (Unusual::Extra(8), None),
];

/// The configuration that is unusual so.
fn configured(unusual: Unusual) -> Config {
    let mut config = config();
    match unusual {
        Unusual::Nothing => {}
        Unusual::Empty => {
            config.cname = ArrayVec::new();
            config.capacity = 0;
        }
        Unusual::Capacity(capacity) => config.capacity = capacity,
        Unusual::Limit(limit) => config.limit = limit,
        Unusual::Bandwidths(senders, others) => {
            config.sender_bw = senders;
            config.receiver_bw = others;
        }
        Unusual::Rate(rate) => config.rate = rate,
        Unusual::Extra(kind) => {
            let text = ArrayVec::new();
            let _ = config.extras.try_push(Item { kind, text });
        }
    }
    config
}

/// The ends of each range, and what lies beyond them.
#[test]
fn configurations(rt: HostRuntime) {
    for (row, (unusual, reason)) in CONFIGS.iter().enumerate() {
        let found = Participant::<ListTable>::new(configured(*unusual), 0).err();
        assert!(rt; found == *reason, "row {row}");
    }
}

/// The usual part of a session's bandwidth, and its shares: a quarter is rounded down.
#[test]
fn shares(rt: HostRuntime) {
    assert_eq!(&rt; (rtcp_bw_of(10_239), rtcp_bw_of(10_240)), (63, 64));
    assert_eq!(&rt; [shares_of(63), shares_of(64)], [(15, 48), (16, 48)]);
    assert_eq!(&rt; [shares_of(0), shares_of(400)], [(0, 0), (100, 300)]);
}
