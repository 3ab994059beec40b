//! What a command line may ask for, and what is wrong with one.

use rtcp_engine::Config;
use rtcp_guarded_text::GuardLimits;
use std::net::SocketAddrV4;

/// What the program is asked to do.
#[derive(Debug, Drop)]
pub enum Order {
    /// A run over text.
    Text(TextOrder),
    /// A session over UDP.
    Listen(ListenOrder),
    /// The line with the program's name and version.
    Version(String),
}

/// A run from standard input to standard output.
#[derive(Debug, Drop)]
pub enum TextOrder {
    /// Shows what each datagram is.
    Check {
        /// The most lines that are answered, at least 1.
        lines: u32,
    },
    /// Shows what each datagram is, in plain words.
    CheckPlain {
        /// The most lines that are answered, at least 1.
        lines: u32,
    },
    /// Shows the report blocks of each datagram, a row each.
    CheckBlocks {
        /// The most lines that are answered, at least 1.
        lines: u32,
    },
    /// Shows what each datagram is, in JSON.
    CheckJson {
        /// The most lines that are answered, at least 1.
        lines: u32,
    },
    /// Shows what a participant answers to each event.
    Replay {
        /// How the participant is configured. Nothing of it was tested against the ranges of a configuration.
        config: Config,
        /// The random word of the start.
        word: u32,
        /// The most lines that are answered, at least 1.
        lines: u32,
    },
    /// Shows what a participant with a guard before it answers to each event.
    ReplayGuarded {
        /// How the participant is configured. Nothing of it was tested against the ranges of a configuration.
        config: Config,
        /// The random word of the start.
        word: u32,
        /// The most lines that are answered, at least 1.
        lines: u32,
        /// What an origin may do before the guard holds it back.
        limits: GuardLimits,
    },
    /// Shows in JSON what a participant answers to each event.
    ReplayJson {
        /// How the participant is configured. Nothing of it was tested against the ranges of a configuration.
        config: Config,
        /// The random word of the start.
        word: u32,
        /// The most lines that are answered, at least 1.
        lines: u32,
    },
    /// Shows in JSON what a participant with a guard before it answers to each event.
    ReplayGuardedJson {
        /// How the participant is configured. Nothing of it was tested against the ranges of a configuration.
        config: Config,
        /// The random word of the start.
        word: u32,
        /// The most lines that are answered, at least 1.
        lines: u32,
        /// What an origin may do before the guard holds it back.
        limits: GuardLimits,
    },
}

/// A session over UDP.
#[derive(Debug, Drop)]
pub struct ListenOrder {
    /// How the participant is configured. Nothing of it was tested against the ranges of a configuration.
    pub config: Config,
    /// Whether its SSRC is to be drawn from the system's generator.
    pub draws_ssrc: bool,
    /// Whether its NTP timestamp of moment 0 is to be read from the system's clock.
    pub reads_ntp: bool,
    /// Where RTP comes in.
    pub rtp: SocketAddrV4,
    /// Where RTCP comes in.
    pub rtcp: SocketAddrV4,
    /// Where RTCP goes.
    pub peer: SocketAddrV4,
    /// The seed of the random words.
    pub seed: u64,
    /// Whether another one is to be drawn from the system's generator.
    pub draws_seed: bool,
    /// How many turns are made before the participant leaves, 1 to 1,000,000, if they are counted.
    pub turns: u32,
    /// Whether turns are counted: they are asked for, or nothing else ends the session.
    pub counts_turns: bool,
    /// After how many seconds the participant leaves, 1 to 1,000,000,000, if that is asked for.
    pub seconds: Option<u32>,
    /// The file that the session is recorded in, if it is to be.
    pub recording: Option<String>,
    /// Whether that file may be there already, and is overwritten then.
    pub overwrites: bool,
    /// The file that ends the session once it is there, if one is to.
    pub stop: Option<String>,
    /// Whether the session is shown while it runs.
    pub show: bool,
    /// Whether datagrams are shown in plain words.
    pub plain: bool,
    /// Whether lines of JSON are written while it runs, and at its end.
    pub json: bool,
    /// What an origin may do before it is held back, if a guard stands before the participant.
    pub guard: Option<GuardLimits>,
    /// What the session is watched for, and how its sources are shown.
    pub watch: Watch,
}

/// What a session over UDP is watched for, and how its sources are shown.
#[derive(Clone, Copy, Debug, PartialEq, Eq)]
pub struct Watch {
    /// How many per cent a report may say that were lost of a source, 0 to 99, if more end the session.
    pub loss: Option<u32>,
    /// After how many seconds without an RTP packet the session ends, 1 to 1,000,000,000, if that ends it.
    pub silence: Option<u32>,
    /// How many sources have a row, 1 to 1,024, if rows are short.
    pub rows: Option<u32>,
    /// Whether the rows that came last are written at the end.
    pub summary: bool,
}

/// Why a command line gives no order.
#[derive(Debug, Drop)]
pub enum OrderFault {
    /// `clap` refuses the words, or they ask for help: its own text.
    Clap(String),
    /// The value of an option is refused: the option's name without its dashes.
    Option(&'static str),
    /// Memory was asked for and refused.
    Memory,
}
