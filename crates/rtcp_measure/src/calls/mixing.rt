//! What is mixed of the answers to single calls: less than for jobs, so that the calls are most of what is measured.

use crate::digest::Digest;
use rtcp_engine::Reply;
use rtcp_members::SourceState;

/// Mixes what a call answered, but for its compound.
pub fn mix_reply(digest: &mut Digest, reply: &Reply) {
    match reply {
        Ok(told) => {
            let standing = told.standing;
            let counts = (u64::from(standing.members) << 48) ^ (u64::from(standing.senders) << 32);
            let entries = (u64::from(standing.entries) << 16) ^ u64::from(told.others_changed);
            digest.number(counts ^ entries ^ standing.next.unwrap_or(0));
        }
        Err(_) => digest.number(u64::MAX),
    }
}

/// Mixes most of what is told of a source.
pub fn mix_source(digest: &mut Digest, state: &SourceState) {
    let received = state.reception.map_or(0, |reception| {
        reception.received ^ (reception.octets << 20)
    });
    let told = state.told.map_or(0, |told| u64::from(told.rtp) << 16);
    let block = state.last_block.map_or(0, |block| {
        (u64::from(block.fraction) << 56) ^ (u64::from(block.highest) << 24)
    });
    digest.number((u64::from(state.ssrc) << 32) ^ state.heard ^ received ^ told ^ block);
}
