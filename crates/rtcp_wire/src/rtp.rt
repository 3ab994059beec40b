//! RTP packets (RFC 3550, 5.1 and 5.3.1): what their header says, and where their payload stands. Nothing is
//! copied or allocated.

mod fault;
mod fixed;
mod head;

pub use fault::RtpFault;
pub use head::RtpHead;
