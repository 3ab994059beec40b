//! What a host in C gives for a text of a datagram.

ghost use Rattle.std.specs.Prelude.{◌≡◌};
ghost use Rattle.jalwedd_host.specs.Texts.{rate_given};

/// The rate by which jitter is shown in milliseconds: none for 0.
pub fn rate_of(rate: u32) -> Option<u32>
    ensures { result ≡ rate_given rate }
{
    match rate {
        0 => None,
        rate => Some(rate),
    }
}
