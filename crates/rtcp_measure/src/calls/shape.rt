//! The SSRCs of the sources.

use std::fmt;
use std::fmt::Display;

/// How SSRCs lie among each other.
#[derive(Clone, Copy, Debug)]
pub enum Shape {
    /// As random ones do (RFC 3550, 8.1).
    Random,
    /// One after the other.
    Numbered,
    /// Half of them one after the other, and half far off from these.
    Clusters,
}

impl Shape {
    /// The shape of this name, if there is one.
    pub fn named(name: &str) -> Option<Shape> {
        match name {
            "random" => Some(Shape::Random),
            "numbered" => Some(Shape::Numbered),
            "clusters" => Some(Shape::Clusters),
            _ => None,
        }
    }

    /// The SSRC of a source, of so many: no two have one.
    pub fn ssrc_of(self, source: u32, sources: u32) -> u32 {
        match self {
            Shape::Random => mixed(source),
            Shape::Numbered => source.wrapping_add(0x5ee0_0000),
            Shape::Clusters => {
                if source < sources / 2 {
                    source.wrapping_add(0x2000_0000)
                } else {
                    source.wrapping_add(0xb000_0000)
                }
            }
        }
    }
}

impl Display for Shape {
    fn fmt<W: fmt::Write>(&self, f: &mut fmt::Formatter<W>) -> fmt::Result {
        f.write_str(match self {
            Shape::Random => "random",
            Shape::Numbered => "numbered",
            Shape::Clusters => "clusters",
        })
    }
}

/// The bits of a number mixed: two numbers have two.
fn mixed(number: u32) -> u32 {
    let mut mixed = number.wrapping_add(0x9e37_79b9);
    mixed = (mixed ^ (mixed >> 16)).wrapping_mul(0x85eb_ca6b);
    mixed = (mixed ^ (mixed >> 13)).wrapping_mul(0xc2b2_ae35);
    mixed ^ (mixed >> 16)
}
