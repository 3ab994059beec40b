//! Lines and their answers, over memory.

use super::same;
use rtcp_text::{Counted, LineFault, TextFault, check};
use std::alloc::Global;
use std::process::Abort;
use std::test::Fail;

/// A check of the lines ends so, and writes this.
fn answers_with(
    rt: &impl Abort,
    alloc: Global,
    lines: &str,
    outcome: Result<(), TextFault>,
    text: &str,
) {
    let mut reader = Counted::new(lines.as_bytes());
    let mut writer = Counted::new(Vec::new(alloc));
    let found = check::check(alloc, &mut reader, &mut writer);
    assert_eq!(rt; found, outcome, "{lines}");
    same(rt, &writer.into_inner(), text.as_bytes(), lines);
}

/// Lines and their answers.
static ANSWERS: [(&str, &str); 29] = [
    // no lines
    ("", ""),
    // the empty datagram
    ("\n", "F1 Short at 0\n"),
    // a receiver report alone, in either case of hex, with and without the last line feed
    ("80c9000100000007", "ok RR(00000007,[],0)\n"),
    ("80C9000100000007\n", "ok RR(00000007,[],0)\n"),
    // with an SDES of a CNAME of one octet, and with an octet too many
    (
        "80c900010000000781ca00020000000701016100",
        "ok RR(00000007,[],0) SDES([00000007{1=61}])\n",
    ),
    (
        "80c900010000000781ca0002000000070101610000",
        "F1 Short at 20\n",
    ),
    // padding: of the first packet, and of a later one
    ("a0c900020000000700000004", "F4 FirstPadding at 0\n"),
    (
        "80c9000100000007a1cb00020000000700000004",
        "ok RR(00000007,[],0) BYE([00000007],-)\n",
    ),
    (
        "80c9000100000007a1cd000200000007aabbcc08",
        "ok RR(00000007,[],0) OTHER(205,1,0)\n",
    ),
    (
        "80c9000100000007a1cb0002000000070000000c",
        "F6 Padding at 8\n",
    ),
    // an extension, and octets that fill the word after a chunk's zero
    ("80c900020000000701020304", "ok RR(00000007,[],4)\n"),
    (
        "80c900010000000781ca0003000000070102616200ffffff",
        "ok RR(00000007,[],0) SDES([00000007{1=6162}])\n",
    ),
    // no chunks, and a chunk without items
    (
        "80c900010000000780ca0000",
        "ok RR(00000007,[],0) SDES([])\n",
    ),
    (
        "80c900010000000781ca00020000000900000000",
        "ok RR(00000007,[],0) SDES([00000009{}])\n",
    ),
    // faults by their reasons
    ("40c9000100000007", "F2 Version at 0\n"),
    ("80ca0000", "F3 FirstType at 0\n"),
    ("80c90001000000", "F5 Length at 0\n"),
    ("81c9000100000007", "F7 Body at 0\n"),
    ("80c900010000000781ca0000", "F7 Body at 8\n"),
    ("80c900010000000780ca000100000007", "F7 Body at 8\n"),
    ("80c900010000000781ca00020000000701056100", "F8 Item at 8\n"),
    ("80c900010000000781ca00020000000701026161", "F8 Item at 8\n"),
    (
        "80c900010000000781cb00020000000705616263",
        "F9 Reason at 8\n",
    ),
    // a sender report
    (
        "80c80006000000090000b705200000000000000a00000003000001e0",
        "ok SR(00000009,0000b70520000000,0000000a,3,480,[],0)\n",
    ),
    // BYEs: with a reason, with an empty one, and of nobody
    (
        "80c900010000000781cb00020000000702616200",
        "ok RR(00000007,[],0) BYE([00000007],=6162)\n",
    ),
    (
        "80c900010000000781cb00020000000700000000",
        "ok RR(00000007,[],0) BYE([00000007],=)\n",
    ),
    (
        "80c900010000000780cb0000",
        "ok RR(00000007,[],0) BYE([],-)\n",
    ),
    // a packet of an application, and one that is not looked into
    (
        "80c900010000000785cc0003000000074142434401020304",
        "ok RR(00000007,[],0) APP(5,00000007,41424344,4)\n",
    ),
    (
        "80c900010000000783cf000101020304",
        "ok RR(00000007,[],0) OTHER(207,3,4)\n",
    ),
];

/// Lines of a real conference, and their answers: the numbers are read off the octets.
static CAPTURED: [(&str, &str); 3] = [
    (
        "83c900138a4555764e1c8dc200ffffff000064660000000000000000000000005efa318e00000000000002b40000000c0eea08b40001026e76bdc50500ffffff0000066b00000000000000000000000081ca000d8a455576011175736572335f6578616d706c652e6e65740208537065616b65723306094753747265616d6572070568616c6c3100",
        "ok RR(8a455576,[4e1c8dc2/0/-1/25702/0/00000000/00000000;5efa318e/0/0/692/12/0eea08b4/0001026e;76bdc505/0/-1/1643/0/00000000/00000000],0) SDES([8a455576{1=75736572335f6578616d706c652e6e6574,2=537065616b657233,6=4753747265616d6572,7=68616c6c31}])\n",
    ),
    (
        "80c800065efa318eeead0eea08b43958772855e3000000000000000081ca00065efa318e010e6666406578616d706c652e6f726700000000",
        "ok SR(5efa318e,eead0eea08b43958,772855e3,0,0,[],0) SDES([5efa318e{1=6666406578616d706c652e6f7267}])\n",
    ),
    (
        "80c80006eb411fa0eead14f80037c569e12fc0fe000000640001900081ca000deb411fa0011175736572305f6578616d706c652e6e65740208537065616b65723006094753747265616d6572070568616c6c300081cb0001eb411fa0",
        "ok SR(eb411fa0,eead14f80037c569,e12fc0fe,100,102400,[],0) SDES([eb411fa0{1=75736572305f6578616d706c652e6e6574,2=537065616b657230,6=4753747265616d6572,7=68616c6c30}]) BYE([eb411fa0],-)\n",
    ),
];

/// Texts with a line that is no hex, its number, and the answers to the lines before.
static NO_HEX: [(&str, u64, &str); 4] = [
    ("80c9000100000007\r\n", 1, ""),
    (
        "80c9000100000007\n80c90001 00000007\n",
        2,
        "ok RR(00000007,[],0)\n",
    ),
    (
        "\n\n8\n80c9000100000007\n",
        3,
        "F1 Short at 0\nF1 Short at 0\n",
    ),
    ("80c900010000000g", 1, ""),
];

/// Each line is answered, and a text without lines is not. A line that is no hex ends the run, and the answers to the
/// lines before it stay.
#[test]
fn answers(rt: HostRuntime) {
    for (lines, answers) in ANSWERS.iter().chain(&CAPTURED) {
        answers_with(&rt, rt.alloc(), lines, Ok(()), answers);
    }
    for (lines, line, answers) in &NO_HEX {
        let fault = TextFault::Text {
            line: *line,
            fault: LineFault::Hex,
        };
        answers_with(&rt, rt.alloc(), lines, Err(fault), answers);
    }
}

/// A part and how often it is repeated, for a text; how its check ends; and an answer and how often that is given.
type Long = (
    (&'static str, usize),
    Result<(), TextFault>,
    (&'static str, usize),
);

static LONG: [Long; 4] = [
    // A line has at most 131,200 bytes: that many zeros are a datagram of 65,600 octets.
    (("0", 131_200), Ok(()), ("F10 TooLong at 0\n", 1)),
    (
        ("0", 131_201),
        Err(TextFault::Text {
            line: 1,
            fault: LineFault::LineTooLong,
        }),
        ("", 0),
    ),
    // At most 65,536 lines are looked at: any octet after them begins a line too many, a line feed included.
    (("\n", 65_536), Ok(()), ("F1 Short at 0\n", 65_536)),
    (
        ("\n", 65_537),
        Err(TextFault::Text {
            line: 65_537,
            fault: LineFault::TooManyLines,
        }),
        ("F1 Short at 0\n", 65_536),
    ),
];

/// The longest line, the most lines, and one more of each.
#[test]
fn long_texts(rt: HostRuntime) -> Result<(), Fail> {
    for ((part, parts), outcome, (answer, answers)) in &LONG {
        let lines = part.repeat(rt.alloc(), *parts)?;
        let text = answer.repeat(rt.alloc(), *answers)?;
        answers_with(&rt, rt.alloc(), &lines, *outcome, &text);
    }
    Ok(())
}
