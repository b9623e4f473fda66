// Lines of a report and whole reports, read back.
use crate::answers::spelled;
use exchange_events::{Answer, Kept};
use report_reader::{ReportFault, read_report, read_report_line};
use report_text::append_answer;
use std::alloc::{AllocError, Global};
use std::test::Fail;

// The maximum number of bytes of a report in these tests.
const LONGEST: usize = 100;

// Lines that encode an answer. In these texts `+` means 28 idle octets.
const READ: [&str; 17] = [
    "1 granted 0 62",
    "1 granted 4294967295 0",
    "20 busy",
    "300 seated 7 0",
    "4000 noport",
    "50000 freed",
    "65535 notnailed",
    "5 message",
    "5 message moved 62 1",
    "12 message 31:AB",
    "3 message moved 0 0 1:080200010F 0:0802800107",
    "6 message 0:++++",
    "7 frame 0",
    "7 frame 4294967295 0:2AD5+ 9:D5+0F 31:FE+BC",
    "7 frame 3 send 1:AB",
    "8 frame 0 send 31:080200014D send 9:AB 0:2AD5+ 9:D5+0F",
    "8 frame 0 send 9:D5D5+ 8:2AD5+",
];

// Lines that encode none, though each is nearly one that does: by its number, its spaces, its word, the octets after
// the word, its messages, its parts.
const UNREAD: [&str; 64] = [
    "0 busy",
    "01 busy",
    "65536 busy",
    "4294967297 busy",
    "-1 busy",
    "+1 busy",
    "busy",
    "",
    "1",
    "1 ",
    " 1 busy",
    "1  busy",
    "1\tbusy",
    "1 busy ",
    "1 busy\r",
    "1 busy\n",
    "1 Busy",
    "1 bus",
    "1 busyy",
    "1 no port",
    "1 busy 0",
    "1 freed 0 0",
    "1 granted",
    "1 granted 0",
    "1 granted 0 ",
    "1 granted 0 0 ",
    "1 granted 0 0 0",
    "1 granted 0  0",
    "1 granted 00 0",
    "1 granted 0 4294967296",
    "1 seated 0,0",
    "1 message ",
    "1 message moved",
    "1 message moved 0",
    "1 message moved 0 0 moved 0 0",
    "1 message 1:AB moved 0 0",
    "1 message 1:",
    "1 message 1:A",
    "1 message 1:ABC",
    "1 message 1:ab",
    "1 message 1:AG",
    "1 message 1: AB",
    "1 message 1 AB",
    "1 message 1:AB ",
    "1 message 01:AB",
    "1 message 32:AB",
    "1 message 1:++++AB",
    "1 message send 1:AB",
    "1 frame",
    "1 frame ",
    "1 frame 00",
    "1 frame 4294967296",
    "1 frame 0 ",
    "1 frame 0 moved 0 0",
    "1 frame 0 send",
    "1 frame 0 send 1:",
    "1 frame 0 send 32:AB",
    "1 frame 0 1:2AD5+ send 1:AB",
    "1 frame 0 0:2A+",
    "1 frame 0 0:2AD5D5+",
    "1 frame 0 0:D5D5+",
    "1 frame 0 1:2AD5+ 0:2AD5+",
    "1 frame 0 1:2AD5+ 1:2AD5+",
    "1 frame 0 32:2AD5+",
];

// The result of reading a line.
#[derive(Clone, Copy, PartialEq, Eq)]
enum Came {
    // The line encodes no answer.
    Nothing,
    // The line encodes an answer, whose line is the same.
    Back,
    // The line encodes an answer, whose line is another one.
    Changed,
}

fn read_back(alloc: Global, line: &[u8]) -> Result<Came, AllocError> {
    let Some(answer) = read_report_line(alloc, line)? else {
        return Ok(Came::Nothing);
    };
    let mut printed = Vec::new(alloc);
    append_answer(&mut printed, &answer)?;
    if printed.as_slice().strip_suffix(b"\n") == Some(line) {
        Ok(Came::Back)
    } else {
        Ok(Came::Changed)
    }
}

fn comes(alloc: Global, text: &str) -> Result<Came, AllocError> {
    let line = spelled(alloc, text)?;
    read_back(alloc, line.as_slice())
}

// Returns whether each of these texts has this result.
fn all_come(alloc: Global, texts: &[&str], wanted: Came) -> Result<bool, AllocError> {
    for text in texts {
        if comes(alloc, text)? != wanted {
            return Ok(false);
        }
    }
    Ok(true)
}

#[test]
fn what_spells_an_answer_is_read(rt: HostRuntime) -> Result<(), Fail> {
    assert!(rt; all_come(rt.alloc(), &READ, Came::Back)?);
    Ok(())
}

#[test]
fn what_spells_none_is_not_read(rt: HostRuntime) -> Result<(), Fail> {
    assert!(rt; all_come(rt.alloc(), &UNREAD, Came::Nothing)?);
    Ok(())
}

// Returns whether a line is read as none or as itself, if any one octet is replaced by any of these octets.
fn keeps_to_itself(alloc: Global, line: &mut Vec<u8>) -> Result<bool, AllocError> {
    for place in 0..line.len() {
        let own = line[place];
        for octet in *b" 019:AFasm\n" {
            line[place] = octet;
            if read_back(alloc, line.as_slice())? == Came::Changed {
                return Ok(false);
            }
        }
        line[place] = own;
    }
    Ok(true)
}

fn all_keep_to_themselves(alloc: Global, texts: &[&str]) -> Result<bool, AllocError> {
    for text in texts {
        let mut line = spelled(alloc, text)?;
        if !keeps_to_itself(alloc, &mut line)? {
            return Ok(false);
        }
    }
    Ok(true)
}

#[test]
fn a_line_with_another_octet_is_none_or_itself(rt: HostRuntime) -> Result<(), Fail> {
    assert!(rt; all_keep_to_themselves(rt.alloc(), &READ)?);
    Ok(())
}

// Returns whether the answer is the second event's, of a message that moved paths, with one message to line 31.
fn is_sent(answer: &Answer) -> bool {
    let Kept::Sent {
        sends,
        moved,
        records,
    } = &answer.reply
    else {
        return false;
    };
    let [signal] = sends.as_slice() else {
        return false;
    };
    answer.event == 2
        && *moved == Some((3, 1))
        && signal.line == 31
        && signal.octets.as_slice() == b"\x08\xAB".as_slice()
        && records.as_slice().is_empty()
        && answer.octets.as_slice().is_empty()
}

// Returns whether it is the third event's, of frame 7, in which only line 1 sends octets other than idle.
fn is_frame(answer: &Answer) -> bool {
    let Kept::Frame {
        number,
        sends,
        records,
    } = &answer.reply
    else {
        return false;
    };
    let [first, second] = answer.octets.as_slice() else {
        return false;
    };
    answer.event == 3
        && *number == 7
        && sends.as_slice().len() == 1
        && records.as_slice().is_empty()
        && first.iter().all(|octet| *octet == 0xD5)
        && second[0] == 0x2A
        && second[1..].iter().all(|octet| *octet == 0xD5)
}

fn reads_a_message(alloc: Global, text: &str) -> Result<bool, AllocError> {
    let line = spelled(alloc, text)?;
    let Some(answer) = read_report_line(alloc, line.as_slice())? else {
        return Ok(false);
    };
    Ok(is_sent(&answer))
}

fn reads_a_frame(alloc: Global, text: &str) -> Result<bool, AllocError> {
    let line = spelled(alloc, text)?;
    let Some(answer) = read_report_line(alloc, line.as_slice())? else {
        return Ok(false);
    };
    Ok(is_frame(&answer))
}

#[test]
fn an_answer_has_what_its_line_tells(rt: HostRuntime) -> Result<(), Fail> {
    let alloc = rt.alloc();
    assert!(rt; reads_a_message(alloc, "2 message moved 3 1 31:08AB")?);
    assert!(rt; reads_a_frame(alloc, "3 frame 7 send 0:08 1:2AD5+")?);
    Ok(())
}

// Reports, and the number of answers of each.
const WHOLE: [(&str, usize); 3] = [("", 0), ("1 busy\n", 1), ("2 busy\n1 busy\n2 freed\n", 3)];

// Reports with a wrong line, and the number of the first one.
const FAULTY: [(&str, u32); 8] = [
    ("1 busy\n2 freed", 2),
    ("1 busy\n2 freed\n\n", 3),
    ("1 busy\n\n2 freed\n", 2),
    ("1 busy \n2 freed\n", 1),
    ("1 busy\r\n2 freed\r\n", 1),
    ("1 busy\n2 fred\n0 busy\n", 2),
    ("\n", 1),
    ("1 busy", 1),
];

// Returns whether a report has this many answers.
fn has_answers(alloc: Global, report: &[u8], count: usize) -> Result<bool, AllocError> {
    if report.len() > LONGEST {
        return Ok(false);
    }
    match read_report(alloc, report) {
        Ok(answers) => Ok(answers.len() == count),
        Err(ReportFault::Line(_)) => Ok(false),
        Err(ReportFault::Memory) => Err(AllocError),
    }
}

fn have_answers(alloc: Global, reports: &[(&str, usize)]) -> Result<bool, AllocError> {
    for (report, count) in reports {
        if !has_answers(alloc, report.as_bytes(), *count)? {
            return Ok(false);
        }
    }
    Ok(true)
}

// Returns whether this is the first wrong line of a report.
fn is_faulty_at(alloc: Global, report: &[u8], line: u32) -> Result<bool, AllocError> {
    if report.len() > LONGEST {
        return Ok(false);
    }
    match read_report(alloc, report) {
        Ok(_) => Ok(false),
        Err(ReportFault::Line(number)) => Ok(number == line),
        Err(ReportFault::Memory) => Err(AllocError),
    }
}

fn are_faulty(alloc: Global, reports: &[(&str, u32)]) -> Result<bool, AllocError> {
    for (report, line) in reports {
        if !is_faulty_at(alloc, report.as_bytes(), *line)? {
            return Ok(false);
        }
    }
    Ok(true)
}

#[test]
fn a_report_is_read_or_has_a_first_faulty_line(rt: HostRuntime) -> Result<(), Fail> {
    assert!(rt; have_answers(rt.alloc(), &WHOLE)?);
    assert!(rt; are_faulty(rt.alloc(), &FAULTY)?);
    Ok(())
}
