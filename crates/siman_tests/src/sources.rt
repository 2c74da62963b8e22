//! Sources in the wider language of scripts, and reasons why lines of them are refused, with literal
//! texts.

use byte_files::put_placed;
use siman_plans::{SourceFault, placed_source_reason, read_source, reason_of_source};
use std::alloc::Global;

/// Texts that are no sources, each with its reason.
const REFUSED: [(&str, &str); 14] = [
    ("", "the script ends without an exercise line"),
    (
        "exercise 1\n# x\n",
        "the script ends without a station line",
    ),
    (
        "exercise 1\nstation 1:1 tries=1 wait=2 tries=3\n",
        "line 2, column 28: a rule that the line gives twice: give it once",
    ),
    (
        "exercise 1\nstation 1:1 try=1\n",
        "line 2, column 13: first=F, tries=T or wait=W is expected",
    ),
    (
        "exercise 1\nstation 1:1 tries=0\n",
        "line 2, column 13: tries=T is expected, T from 1 to 4294967295",
    ),
    (
        "exercise 1\nstation 1:1 wait=18446744073709551616\n",
        "line 2, column 13: wait=W is expected, W from 0 to 18446744073709551615",
    ),
    (
        "exercise 1\nstation\n",
        "line 2, column 8: the line ends, and a station address S:A is expected, each from 1 to 65534: station S:A, or station S:A first=F tries=T wait=W",
    ),
    (
        "exercise 1\nstation 1:1 as x\n",
        "line 2, column 13: first=F, tries=T or wait=W is expected",
    ),
    (
        "deliver 0 again\n",
        "line 1, column 1: the exercise line has to come before this one",
    ),
    (
        "lose 0\n",
        "line 1, column 1: the exercise line has to come before this one",
    ),
    (
        "tick 1:1\n",
        "line 1, column 1: the exercise line has to come before this one",
    ),
    (
        "at 5\n",
        "line 1, column 1: the exercise line has to come before this one",
    ),
    (
        "exercise 1\nexercise 2 # x\n",
        "line 2, column 1: a second exercise line: a script has one, the first",
    ),
    (
        "exercise 1\nstation 1:1\nfixed 3:3 1 2 # no\n",
        "line 3, column 7: no line says station 3:3: add one",
    ),
];

/// What is before the lines below.
const SETUP: &str = "exercise 1\nstation 1:1\nstation 2:3\n";

/// Lines behind these that make no source, each with its reason.
const REFUSED_BEHIND: [(&str, &str); 39] = [
    (
        "create 1:1 1:all\n",
        "line 4, column 12: an entity S:A:E is expected, each from 0 to 65535",
    ),
    (
        "create 1:1 x:1:all\n",
        "line 4, column 12: an entity S:A:E is expected, each from 0 to 65535",
    ),
    (
        "tick 1:1 für\n",
        "line 4, column 11: a character that is not printable ASCII: only a comment, which begins with # behind a blank, may have any",
    ),
    (
        "tick\x011:1\n",
        "line 4, column 5: a character that is not printable ASCII: only a comment, which begins with # behind a blank, may have any",
    ),
    (
        "tick\r1:1\n",
        "line 4, column 5: a character that is not printable ASCII: only a comment, which begins with # behind a blank, may have any",
    ),
    (
        "tick 1:1\r\r\n",
        "line 4, column 9: a character that is not printable ASCII: only a comment, which begins with # behind a blank, may have any",
    ),
    (
        "tick 1:1 as 9a\n",
        "line 4, column 13: a label is expected: a letter, then letters, digits, - or _, at most 64 in all, and not answer, again, as or all",
    ),
    (
        "tick 1:1 as all\n",
        "line 4, column 13: a label is expected: a letter, then letters, digits, - or _, at most 64 in all, and not answer, again, as or all",
    ),
    (
        "tick 1:1 as aaaaaaaaaaaaaaaaaaaaaaaaaaaaaaaaaaaaaaaaaaaaaaaaaaaaaaaaaaaaaaaa\ntick 1:1 as aaaaaaaaaaaaaaaaaaaaaaaaaaaaaaaaaaaaaaaaaaaaaaaaaaaaaaaaaaaaaaaaa\n",
        "line 5, column 13: a label is expected: a letter, then letters, digits, - or _, at most 64 in all, and not answer, again, as or all",
    ),
    (
        "tick 1:1 as a\ntick 1:1 as a\n",
        "line 5, column 13: a line before has this label: choose another",
    ),
    (
        "tick 1:1 as\n",
        "line 4, column 10: a word too many: the line is tick S:A",
    ),
    (
        "tell 1:1 7 as x\n",
        "line 4, column 12: a word too many: the line is tell S:A E",
    ),
    (
        "at 7 as x\n",
        "line 4, column 6: a word too many: the line is at N",
    ),
    (
        "deliver x 1:1\ntick 1:1 as x\n",
        "line 4, column 9: no line before has this label",
    ),
    (
        "deliver answer(x) 1:1\n",
        "line 4, column 9: no line before has this label",
    ),
    (
        "deliver answer() 1:1\n",
        "line 4, column 9: a datagram is expected: its number, a label of a line before, or answer(LABEL)",
    ),
    (
        "deliver answer(x 1:1\n",
        "line 4, column 9: a datagram is expected: its number, a label of a line before, or answer(LABEL)",
    ),
    (
        "deliver 4294967296 1:1\n",
        "line 4, column 9: a datagram is expected: its number, a label of a line before, or answer(LABEL)",
    ),
    (
        "deliver\n",
        "line 4, column 8: a datagram is expected: its number, a label of a line before, or answer(LABEL)",
    ),
    (
        "deliver 0\n",
        "line 4, column 10: a station address S:A, each from 1 to 65534, or again is expected",
    ),
    (
        "deliver 0 1:0\n",
        "line 4, column 11: a station address S:A, each from 1 to 65534, or again is expected",
    ),
    (
        "deliver 0 7:7\n",
        "line 4, column 11: no line says station 7:7: add one",
    ),
    (
        "deliver 0 again x\n",
        "line 4, column 17: a word too many: the line is deliver WHAT S:A, deliver WHAT again or lose WHAT",
    ),
    (
        "deliver 0 7:7 \n",
        "line 4, column 11: no line says station 7:7: add one",
    ),
    (
        "lose\n",
        "line 4, column 5: a datagram is expected: its number, a label of a line before, or answer(LABEL)",
    ),
    (
        "lose 0 1:1\n",
        "line 4, column 8: a word too many: the line is deliver WHAT S:A, deliver WHAT again or lose WHAT",
    ),
    (
        "tick 1:1\nstation 3:1 wait=1\n",
        "line 5, column 1: a station line has to come before all lines of other kinds but the exercise line",
    ),
    (
        "station 2:3 wait=1\n",
        "line 4, column 9: the address has to be above 2:3, that of the station before: sort the station lines",
    ),
    (
        "start 9:9 all as x\n",
        "line 4, column 7: no line says station 9:9: add one",
    ),
    (
        "tick 1:1#x\n",
        "line 4, column 6: a station address S:A is expected, each from 1 to 65534",
    ),
    (
        "start 1:1 all 5 as x\n",
        "line 4, column 15: a word too many: the line is start S:A S:A:E",
    ),
    (
        "do 1:1 all as x\n",
        "line 4, column 12: the line ends, and a number is expected, from 0 to 4294967295: do S:A S:A:E ACTION",
    ),
    (
        "delvier x 1:1\n",
        "line 4, column 1: no line begins with this word: is deliver meant?",
    ),
    (
        "losse x\n",
        "line 4, column 1: no line begins with this word",
    ),
    (
        "lose 0\nopening 1:1 7 stopped\n",
        "line 5, column 1: opening, fixed and action lines have to come before all at lines and moves",
    ),
    (
        "tick 1:1 as as\n",
        "line 4, column 13: a label is expected: a letter, then letters, digits, - or _, at most 64 in all, and not answer, again, as or all",
    ),
    (
        "as x\n",
        "line 4, column 1: no line begins with this word: is at meant?",
    ),
    (
        "tick as x\n",
        "line 4, column 6: the line ends, and a station address S:A is expected, each from 1 to 65534: tick S:A",
    ),
    (
        "tick 1:1 as #x\n",
        "line 4, column 10: a word too many: the line is tick S:A",
    ),
];

/// Sources.
const SOURCES: [&str; 10] = [
    "\u{feff}exercise 1\nstation 1:1\nstation 2:3\ntick 1:1\r\n\tdeliver  0\t2:3  # für\r\n",
    "exercise 1\nstation 1:1 first=5 tries=2 wait=7\nopening 1:1 7 stopped\nfixed 1:1 1 2\naction 1:1 9\nat 3\ndo 1:1 1:1:7 9\nquery 1:1 1:1:0 1 2\nset 1:1 1:1:0 1 2\ncreate 1:1 1:1:8\nremove 1:1 1:1:8\nstart 1:1 1:1:7\nstop 1:1 1:1:7\ntick 1:1\ntell 1:1 7\ndeliver 0 1:1\n# c\n\n#x\r\n",
    "\texercise   1 # x\n station\t1:1 wait=7 # q\nstation 1:2 tries=9 first=0004\n opening  1:1 7 stopped\nfixed  1:1 1 2\naction  1:1 9\nat  3\ndo 1:1  all 9 as a\nquery 1:1 1:1:all 1 2 as b1\nset 1:1 all 1 2 as c_-9\ncreate 1:1 all\nremove 1:1 7:7:all\n",
    "exercise 1\nstation 1:1\nstation 2:3\nstart 1:1 1:65535:all as z\nstop 1:1 all\n",
    "exercise 1\nstation 1:1\nstation 2:3\ndeliver 4294967295 1:1\nlose 000\n",
    "exercise 1\nstation 1:1\nstation 2:3\ndeliver 0 again\nlose 0 # meant\n",
    "exercise 1\nstation 1:1\nstation 2:3\n",
    "exercise 1\nstation 1:1 wait=18446744073709551615 tries=4294967295 first=4294967295\n",
    "exercise 1\nstation 1:1\nstation 2:3\n\r\n \t\n\t# c\n",
    "exercise 1\nstation 1:1\nstation 2:3\ntick 1:1 as x # c\ndeliver x 1:1 #c\n",
];

/// Whether a text is refused for this reason, both written and displayed.
fn is_refused_so(alloc: Global, text: &[u8], told: &str) -> bool {
    let Ok(Some(reason)) = reason_of_source(alloc, text) else {
        return false;
    };
    let Ok(shown) = format!(in alloc; "{reason}") else {
        return false;
    };
    let Err(SourceFault::BadLine(line)) = read_source(alloc, text) else {
        return false;
    };
    let mut written = Vec::new(alloc);
    put_placed(&mut written, placed_source_reason(reason)).is_ok()
        && written.as_slice() == told.as_bytes()
        && shown.as_str() == told
        && line == reason.line
}

/// A text with these lines behind those of the exercise and two stations.
fn behind_setup(alloc: Global, lines: &str) -> Vec<u8> {
    let mut text = Vec::new(alloc);
    if text.extend_from_slice(SETUP.as_bytes()).is_err()
        || text.extend_from_slice(lines.as_bytes()).is_err()
    {
        return Vec::new(alloc);
    }
    text
}

#[test]
fn refused_sources_have_reasons(rt: HostRuntime) {
    for (text, told) in REFUSED {
        assert!(rt; is_refused_so(rt.alloc(), text.as_bytes(), told), "{told}");
    }
    for (lines, told) in REFUSED_BEHIND {
        let text = behind_setup(rt.alloc(), lines);
        assert!(rt; is_refused_so(rt.alloc(), text.as_slice(), told), "{told}");
    }
}

#[test]
fn sources_have_no_reason(rt: HostRuntime) {
    for text in SOURCES {
        assert!(rt;
            matches!(reason_of_source(rt.alloc(), text.as_bytes()), Ok(None)),
            "{text}"
        );
    }
}

#[test]
fn bytes_that_are_not_utf8_are_refused(rt: HostRuntime) {
    let text = b"exercise 1\n# f\xfcr\n";
    let told = "line 2, column 4: bytes that are not UTF-8: save the file as UTF-8";
    assert!(rt; is_refused_so(rt.alloc(), text, told));
}
