//! Reasons why lines of scripts are refused, with literal texts.

use siman_scripts::{
    line_of_move, put_command_reason, put_reason, reason_of_command, reason_of_script,
};
use std::alloc::Global;

/// Texts that are no scripts, each with its reason.
const REFUSED: [(&str, &str); 42] = [
    ("", "the script ends without an exercise line"),
    (
        "exercise 1\n# none\n",
        "the script ends without a station line",
    ),
    (
        "\u{feff}exercise 1\n",
        "line 1, column 1: a byte order mark: save the file as plain ASCII, without one",
    ),
    (
        "exercise 1\n# für\n",
        "line 2, column 4: a character that is not ASCII: write plain letters, digits and signs",
    ),
    (
        "exercise\t1\n",
        "line 1, column 9: a tab: write one blank between two words",
    ),
    (
        "exercise 1\r\n",
        "line 1, column 11: the line ends with a carriage return: save the file with Unix line ends",
    ),
    (
        "exer\rcise 1\n",
        "line 1, column 5: a carriage return inside the line: remove it",
    ),
    (
        " exercise 1\n",
        "line 1, column 1: the line begins with a blank: remove it",
    ),
    (
        "exercise 1 \n",
        "line 1, column 11: the line ends with a blank: remove it",
    ),
    (
        "exercise  1\n",
        "line 1, column 10: two blanks in a row: write one",
    ),
    (
        "exercise 1 # first\n",
        "line 1, column 12: a comment behind a line: put it on a line of its own",
    ),
    (
        "exercise 1\nstation 1:1 # one\n",
        "line 2, column 13: a comment behind a line: put it on a line of its own",
    ),
    (
        "exercise 1\nSTATION 1:1\n",
        "line 2, column 1: no line begins with this word: is station meant?",
    ),
    (
        "exercise 1\nsattion 1:1\n",
        "line 2, column 1: no line begins with this word: is station meant?",
    ),
    (
        "exercise 1\nstaton1 1:1\n",
        "line 2, column 1: no line begins with this word: is station meant?",
    ),
    (
        "exercise 1\nwait 5\n",
        "line 2, column 1: no line begins with this word",
    ),
    (
        "exercise\n",
        "line 1, column 9: the line ends, and a number is expected, from 0 to 255: exercise X",
    ),
    (
        "exercise 1\nstation 1:1\nopening 1:1 7\n",
        "line 3, column 14: the line ends, and stopped or running is expected: opening S:A E stopped|running",
    ),
    (
        "exercise 1 2\n",
        "line 1, column 12: a word too many: the line is exercise X",
    ),
    (
        "exercise 256\n",
        "line 1, column 10: a number is expected, from 0 to 255",
    ),
    (
        "exercise 1\nstation 1:65535\n",
        "line 2, column 9: a station address S:A is expected, each from 1 to 65534",
    ),
    (
        "exercise 1\nstation 1:1 frst=1 tries=2 wait=5\n",
        "line 2, column 13: first=F is expected, F from 0 to 4294967295",
    ),
    (
        "exercise 1\nstation 1:1 first=1 tries=0 wait=5\n",
        "line 2, column 21: tries=T is expected, T from 1 to 4294967295",
    ),
    (
        "exercise 1\nstation 1:1 first=1 tries=2 5\n",
        "line 2, column 29: wait=W is expected, W from 0 to 18446744073709551615",
    ),
    (
        "exercise 1\nstation 1:1\nopening 1:1 65534 stopped\n",
        "line 3, column 13: an entity number is expected, from 1 to 65533",
    ),
    (
        "exercise 1\nstation 1:1\nopening 1:1 7 absent\n",
        "line 3, column 15: stopped or running is expected",
    ),
    (
        "exercise 1\nstation 1:1\nfixed 1:1 4294967296 0\n",
        "line 3, column 11: a number is expected, from 0 to 4294967295",
    ),
    (
        "exercise 1\nstation 1:1\ncreate 1:1 2:3\n",
        "line 3, column 12: an entity S:A:E is expected, each from 0 to 65535",
    ),
    (
        "exercise 1\nstation 1:1\ntell 1:1 65536\n",
        "line 3, column 10: a number is expected, from 0 to 65535",
    ),
    (
        "exercise 1\nstation 1:1\nat soon\n",
        "line 3, column 4: a number is expected, from 0 to 18446744073709551615",
    ),
    (
        "exercise 1\nstation 1:1\nquery 1:1 1:1:0 3 x\n",
        "line 3, column 19: a number is expected, from 0 to 4294967295",
    ),
    (
        "exercise 1\nstation 2:3\nstation 1:7\n",
        "line 3, column 9: the address has to be above 2:3, that of the station before: sort the station lines",
    ),
    (
        "exercise 1\nstation 1:1\nopening 1:1 7 stopped\nopening 1:1 7 running\n",
        "line 4, column 13: the entity has to be above 7, the one before at this station: sort the opening lines",
    ),
    (
        "exercise 1\nexercise 1\n",
        "line 2, column 1: a second exercise line: a script has one, the first",
    ),
    (
        "# first\nstation 1:1\n",
        "line 2, column 1: the exercise line has to come before this one",
    ),
    (
        "tick 1:1\n",
        "line 1, column 1: the exercise line has to come before this one",
    ),
    (
        "exercise 1\nstation 1:1\ntick 1:1\nstation 1:2\n",
        "line 4, column 1: a station line has to come before all lines of other kinds but the exercise line",
    ),
    (
        "exercise 1\nstation 1:1\nat 1\naction 1:1 4\n",
        "line 4, column 1: opening, fixed and action lines have to come before all at lines and moves",
    ),
    (
        "exercise 1\nstation 1:1\nopening 2:1 7 stopped\n",
        "line 3, column 9: no line says station 2:1: add one",
    ),
    (
        "exercise 1\nstation 1:1\ndeliver 0 2:1\n",
        "line 3, column 11: no line says station 2:1: add one",
    ),
    (
        "exercise 1\nstation 1:1\ntick 1:2\n",
        "line 3, column 6: no line says station 1:2: add one",
    ),
    (
        "exercise 1\nstation 1:1\nset 1:1 1:1:0 3\n",
        "line 3, column 16: the line ends, and a number is expected, from 0 to 4294967295: set S:A S:A:E ID VALUE",
    ),
];

/// Lines that are no orders for a station, each with its reason.
const NO_ORDERS: [(&str, &str); 4] = [
    ("station 1:1", "column 1: station is no order for a station"),
    ("deliver x", "column 1: deliver is no order for a station"),
    (
        "tell 1:1 x",
        "column 10: a number is expected, from 0 to 65535",
    ),
    (
        "qury 1:1 1:1:0 3",
        "column 1: no line begins with this word: is query meant?",
    ),
];

/// Whether a text is refused for this reason, both written and displayed.
fn is_refused_so(alloc: Global, text: &str, told: &str) -> bool {
    let Ok(Some(reason)) = reason_of_script(alloc, text.as_bytes()) else {
        return false;
    };
    let Ok(shown) = format!(in alloc; "{reason}") else {
        return false;
    };
    let mut written = Vec::new(alloc);
    put_reason(&mut written, reason).is_ok()
        && written.as_slice() == told.as_bytes()
        && shown.as_str() == told
}

/// Whether a line is refused as an order for this reason, both written and displayed.
fn is_no_order_so(alloc: Global, line: &str, told: &str) -> bool {
    let Ok(Some(reason)) = reason_of_command(alloc, line.as_bytes()) else {
        return false;
    };
    let Ok(shown) = format!(in alloc; "{reason}") else {
        return false;
    };
    let mut written = Vec::new(alloc);
    put_command_reason(&mut written, reason).is_ok()
        && written.as_slice() == told.as_bytes()
        && shown.as_str() == told
}

#[test]
fn refusals_have_reasons(rt: HostRuntime) {
    for (text, told) in REFUSED {
        assert!(rt; is_refused_so(rt.alloc(), text, told), "{told}");
    }
    for (line, told) in NO_ORDERS {
        assert!(rt; is_no_order_so(rt.alloc(), line, told), "{told}");
    }
}

/// A script with a comment and an `at` line between its moves.
const SCRIPT: &str =
    "exercise 1\nstation 1:1\n\n# moves\ntick 1:1\nat 5\ntell 1:1 7\ndeliver 0 1:1";

#[test]
fn scripts_have_no_reason(rt: HostRuntime) {
    let text = SCRIPT.as_bytes();
    assert!(rt; matches!(reason_of_script(rt.alloc(), text), Ok(None)));
    assert!(rt; matches!(reason_of_command(rt.alloc(), b"tell 1:1 7"), Ok(None)));
    assert!(rt; matches!(line_of_move(rt.alloc(), text, 0), Ok(Some(5))));
    assert!(rt; matches!(line_of_move(rt.alloc(), text, 1), Ok(Some(7))));
    assert!(rt; matches!(line_of_move(rt.alloc(), text, 2), Ok(Some(8))));
    assert!(rt; matches!(line_of_move(rt.alloc(), text, 3), Ok(None)));
}
