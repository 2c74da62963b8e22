//! Reasons of failed calls of a link and of failed lines of a session, with literal texts, written
//! by writers that fail at each of their calls.

ghost use Rattle.std.specs.Prelude.{◌≡◌, ◌+◌, length, IfOk};
ghost use Rattle.siman_operator.specs.declared.reading.TheConstants.{LONGEST_LINE};

use dis_records::Address;
use siman_lines::{LineCall, LineTrouble, MemoryLine, put_line_trouble};
use siman_operator::{LONGEST_LINE, WaitUnit, attach_station, record_session, set_up};
use siman_scripts::read_script;
use siman_trials::{Calls, WELL, read_from, write_to};
use std::alloc::{AllocError, Global};
use std::io::ErrorKind;
use std::net::{Ipv4Addr, SocketAddrV4};

/// Failed calls of a link: the call, whether its peer is known, the error, and the reason.
const TROUBLES: [(LineCall, bool, ErrorKind, &str); 6] = [
    (
        LineCall::Send,
        true,
        ErrorKind::NetworkUnreachable,
        "sending to 10.0.255.2:3000: no route",
    ),
    (
        LineCall::Send,
        true,
        ErrorKind::PermissionDenied,
        "sending to 10.0.255.2:3000: permission denied",
    ),
    (LineCall::Send, false, ErrorKind::Other, "sending: failed"),
    (
        LineCall::Receive,
        false,
        ErrorKind::NetworkDown,
        "receiving: the network is down",
    ),
    (
        LineCall::Receive,
        false,
        ErrorKind::ConnectionRefused,
        "receiving: refused by the other side",
    ),
    (
        LineCall::Receive,
        true,
        ErrorKind::Uncategorized,
        "receiving from 10.0.255.2:3000: failed",
    ),
];

/// Calls of a writer that takes one byte at a time, of which the call with this number fails.
fn failing_at(call: usize) -> Calls {
    Calls {
        most: 1,
        fails_at: call as u64,
        kind: Some(ErrorKind::Other),
    }
}

/// Whether the reason of a failed call is this text, and a writer that fails has the text before
/// the byte that failed.
fn is_told(alloc: Global, trouble: LineTrouble, text: &[u8]) -> bool {
    for call in 1..=text.len() {
        let mut writer = write_to(alloc, failing_at(call));
        let is_put = put_line_trouble(&mut writer, trouble).is_ok();
        if is_put || writer.bytes.as_slice() != &text[..call - 1] {
            return false;
        }
    }
    let mut writer = write_to(alloc, WELL);
    put_line_trouble(&mut writer, trouble).is_ok() && writer.bytes.as_slice() == text
}

#[test]
fn failed_calls_are_printed(rt: HostRuntime) {
    let address = SocketAddrV4::new(Ipv4Addr::new(10, 0, 255, 2), 3000);
    for (call, has_peer, kind, text) in TROUBLES {
        let peer = if has_peer { Some(address) } else { None };
        let trouble = LineTrouble { call, peer, kind };
        assert!(rt; is_told(rt.alloc(), trouble, text.as_bytes()), "{text}");
    }
}

/// The script of a session, its lines, and the faults that it writes.
const SCRIPT: &str = "exercise 1\nstation 1:1 first=4294967295 tries=1 wait=0\n";

const LINES: &str =
    "tel 1:1 7\ntick 2:3\ntell 1:1 0\n# none\ncreate 1:1 2:3:7\ncreate 1:1 2:3:8\nat  5\nstation 1:1\ntell 1:1 7\n";

const TOLD: &str = concat!(
    "line 1: bad-line\n",
    "  column 1: no line begins with this word: is tell meant?\n",
    "line 2: unknown-station\n",
    "  this session plays station 1:1 alone\n",
    "line 3: no-such-entity\n",
    "  the number of an entity is from 1 to 65533\n",
    "warning: line 5: the script has no station 2:3: add it there, or see whether the address is right\n",
    "line 6: ids-spent\n",
    "  no request identifier is left after 4294967295: begin a new exercise with a lower first=F\n",
    "line 7: bad-line\n",
    "  column 4: two blanks in a row: write one\n",
    "line 8: bad-line\n",
    "  column 1: station is no order for a station\n",
);

/// Room for a line of a session.
fn room_of(alloc: Global) -> Result<Vec<u8>, AllocError>
    ensures { IfOk result (λ room. length room.items ≡ LONGEST_LINE + 1) }
{
    vec![in alloc; 0u8; LONGEST_LINE + 1]
}

/// The faults that a session of these lines writes by a writer with such calls.
fn reported_by(alloc: Global, calls: Calls) -> Option<Vec<u8>> {
    let address = Address::new(1, 1)?;
    let script = read_script(alloc, SCRIPT.as_bytes()).ok()?;
    let station = set_up(alloc, script, address, WaitUnit::AsSaid).ok()?;
    let line = MemoryLine::new(alloc, Vec::new(alloc), None);
    let ready = attach_station(alloc, station, address, line, false).ok()?;
    let Ok(mut room) = room_of(alloc) else {
        drop(ready);
        return None;
    };
    let mut input = read_from(LINES.as_bytes(), WELL);
    let mut out = Vec::new(alloc);
    let mut errors = write_to(alloc, calls);
    let file = Vec::new(alloc);
    let recorded = record_session(
        alloc,
        ready,
        file,
        &mut input,
        &mut room,
        &mut out,
        &mut errors,
    );
    drop(recorded);
    Some(errors.bytes)
}

/// Whether a session writes exactly this by a writer with such calls.
fn tells(alloc: Global, calls: Calls, told: &[u8]) -> bool {
    match reported_by(alloc, calls) {
        Some(bytes) => bytes.as_slice() == told,
        None => false,
    }
}

#[test]
fn lines_that_are_not_done_are_explained(rt: HostRuntime) {
    let told = TOLD.as_bytes();
    assert!(rt; tells(rt.alloc(), WELL, told));
    for call in 1..=told.len() {
        assert!(rt;
            tells(rt.alloc(), failing_at(call), &told[..call - 1]),
            "{call}"
        );
    }
}
