//! Random scripts, some of them spoilt.

use crate::input::RandomInput;

/// Lines for what a station begins with.
const SETTINGS: [&str; 8] = [
    "opening F:1 E running\n",
    "opening 2:1 1 stopped\nopening 2:1 3 running\n",
    "fixed F:1 5 E\n",
    "action 1:1 6\naction 3:1 7\n",
    "",
    "",
    "",
    "",
];

/// Lines with orders of one station to another.
const ORDERS: [&str; 8] = [
    "create F:1 T:1:E\n",
    "create F:1 T:1:E\n",
    "create F:1 T:1:E\n",
    "start F:1 T:1:E\n",
    "stop F:1 65535:65535:E\n",
    "remove F:1 T:1:E\n",
    "do F:1 T:1:E 6\nquery F:1 T:1:0 5 6 5\n",
    "set F:1 T:1:0 5 E\n",
];

/// Lines of a station, by the throw of a die.
const STATIONS: [&str; 4] = [
    "station F:1 first=4294967294 tries=1 wait=0\n",
    "station F:1 first=9 tries=2 wait=3\n",
    "station F:1\n",
    "station F:1\n",
];

/// Appends the lines of the stations 1:1 to 3:1, and those for what one of them begins with.
fn put_stations(input: &mut RandomInput) {
    input.put(b"exercise 1\n");
    for site in 1..4usize {
        let form = STATIONS[input.random.below(4) % 4];
        input.put_lines(form, site, 0, 0);
    }
    let (site, entity) = (input.random.below(4), input.random.below(4));
    let form = SETTINGS[input.random.below(8) % 8];
    input.put_lines(form, site.saturating_add(1), 0, entity);
}

/// Appends a random order of one station to another.
fn put_order(input: &mut RandomInput) {
    let from = input.random.below(3).saturating_add(1);
    let to = input.random.below(4).saturating_add(1);
    let entity = match input.random.below(6) {
        0 => 65535,
        1 => 65534,
        entity => entity,
    };
    let form = ORDERS[input.random.below(8) % 8];
    input.put_lines(form, from, to, entity);
}

/// Appends a random move that is no order, behind moves that sent at least `sends` datagrams.
fn put_move(input: &mut RandomInput, sends: usize) {
    let site = input.random.below(3).saturating_add(1);
    let mut number = input.random.below(30);
    let form = match input.random.below(8) {
        0 => "at E\n",
        1 => "tick F:1\n",
        2 => "tell F:1 E\n",
        _ if sends > 0 => {
            number = input.random.below(sends);
            "deliver E F:1\n"
        }
        _ => "# nothing is sent\n",
    };
    input.put_lines(form, site, 0, number);
}

/// Appends a random script, and spoils some.
pub fn put_random_script(input: &mut RandomInput) {
    put_stations(input);
    let mut sends = 0usize;
    for _ in 0..input.random.below(16) {
        if input.random.one_in(3) {
            put_order(input);
            sends = sends.saturating_add(1);
        } else {
            put_move(input, sends);
        }
    }
    let ways = input.random.below(12).saturating_sub(9);
    input.spoil(ways);
}
