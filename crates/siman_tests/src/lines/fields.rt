//! Rows of fields that a type holds: every value, every shape, a row that begins with a field, and
//! one without its end.

use dis_records::{ClockTime, EntityId, EntityState, Kind, SiteApplication};
use siman_print::{
    Clock, ClockOption, Named, NumberedReason, OtherReason, Spelling, TextLine, Word, bare, called,
    keyed, put_front, put_opened_row, put_row,
};
use std::alloc::Global;

const ENTITY: EntityId = EntityId {
    site: 65_535,
    application: 1,
    entity: 7,
};

const TIME: ClockTime = ClockTime { hour: 3, past: 5 };

const PLACE: SiteApplication = SiteApplication {
    site: 2,
    application: 4,
};

const TEXT: &str =
    "line n=4294967295 clock=9007199254740993 took=- fate=lost kind=data state=running id=65535:1:7 at=2:4 real=3/5 response=1(able) result=9 explained=yes left=no got=- why=exercise:2 why=flag\n";

const JSON: &str =
    "{\"line\":\"line\",\"n\":4294967295,\"clock\":\"9007199254740993\",\"took\":null,\"fate\":\"lost\",\"kind\":\"data\",\"state\":\"running\",\"id\":\"65535:1:7\",\"at\":\"2:4\",\"real\":\"3/5\",\"response\":1,\"response_name\":\"able\",\"result\":9,\"result_name\":null,\"explained\":true,\"left\":false,\"got\":null,\"why\":\"exercise:2\",\"why\":\"flag\"}\n";

/// A row with each value, in a spelling.
fn row_of_values(alloc: Global, spelling: Spelling) -> Option<String> {
    let clocks = (
        keyed!("n", 4_294_967_295u32),
        // Above 2^53, where a reader that takes it for a number loses its last bit.
        keyed!("clock", Clock(9_007_199_254_740_993)),
        keyed!("took", ClockOption(None)),
    );
    let words = (
        keyed!("fate", Word::of("lost")),
        keyed!("kind", Kind::DataPdu),
        keyed!("state", EntityState::Running),
    );
    let records = (
        keyed!("id", ENTITY),
        keyed!("at", PLACE),
        keyed!("real", TIME),
    );
    let able = Named {
        number: 1,
        name: Some(Word::of("able")),
    };
    let nameless = Named {
        number: 9,
        name: None,
    };
    let names = (keyed!("response", able), keyed!("result", nameless));
    let missing: Option<u32> = None;
    let truths = (
        keyed!("explained", true),
        keyed!("left", false),
        keyed!("got", missing),
    );
    let flag = NumberedReason {
        why: OtherReason::Flag(9),
        number: None,
    };
    let reasons = (keyed!("why", OtherReason::Exercise(2)), keyed!("why", flag));
    let fields = (clocks, words, records, names, truths, reasons);
    let mut text = String::new(alloc);
    let mut line = TextLine::new();
    put_row(&mut text, &mut line, spelling, "line", &fields).ok()?;
    Some(text)
}

#[test]
fn fields_have_two_spellings(rt: HostRuntime) {
    let text = row_of_values(rt.alloc(), Spelling::Text).expect(&rt, "there is memory");
    assert_eq!(rt; text.as_str(), TEXT);
    let json = row_of_values(rt.alloc(), Spelling::Json).expect(&rt, "there is memory");
    assert_eq!(rt; json.as_str(), JSON);
}

/// A row that begins with a field in text, and one without its end, behind it.
fn two_rows(alloc: Global, spelling: Spelling) -> Option<String> {
    let mut text = String::new(alloc);
    let mut line = TextLine::new();
    let done = (
        bare!("did", Word::of("sent")),
        bare!("station", 1u16),
        called!("stamp", "clock", Clock(5)),
    );
    put_opened_row(
        &mut text,
        &mut line,
        spelling,
        "entry",
        &bare!("entry", 0usize),
        &done,
    )
    .ok()?;
    let counts = keyed!("stations", 3u8);
    put_opened_row(
        &mut text,
        &mut line,
        spelling,
        "recording",
        &keyed!("exercise", 1u8),
        &counts,
    )
    .ok()?;
    put_front(
        &mut text,
        &mut line,
        spelling,
        "variable",
        &bare!("id", 5u64),
    )
    .ok()?;
    Some(text)
}

#[test]
fn rows_begin_and_go_on(rt: HostRuntime) {
    let text = two_rows(rt.alloc(), Spelling::Text).expect(&rt, "there is memory");
    assert_eq!(rt;
        text.as_str(),
        "0 sent 1 stamp=5\nexercise=1 stations=3\nvariable 5"
    );
    let json = two_rows(rt.alloc(), Spelling::Json).expect(&rt, "there is memory");
    assert_eq!(rt;
        json.as_str(),
        "{\"line\":\"entry\",\"entry\":0,\"did\":\"sent\",\"station\":1,\"clock\":\"5\"}\n{\"line\":\"recording\",\"exercise\":1,\"stations\":3}\n{\"line\":\"variable\",\"id\":5"
    );
}
