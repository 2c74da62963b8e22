//! Rows in their two spellings, with literal texts.

mod examples;
mod fields;
mod values;

use self::examples::*;
use self::values::*;
use dis_records::Address;
use siman_print::{Field, PrintedRow, Spelling, Value, put_line};
use std::alloc::Global;

/// Whether a row has this text and this JSON, each without its line end.
fn is_told(alloc: Global, line: &PrintedRow<'_>, text: &str, json: &str) -> bool {
    for (spelling, wanted) in [(Spelling::Text, text), (Spelling::Json, json)] {
        let mut spelled = String::new(alloc);
        let is_put = put_line(&mut spelled, spelling, line).is_ok();
        if !is_put || spelled.strip_suffix("\n") != Some(wanted) {
            return false;
        }
    }
    true
}

#[test]
fn values_have_two_spellings(rt: HostRuntime) {
    let (values, shapes) = (
        PrintedRow::named("line", &VALUES),
        PrintedRow::named("line", &SHAPES),
    );
    assert!(rt; is_told(rt.alloc(), &values, VALUES_TEXT, VALUES_JSON));
    assert!(rt; is_told(rt.alloc(), &shapes, SHAPES_TEXT, SHAPES_JSON));
}

#[test]
fn lines_have_two_spellings(rt: HostRuntime) {
    let (life, datum) = (
        PrintedRow::named("state", &LIFE),
        PrintedRow::named("variable", &DATUM),
    );
    let entry = PrintedRow {
        name: "entry",
        opening: Some(Field::Bare("entry", Value::Number(0))),
        fields: &ENTRY,
    };
    assert!(rt; is_told(rt.alloc(), &life, LIFE_TEXT, LIFE_JSON));
    assert!(rt; is_told(rt.alloc(), &datum, DATUM_TEXT, DATUM_JSON));
    assert!(rt; is_told(rt.alloc(), &entry, ENTRY_TEXT, ENTRY_JSON));
}

/// An order from one station to another, and cycles of one and of two stations.
#[test]
fn addresses_have_two_spellings(rt: HostRuntime) {
    let first = Address::new(1, 1).expect(&rt, "it is an address");
    let second = Address::new(2, 4).expect(&rt, "it is an address");
    let mut order = ORDER;
    order[1] = Field::Keyed("from", Value::Address(first));
    order[5] = Field::Keyed("at", Value::Address(second));
    assert!(rt;
        is_told(
            rt.alloc(),
            &PrintedRow::named("order", &order),
            ORDER_TEXT,
            ORDER_JSON
        )
    );
    let rows: [(&[Address], &str, &str); 2] = [
        (&[second], "cycle 2:4", r#"{"line":"cycle","ring":["2:4"]}"#),
        (
            &[first, second],
            "cycle 1:1 2:4",
            r#"{"line":"cycle","ring":["1:1","2:4"]}"#,
        ),
    ];
    for (ring, text, json) in rows {
        let fields = [Field::Bare("ring", Value::Ring(ring))];
        assert!(rt; is_told(rt.alloc(), &PrintedRow::named("cycle", &fields), text, json));
    }
}
