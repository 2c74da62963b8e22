//! Each value and each shape of a field.

use dis_records::{ClockTime, EntityId, EntityState, Kind};
use siman_print::{Field, Value};

const ENTITY: EntityId = EntityId {
    site: 65_535,
    application: 1,
    entity: 7,
};

const TIME: ClockTime = ClockTime { hour: 3, past: 5 };

/// Each kind of value.
pub(super) const VALUES: [Field<'static>; 13] = [
    Field::Keyed("n", Value::Number(4_294_967_295)),
    // Above 2^53, where a reader that takes it for a number loses its last bit.
    Field::Keyed("clock", Value::Clock(9_007_199_254_740_993)),
    Field::Keyed("fate", Value::Word("lost")),
    Field::Keyed("kind", Value::Kind(Kind::DataPdu)),
    Field::Keyed("state", Value::State(EntityState::Running)),
    Field::Keyed("id", Value::Entity(&ENTITY)),
    Field::Keyed("real", Value::Time(&TIME)),
    Field::Keyed("response", Value::Named(1, Some("able"))),
    Field::Keyed("result", Value::Named(9, None)),
    Field::Keyed("explained", Value::Truth(true)),
    Field::Keyed("left", Value::Truth(false)),
    Field::Keyed("got", Value::Missing),
    Field::Keyed("text", Value::Phrase(r#"say "a\b" twice"#)),
];

/// Each shape of a field.
pub(super) const SHAPES: [Field<'static>; 4] = [
    Field::Bare("entry", Value::Number(0)),
    Field::Keyed("sends", Value::Number(0)),
    Field::Spelt("request", Value::Number(0)),
    Field::Called("stamp", "clock", Value::Clock(0)),
];

pub(super) const VALUES_TEXT: &str =
    r#"line n=4294967295 clock=9007199254740993 fate=lost kind=data state=running id=65535:1:7 real=3/5 response=1(able) result=9 explained=yes left=no got=- text=say "a\b" twice"#;

pub(super) const VALUES_JSON: &str =
    r#"{"line":"line","n":4294967295,"clock":"9007199254740993","fate":"lost","kind":"data","state":"running","id":"65535:1:7","real":"3/5","response":1,"response_name":"able","result":9,"result_name":null,"explained":true,"left":false,"got":null,"text":"say \"a\\b\" twice"}"#;

pub(super) const SHAPES_TEXT: &str = "line 0 sends=0 request 0 stamp=0";

pub(super) const SHAPES_JSON: &str =
    r#"{"line":"line","entry":0,"sends":0,"request":0,"clock":"0"}"#;
