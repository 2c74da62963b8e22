//! Whole rows: an order without an answer at its sender, a span of a life, a datum with its text,
//! and a row whose text does not begin with its name.

use dis_records::{EntityId, EntityState, Kind};
use siman_print::{Field, Value};

const ALL: EntityId = EntityId {
    site: 65_535,
    application: 65_535,
    entity: 65_535,
};

const ENTITY: EntityId = EntityId {
    site: 2,
    application: 4,
    entity: 9,
};

/// The fields of an order; its two addresses are missing.
pub(super) const ORDER: [Field<'static>; 11] = [
    Field::Bare("entry", Value::Number(9)),
    Field::Keyed("from", Value::Missing),
    Field::Keyed("request", Value::Number(3)),
    Field::Bare("kind", Value::Kind(Kind::StartResume)),
    Field::Keyed("to", Value::Entity(&ALL)),
    Field::Keyed("at", Value::Missing),
    Field::Keyed("sends", Value::Number(1)),
    Field::Keyed("said", Value::Word("able")),
    Field::Keyed("heard", Value::Missing),
    Field::Keyed("took", Value::Missing),
    Field::Keyed("fate", Value::Word("unheard")),
];

/// The order from 1:1 to 2:4.
pub(super) const ORDER_TEXT: &str =
    "order 9 from=1:1 request=3 start-resume to=65535:65535:65535 at=2:4 sends=1 said=able heard=- took=- fate=unheard";

pub(super) const ORDER_JSON: &str =
    r#"{"line":"order","entry":9,"from":"1:1","request":3,"kind":"start-resume","to":"65535:65535:65535","at":"2:4","sends":1,"said":"able","heard":null,"took":null,"fate":"unheard"}"#;

pub(super) const LIFE: [Field<'static>; 6] = [
    Field::Bare("entity", Value::Entity(&ENTITY)),
    Field::Bare("state", Value::State(EntityState::Running)),
    Field::Keyed("from", Value::Number(13)),
    Field::Keyed("to", Value::Missing),
    Field::Keyed("since", Value::Clock(922)),
    Field::Keyed("until", Value::Missing),
];

pub(super) const DATUM: [Field<'static>; 5] = [
    Field::Bare("entry", Value::Number(23)),
    Field::Bare("id", Value::Number(5)),
    Field::Bare("bits", Value::Number(40)),
    Field::Bare("hex", Value::Word("48454c4c4f")),
    Field::Keyed("text", Value::Phrase("HELLO")),
];

pub(super) const ENTRY: [Field<'static>; 5] = [
    Field::Bare("did", Value::Word("sent")),
    Field::Bare("station", Value::Number(1)),
    Field::Called("stamp", "clock", Value::Clock(5)),
    Field::Bare("kind", Value::Word("other")),
    Field::Keyed("bytes", Value::Number(3)),
];

pub(super) const LIFE_TEXT: &str = "state 2:4:9 running from=13 to=- since=922 until=-";

pub(super) const LIFE_JSON: &str =
    r#"{"line":"state","entity":"2:4:9","state":"running","from":13,"to":null,"since":"922","until":null}"#;

pub(super) const DATUM_TEXT: &str = "variable 23 5 40 48454c4c4f text=HELLO";

pub(super) const DATUM_JSON: &str =
    r#"{"line":"variable","entry":23,"id":5,"bits":40,"hex":"48454c4c4f","text":"HELLO"}"#;

/// A text that begins with the entry number instead of the name of the row.
pub(super) const ENTRY_TEXT: &str = "0 sent 1 stamp=5 other bytes=3";

pub(super) const ENTRY_JSON: &str =
    r#"{"line":"entry","entry":0,"did":"sent","station":1,"clock":"5","kind":"other","bytes":3}"#;
