//! Records of PDUs as values of fields: identifiers, addresses, times, kinds and states.

ghost use Rattle.std.specs.Prelude.{◌≡◌, ◌+◌, ◌≤◌, ◌++◌, length};
ghost use Rattle.dis_records.specs.Texts.{entity_text, clock_text, kind_text, state_text};
ghost use Rattle.siman_print.specs.Line.{Word};
ghost use Rattle.siman_print.specs.Spelled.{address_text};

use crate::key::Key;
use crate::printed_value::{PrintedValue, add_quote};
use crate::spelling::Spelling;
use crate::text_line::{TextLine, add_number, add_part};
use dis_records::{Address, ClockTime, EntityId, EntityState, Kind, SiteApplication};

impl PrintedValue for SiteApplication {
    ghost value = { λ address. Word (address_text address) };

    ghost most = { 43 };

    #[inline(always)]
    fn add_value(&self, line: &mut TextLine, spelling: Spelling, key: Key<'_>) {
        add_quote(line, spelling);
        add_number(line, u64::from(self.site));
        add_part(line, u64::from(self.application));
        add_quote(line, spelling)
    }
}

impl PrintedValue for Address {
    ghost value = { λ address. Word (address_text address) };

    ghost most = { 43 };

    #[inline(always)]
    fn add_value(&self, line: &mut TextLine, spelling: Spelling, key: Key<'_>) {
        add_quote(line, spelling);
        add_number(line, u64::from(self.site()));
        add_part(line, u64::from(self.application()));
        add_quote(line, spelling)
    }
}

impl PrintedValue for EntityId {
    ghost value = { λ id. Word (entity_text id) };

    ghost most = { 64 };

    #[inline(always)]
    fn add_value(&self, line: &mut TextLine, spelling: Spelling, key: Key<'_>) {
        add_quote(line, spelling);
        add_number(line, u64::from(self.site));
        add_part(line, u64::from(self.application));
        add_part(line, u64::from(self.entity));
        add_quote(line, spelling)
    }
}

impl PrintedValue for ClockTime {
    ghost value = { λ time. Word (clock_text time) };

    ghost most = { 43 };

    fn add_value(&self, line: &mut TextLine, spelling: Spelling, key: Key<'_>) {
        add_quote(line, spelling);
        add_number(line, u64::from(self.hour));
        line.push('/');
        add_number(line, u64::from(self.past));
        add_quote(line, spelling)
    }
}

impl PrintedValue for Kind {
    ghost value = { λ kind. Word (kind_text kind) };

    ghost most = { 22 };

    #[inline(always)]
    fn add_value(&self, line: &mut TextLine, spelling: Spelling, key: Key<'_>) {
        add_quote(line, spelling);
        line.push_str(self.name());
        add_quote(line, spelling)
    }
}

impl PrintedValue for EntityState {
    ghost value = { λ state. Word (state_text state) };

    ghost most = { 22 };

    #[inline(always)]
    fn add_value(&self, line: &mut TextLine, spelling: Spelling, key: Key<'_>) {
        add_quote(line, spelling);
        line.push_str(self.name());
        add_quote(line, spelling)
    }
}
