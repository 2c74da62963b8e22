//! The rows of a plan, all of them.

ghost use Rattle.std.specs.Prelude.{◌≡◌, ◌≤◌, ◌++◌, length, OnOk, string_bytes};
ghost use Rattle.std.specs.List.{flat_map};
ghost use Rattle.siman_print.specs.Spelled.{lines_spelled, line_spelled};
ghost use Rattle.siman_plans.specs.ClosingLines.{is_move, move_count, plan_row, all_move_rows, warnings_of, plan_rows};

use crate::background::Background;
use crate::deed::{Deed, PlannedLine, SentDatagram};
use siman_print::{Spelling, TextLine, keyed, put_row};
use std::alloc::AllocError;

/// Whether a line made a move.
fn is_move(deed: &Deed) -> bool
    ensures { result ≡ is_move deed.now }
{
    match deed {
        Deed::Set { .. } | Deed::Lost { .. } => false,
        Deed::Ordered { .. } | Deed::Ticked { .. } | Deed::Told { .. } | Deed::Brought { .. } => {
            true
        }
    }
}

/// The number of lines that made a move.
fn move_count(planned: &[PlannedLine]) -> usize
    ensures count { result ≡ move_count planned.now }
    ensures within { result ≤ length planned.now }
{
    let (mut count, mut others) = (0, planned);
    while let [line, rest @ ..] = others {
        if is_move(&line.did) {
            count += 1;
        }
        others = rest;
    }
    count
}

impl<'d, 'l> Background<'d, 'l> {
    /// Writes the rows of the moves.
    pub fn put_moves(
        &self,
        text: &mut String,
        row: &mut TextLine,
        spelling: Spelling,
        planned: &[PlannedLine],
    ) -> Result<(), AllocError>
        ensures { OnOk result (string_bytes text.new ≡ string_bytes text.old ++ lines_spelled spelling (all_move_rows self.now planned.now)) }
    {
        for line in planned {
            self.put_rows(text, row, spelling, *line)?;
        }
        Ok(())
    }

    /// Writes the warnings of all lines.
    fn put_all_warnings(
        &self,
        text: &mut String,
        row: &mut TextLine,
        spelling: Spelling,
        sent: &[SentDatagram],
        planned: &[PlannedLine],
    ) -> Result<(), AllocError>
        ensures { OnOk result (string_bytes text.new ≡ string_bytes text.old ++ lines_spelled spelling (flat_map (warnings_of self.now sent.now) planned.now)) }
    {
        for line in planned {
            self.put_warnings(text, row, spelling, sent, *line)?;
        }
        Ok(())
    }

    /// Writes the counts of a plan.
    fn put_counts(
        &self,
        text: &mut String,
        row: &mut TextLine,
        spelling: Spelling,
        exercise: u8,
        planned: &[PlannedLine],
    ) -> Result<(), AllocError>
        ensures { OnOk result (string_bytes text.new ≡ string_bytes text.old ++ line_spelled spelling (plan_row exercise self.now planned.now)) }
    {
        let fields = (
            keyed!("exercise", exercise),
            keyed!("stations", self.stations.len()),
            keyed!("moves", move_count(planned)),
            keyed!("datagrams", self.sends.len()),
        );
        put_row(text, row, spelling, "plan", &fields)
    }

    /// Writes the rows of a whole plan.
    #[tactic(auto, using(crate::proofs::Joined::rows_joined))]
    pub fn put_plan(
        &self,
        text: &mut String,
        spelling: Spelling,
        exercise: u8,
        sent: &[SentDatagram],
        planned: &[PlannedLine],
    ) -> Result<(), AllocError>
        ensures { OnOk result (string_bytes text.new ≡ string_bytes text.old ++ lines_spelled spelling (plan_rows exercise self.now sent.now planned.now)) }
    {
        let row = &mut TextLine::new();
        self.put_moves(text, row, spelling, planned)?;
        self.put_lost(text, row, spelling, sent)?;
        self.put_copied(text, row, spelling, sent)?;
        self.put_all_warnings(text, row, spelling, sent, planned)?;
        self.put_counts(text, row, spelling, exercise, planned)
    }
}
