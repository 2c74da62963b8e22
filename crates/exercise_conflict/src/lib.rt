//! Contradictions in a recording that no run explains, and in a certificate that is refused,
//! derived from the logs and from the search for a sequence; and their rows, as `why` and `audit`
//! print them. [`conflict_of`] and [`conflict_found`] give all conflicts of a recording,
//! [`verdict_of`] and [`refusal_found`] judge a certificate; [`waits_of`], [`cycle_at`],
//! [`standing_cause`], [`further_cause_at`], [`earlier_of`], [`last_change_entry`], [`clash_of`],
//! [`order_difference`], [`pdu_difference`], [`missing_sends`], [`fault_of`], [`step_clash_of`],
//! [`RepairedLog`] and [`repair_of`] give the parts.
//!
//! The crate never opens a file or writes to a stream: its functions append rows, as text and as
//! JSON, to a string, which a command above prints.
//!
//! The crates above rely on the contracts of these functions, which give the exact bytes of the
//! rows by the definitions of `Rule`, `Lines`, `Blocked` and `Told`, and on the laws:
//! [`ways_are_blocked`], [`ways_end`], [`cycles_block`] and [`each_block_has_its_way`] for waits;
//! [`own_causes_are_final`], [`own_causes_stay`] and [`final_is_final`] for causes within one log;
//! [`earlier_is_the_conflict`], [`states_are_made`] and [`clashes_are_the_conflict`] for the other
//! side of a conflict; [`missing_is_needed`], [`enough_is_one_word`], [`fewer_do_not_do`] and
//! [`nowhere_else`] for missing sends; [`bad_steps_have_own_causes`] for certificates.
#![tactic(auto)]

mod also;
mod asks;
mod blame;
mod blocked;
mod clash;
mod clash_line;
mod clashing;
mod conflict;
mod cycles;
mod difference;
mod earlier;
mod field;
mod lacks;
mod laws;
mod lines;
mod logs;
mod named;
mod near;
mod nears;
mod own;
mod question;
mod receipts;
mod repair;
mod repaired;
mod rule;
mod since;
mod step_clash;
mod step_clash_line;
mod step_clashing;
mod taking;
mod told;
mod told_laws;
mod unasked;
mod verdict;
mod waits;
mod way;

pub use also::{further_cause_at, standing_cause};
pub use blame::{Blame, fault_of};
pub use blocked::{put_blocked, put_explained};
pub use clash::{AnswerMismatch, Clash};
pub use clash_line::put_clash;
pub use clashing::clash_of;
pub use conflict::{Conflict, ConflictFindings, ConflictSearch, conflict_found, conflict_of};
pub use cycles::cycle_at;
pub use difference::{order_difference, pdu_difference};
pub use earlier::earlier_of;
pub use field::PduField;
pub use lacks::{MissingSend, missing_sends};
pub use laws::{
    bad_steps_have_own_causes, clashes_are_the_conflict, cycles_block, each_block_has_its_way,
    earlier_is_the_conflict, enough_is_one_word, fewer_do_not_do, final_is_final,
    missing_is_needed, nowhere_else, own_causes_are_final, own_causes_stay, states_are_made,
    ways_are_blocked, ways_end,
};
pub use lines::{put_also, put_cycle, put_fault, put_final, put_missing, put_repair, put_wait};
pub use named::{conflict_entries, refusal_entries};
pub use repair::{Enough, Repair, repair_of};
pub use repaired::RepairedLog;
pub use rule::put_rule;
pub use since::last_change_entry;
pub use step_clash::StepClash;
pub use step_clash_line::put_step_clash;
pub use step_clashing::step_clash_of;
pub use told::{put_conflict, put_refusal, put_yes};
pub use told_laws::conflict_keys_come_once;
pub use verdict::{Judged, Refusal, Verdict, refusal_found, verdict_of};
pub use waits::{Wait, wait_of, waits_of};
pub use way::{Also, Way, cycles_of, further_causes, way_of, ways_of};
