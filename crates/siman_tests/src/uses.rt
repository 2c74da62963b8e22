//! What a reader can conclude from the laws of siman: short functions, each of which applies one
//! law or more and is proved by it. It never does any work for siman: nothing else is built on this
//! crate. A reader may use each contract, and the laws in the way shown here: a law is a function
//! without effect, whose contract is a theorem over the definitions in `specs/`, and a function
//! that calls it may conclude what that contract says.
//!
//! Each file is named for one noun of the field, each function for the conclusion.

mod able;
mod address;
mod answer;
mod archive;
mod archived;
mod auditor;
mod capture;
mod certificate;
mod change;
mod contradiction;
mod copies;
mod datagram;
mod entity;
mod exported;
mod file;
mod fragment;
mod frame;
mod gap;
mod header;
mod imported;
mod line;
mod log;
mod manager;
mod order;
mod part;
mod picture;
mod pieces;
mod plan;
mod post;
mod reason;
mod receipt;
mod report;
mod script;
mod search;
mod sequence;
mod station;
mod stranger;
mod torn;
mod version;
mod wait;
mod writer;

pub use able::may_be_relied_on;
pub use address::comes_before;
pub use answer::has_one_request;
pub use archive::{may_be_converted, need_one_byte_more};
pub use archived::{need_no_second_check, need_no_second_search};
pub use auditor::{found_what_others_find, reviewed_the_archive};
pub use capture::{has_a_packet_for_each_record, is_passed_over_by_its_length};
pub use certificate::says_one_order;
pub use change::made_the_state;
pub use contradiction::{
    is_against_its_own_log, is_beyond_mending, is_set_right, is_shown_by_two_entries,
};
pub use copies::change_no_answer;
pub use datagram::{end_of_one_pdu, length_that_is_read};
pub use entity::changes_by_an_able_alone;
pub use exported::ends_whole;
pub use file::says_one_thing;
pub use fragment::{
    has_the_size_that_was_told, is_given_up_with_an_overlap, leaves_what_is_held_well,
    may_come_before_the_first,
};
pub use frame::{carries_all_its_data, is_as_its_front_says};
pub use gap::must_be_filled;
pub use header::adds_up_to_all_ones;
pub use imported::is_of_the_packets_alone;
pub use line::{explain_what_they_wrote, leave_a_recording};
pub use log::{grows_by_no_filter, is_read_by_programs, names_each_datum_once};
pub use manager::sends_nothing_too_often;
pub use order::{change_carried_out, fate_at_party, is_known_to_its_maker};
pub use part::may_be_blamed_alone;
pub use picture::{has_a_row_for_each_step, points_no_arrow_upwards, shows_each_state};
pub use pieces::{
    are_blamed_log_by_log, are_blamed_one_by_one, come_in_any_order, come_station_by_station,
    lose_no_entry, may_be_cut, may_be_one, may_be_parts,
};
pub use post::{is_judged_alone, leaves_what_can_be_mended};
pub use reason::{
    every_other_is_counted, is_always_given, is_given_for_each_line, is_given_for_each_typed_line,
    is_none_of_a_script, is_true_of_the_lines_before, points_at_its_word,
    says_what_the_decoder_says,
};
pub use receipt::may_be_noted_early;
pub use report::{
    names_each_field_once, says_in_json_what_the_text_says, says_the_same_of_the_archive,
};
pub use script::explain_themselves;
pub use search::no_luck_is_needed;
pub use sequence::is_found_again;
pub use station::answers_rightly;
pub use stranger::may_be_heard;
pub use torn::{are_mended_once, lose_nothing_that_was_written};
pub use version::has_status;
pub use wait::{block_in_a_ring, lead_to_an_end};
pub use writer::record_one_datagram;
