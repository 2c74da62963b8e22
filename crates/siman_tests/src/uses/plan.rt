//! What a text means to `plan`.

ghost use Rattle.std.specs.Prelude.{◌≡◌, length, None, Ok};
ghost use Rattle.std.specs.Result.{result_err};
ghost use Rattle.siman_print.specs.declared.spelling.Spelling.TheVariants.{Text};
ghost use Rattle.siman_scripts.specs.Script.{ScriptData, script_at};
ghost use Rattle.siman_stations.specs.World.{sent_in};
ghost use Rattle.siman_plans.specs.Plan.{plan_at};
ghost use Rattle.siman_plans.specs.PlanLaw.{recording_of, sends_in};
ghost use Rattle.siman_plans.specs.PlanText.{PlanTextData, world_of, said_at};
ghost use Rattle.siman_plans.specs.Source.{SourceData, read_at, source_at, source_reason_at};
ghost use Rattle.siman_plans.specs.SourceLaws.{moves_of};

use siman_plans::{
    a_script_is_a_source, a_text_has_a_reason_or_is_a_source, plain_scripts_are_scripts,
    recordings_have_what_lines_did,
};

/// A text for which no reason is given is a source.
pub fn reads_what_has_no_reason(text: &[u8])
    requires { source_reason_at text.now ≡ None }
    ensures { result_err (source_at text.now) ≡ None }
{
    a_text_has_a_reason_or_is_a_source(text);
}

/// A script is a source with the same moves.
pub fn reads_scripts_as_they_are(text: &[u8])
    ensures { (script : ScriptData) → script_at text.now ≡ Ok script → (source : SourceData) × (source_at text.now ≡ Ok source) × (moves_of 0 source.lines ≡ script.moves) }
{
    a_script_is_a_source(text);
}

/// The lines of a source name as many datagrams as its moves send.
pub fn names_each_datagram(text: &[u8])
    ensures { (source : SourceData) → read_at text.now ≡ Ok source → length (sends_in (plan_at (world_of source) source.lines).0.notes.planned) ≡ length (sent_in (recording_of source).entries) }
{
    recordings_have_what_lines_did(text);
}

/// The plain script that is written is a script.
pub fn writes_a_script(text: &[u8])
    ensures { (said : PlanTextData) → said_at Text text.now ≡ Ok said → said.stop ≡ None → result_err (script_at said.script) ≡ None }
{
    plain_scripts_are_scripts(text);
}
