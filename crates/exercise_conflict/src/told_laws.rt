//! Laws of the rows.

ghost use Rattle.std.specs.Prelude.{◌≡◌, ℕ, List, true};
ghost use Rattle.exercise_model.specs.declared.cause.Cause.{Cause};
ghost use Rattle.exercise_model.specs.Recording.{PlainRecording};
ghost use Rattle.exercise_conflict.specs.declared.clash.Clash.{Clash};
ghost use Rattle.exercise_conflict.specs.declared.blame.Blame.{Blame};
ghost use Rattle.exercise_conflict.specs.declared.lacks.MissingSend.{MissingSend};
ghost use Rattle.exercise_conflict.specs.declared.repair.Repair.{Repair};
ghost use Rattle.exercise_conflict.specs.declared.step_clash.StepClash.{StepClash};
ghost use Rattle.exercise_conflict.specs.declared.waits.Wait.{Wait};
ghost use Rattle.exercise_audit.specs.declared.blocks.Block.{Block};
ghost use Rattle.siman_print.specs.Keys.{has_no_key_twice};
ghost use Rattle.exercise_check.specs.Report.{yes_line, no_line};
ghost use Rattle.exercise_conflict.specs.Blocked.{explained_line, blocked_line, block_line};
ghost use Rattle.exercise_conflict.specs.Lines.{repair_line, step_clash_line, rule_line, clash_line, wait_line, final_line, also_line, missing_line, fault_line, cycle_line};

/// The law of keys: in JSON no row has a key twice.
pub fn conflict_keys_come_once()
    ensures rules { (cause : Cause) → has_no_key_twice (rule_line cause) ≡ true }
    ensures clashes { (r : PlainRecording) (entry : ℕ) (clash : Clash) → has_no_key_twice (clash_line r entry clash) ≡ true }
    ensures steps { (r : PlainRecording) (clash : StepClash) → has_no_key_twice (step_clash_line r clash) ≡ true }
    ensures explained { (steps : ℕ) → has_no_key_twice (explained_line steps) ≡ true }
    ensures yes { (records others : ℕ) → has_no_key_twice (yes_line records others) ≡ true }
    ensures no { (step : ℕ) (cause : Cause) → has_no_key_twice (no_line step cause) ≡ true }
    ensures blocked { (count : ℕ) → has_no_key_twice (blocked_line count) ≡ true }
    ensures blocks { (r : PlainRecording) (block : Block) → has_no_key_twice (block_line r block) ≡ true }
    ensures waits { (r : PlainRecording) (wait : Wait) → has_no_key_twice (wait_line r wait) ≡ true }
    ensures finals { (entry : ℕ) → has_no_key_twice (final_line entry) ≡ true }
    ensures also { (r : PlainRecording) (entry s : ℕ) (cause : Cause) → has_no_key_twice (also_line r entry s cause) ≡ true }
    ensures missing { (r : PlainRecording) (lack : MissingSend) → has_no_key_twice (missing_line r lack) ≡ true }
    ensures repairs { (repair : Repair) → has_no_key_twice (repair_line repair) ≡ true }
    ensures faults { (fault : Blame) → has_no_key_twice (fault_line fault) ≡ true }
    ensures cycles { (r : PlainRecording) (stations : List ℕ) → has_no_key_twice (cycle_line r stations) ≡ true }
{}
