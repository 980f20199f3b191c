// What is true of the proofs of a run. A law runs no code: who calls it has the fact.
ghost use Rattle.sp_plan.specs.declared.plan.Plan.{Plan};
ghost use Rattle.sp_plan.specs.Windows.{IsWindowed};
ghost use Rattle.sp_cert.specs.Laws.{RightAreProofs, TellTheRun};

/// Law: the proofs of a run tell its matches in order, and those of its first windows tell as used what
/// these consumed.
pub fn proofs_tell_the_run()
    ensures { (q : Plan) → TellTheRun q }
{}

/// Law: entries are each right by itself, and behind those before it, exactly where they are the first
/// proofs of a run.
pub fn local_and_pass_are_proofs()
    ensures { (q : Plan) → IsWindowed q → RightAreProofs q }
{}
