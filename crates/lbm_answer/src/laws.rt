//! What holds of every run.
//!
//! The functions do nothing: their contracts are the theorems.

ghost use Rattle.lbm_answer.specs.Laws.{RequestedMass, ResumeLaw, ResumedMass, ResumedRequest, SaveLaw, TracerIsPassive, TracerTotal};

/// A run that goes on from a checkpoint comes to what the whole run comes to, where the checkpoint, of either version, is
/// of the same case bytes and of the state that the run from the first state reaches at a step up to the last one. The
/// mass that it reports is that of the first state and what the walls give in each of all the steps. Such a checkpoint is
/// what a run to that step saves.
pub fn resume_law()
    ensures resume { ResumeLaw }
    ensures request { ResumedRequest }
    ensures mass { ResumedMass }
    ensures request_mass { RequestedMass }
    ensures saved { SaveLaw }
{}

/// A tracer leaves its flow as it is, and none of it is lost: a run with a tracer that is finished has written of the flow
/// what the run of the flow alone writes, and reports the same mass and the whole amount of the tracer.
pub fn tracer_law()
    ensures passive { TracerIsPassive }
    ensures total { TracerTotal }
{}
