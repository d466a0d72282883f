// Small histories, worked out.
ghost use Rattle.history_reply.specs.Samples.{Samples};

#[tactic(auto, using(crate::proofs::Computed::samples))]
pub fn samples_are_printed()
    ensures { Samples }
{}
