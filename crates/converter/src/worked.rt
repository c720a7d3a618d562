ghost use Rattle.converter.specs.Worked.{AllWorkedExamples};

/// The worked examples hold of the definitions: lengths, root sizes, fits, opacities, and the groups of uses and nested svgs.
#[tactic(auto, using(crate::proofs::Examples::all_worked_examples))]
pub fn all_worked_examples_stand()
    ensures { AllWorkedExamples }
{}
