ghost use Rattle.geom.specs.Worked.{WorkedExamples};

/// The worked examples of the documents hold of the definitions: lengths, root sizes, fits and opacities.
pub fn worked_examples_stand()
    ensures { WorkedExamples }
{}
