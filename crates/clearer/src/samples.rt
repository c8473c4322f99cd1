// The samples of the documents.
ghost use Rattle.clearer.specs.Samples.{Samples};
ghost use Rattle.clearer.specs.Verdicts.{Verdicts};

// Each sample text that is no plan is refused as the documents say: shown of the definitions.
pub fn samples_hold()
    ensures { Samples }
{}

// Each sample plan counts what the documents say, and is cleared or has the first breach that they say: shown of the
// definitions, by one table.
pub fn verdicts_hold()
    ensures { Verdicts }
{}
