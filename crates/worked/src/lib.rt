// The worked figures of the documents, as facts about the definitions.
#![tactic(auto)]

ghost use Rattle.std.specs.List.{AllByRecursion};
ghost use Rattle.worked.specs.Figures.{Stands, figures};

// Every worked figure stands.
pub fn figures_stand()
    ensures { AllByRecursion Stands figures }
{}
