// What is proved of costs on lawful plans.
ghost use Rattle.measure.specs.Plain.{NoStop};

// On a lawful plan the metres and the turns of at most 1,024 links are plain sums: no cost comes to a stop.
pub fn no_stop_is_met()
    ensures { NoStop }
{}
