// What is proved of the definitions themselves.
ghost use Rattle.method_resolution.specs.OneAnswer.{OneAnswer};

// Every question has an answer, and no second one.
pub fn every_question_has_one_answer()
    ensures { OneAnswer }
{}
