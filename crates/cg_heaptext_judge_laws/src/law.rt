// What is judged one by one is judged of all.
ghost use Rattle.cg_heaptext_judge_laws.specs.Laws.{RunsJudge};

/// What is noted of things that are met one by one is what is asked of all of them (docs/LANGUAGE.md, "Heap files", H4, H5 and H6).
pub fn runs_judge()
    ensures { RunsJudge }
{}
