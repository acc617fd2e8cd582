// The clauses of a call, at commands that there aren't.
ghost use Rattle.cg_driver_steps.specs.Samples.{SecondWriteFails, StopsBetween, RefusesLong, ThirdReadFails, ClausesHold};

/// Two commands that the program doesn't have, one that reads a file and writes two others and one that reads three files, are
/// lists of steps as those that it has, and what a call answers and leaves is said of them by the same definitions.
pub fn clauses_hold_of_other_commands()
    ensures second_write_fails { SecondWriteFails }
    ensures stops_between { StopsBetween }
    ensures refuses_long { RefusesLong }
    ensures third_read_fails { ThirdReadFails }
    ensures clauses { ClausesHold }
{}
