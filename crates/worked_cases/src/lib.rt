// Charts to work by, over the wirings, with their reversible pairs and schedules; and ways to misread the order, each with a chart that refutes it.
#![tactic(auto)]

ghost use Rattle.worked_cases.specs.Cases.{WorkedCases};
ghost use Rattle.worked_cases.specs.Misread.{Misreadings};
ghost use Rattle.worked_cases.specs.Scheduled.{WorkedSchedules};

// The reversible pairs of the charts to work by, over the hold rules and capacities of the wirings.
#[tactic(auto, using(crate::proofs::Working::worked_cases))]
pub fn worked_cases_stand()
    ensures { WorkedCases }
{}

// Schedules of reversible pairs among these.
#[tactic(auto, using(crate::proofs::Scheduling::worked_schedules))]
pub fn worked_schedules_stand()
    ensures { WorkedSchedules }
{}

// Rule 3 applied only once, in events that wait for those above them, a crowd of two: none of these is the order.
#[tactic(auto, using(crate::proofs::Misreading::misreadings))]
pub fn misreadings_fail()
    ensures { Misreadings }
{}
