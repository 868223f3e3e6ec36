// Each function's promise is a law over plans and drives; there is nothing to compute.
ghost use Rattle.analysis.specs.Promises.{PlansAreLawful, DrivesAreRuns, NeverLate, HeldToFigures};

// A plan keeps the rules that the theory supposes.
pub fn plans_are_lawful()
    ensures { PlansAreLawful }
{}

// A drive of a new board, over any ready queue, keeps the laws of rounds and of service that the theory supposes.
pub fn drives_are_runs()
    ensures { DrivesAreRuns }
{}

// Where every figure is within its deadline, no tick of any drive tells a late task.
pub fn passed_plans_are_never_late()
    ensures { NeverLate }
{}

// And every activated job is reported finished within as many answered ticks as the figure of its task.
pub fn jobs_are_held_to_figures()
    ensures { HeldToFigures }
{}
