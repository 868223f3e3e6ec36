// The response-time theory of schedule tables: the contract of each function is a theorem.
#![tactic(auto)]

ghost use Rattle.theory.specs.Samples.{HypothesesMet};
ghost use Rattle.theory.specs.Theorems.{HitsByDivision, DemandRises, ReachExists, ReachUnique, ReachWithin, ReachBounded, ReachJumps, FigureExists, FigureUnique};
ghost use Rattle.theory.specs.Theorems.{StepsAreRounds, ServiceDrains, Upper, Safe, Exact, Exposed, Overrun, ServiceExists, RunsExist, Attained, Verdict};

// The activations in a window are counted by one division.
pub fn hits_by_division()
    ensures { HitsByDivision }
{}

// The demand of a window never falls.
pub fn demand_rises()
    ensures { DemandRises }
{}

// Every window of a plan that is not overloaded has a reach.
pub fn reach_exists()
    ensures { ReachExists }
{}

// A window has one reach at most.
pub fn reach_unique()
    ensures { ReachUnique }
{}

// A reach ends within the hyperperiod.
pub fn reach_within()
    ensures { ReachWithin }
{}

// A number whose ticks are enough for its demand bounds the reach.
pub fn reach_bounded()
    ensures { ReachBounded }
{}

// The demand of a number up to the reach is met at the reach at the earliest.
pub fn reach_jumps()
    ensures { ReachJumps }
{}

// Every task of a plan that is not overloaded has a figure.
pub fn figure_exists()
    ensures { FigureExists }
{}

// A task has one figure at most.
pub fn figure_unique()
    ensures { FigureUnique }
{}

// A table that moves one position a tick keeps the law of rounds.
pub fn steps_are_rounds()
    ensures { StepsAreRounds }
{}

// A run that keeps the law of service keeps the weaker law too.
pub fn service_drains()
    ensures { ServiceDrains }
{}

// No job is held past its figure.
pub fn upper_bound_stands()
    ensures { Upper }
{}

// A plan that passes is never late.
pub fn safety_stands()
    ensures { Safe }
{}

// Where the tables turn as in a choice that attains the figure, the job takes exactly the figure.
pub fn figure_is_exact()
    ensures { Exact }
{}

// A reach above the deadline makes a job late.
pub fn lateness_is_exposed()
    ensures { Exposed }
{}

// An overloaded plan makes a job late.
pub fn overrun_is_late()
    ensures { Overrun }
{}

// Whatever the tables do, the law of service can be kept.
pub fn service_exists()
    ensures { ServiceExists }
{}

// Runs in which the tables turn as in a choice exist for every plan.
pub fn runs_exist()
    ensures { RunsExist }
{}

// Each figure is the response time of some job in some run.
pub fn figure_is_attained()
    ensures { Attained }
{}

// A plan passes, and is not overloaded, exactly if no run of it makes a job late.
pub fn verdict_is_exact()
    ensures { Verdict }
{}

// Small plans, runs and choices meet what the theorems suppose.
pub fn hypotheses_are_met()
    ensures { HypothesesMet }
{}
