// What the analysis of a plan rests on: the board's drives are runs in the sense of the theory.
#![tactic(auto)]

mod bridge;

pub use bridge::{
    drives_are_runs, jobs_are_held_to_figures, passed_plans_are_never_late, plans_are_lawful,
};
