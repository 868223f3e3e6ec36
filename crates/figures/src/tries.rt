// All choices of one window are tried.
ghost use Rattle.std.specs.Prelude.{◌≡◌, ◌+◌, ◌<◌, ◌≤◌, length, slice_set};
ghost use Rattle.figures.specs.Loads.{Phased};
ghost use Rattle.figures.specs.Tries.{Open, Taken, Bettered, guess_of};

use crate::demand::Phasing;
use crate::search::Search;
use crate::spans::Span;
use crate::windows::{Best, Window};
use crate::worst::Worst;
use plan::MAX_TABLES;

impl Best {
    // A number that may bound the reach in the window of tick x as well: the next one often ends where the last one ended.
    fn guess(&self, x: u32) -> u32
        ensures value { result ≡ guess_of self.now.end x self.now.worst.figure }
        ensures some { 1 ≤ result }
        ensures within { result ≤ self.now.worst.figure }
    {
        self.end.saturating_sub(x).clamp(1, self.worst.figure)
    }
}

impl Search<'_> {
    // The tables with the phases of a choice, and the window's phase put in for the own table.
    fn phasing(&self, window: Window, choice: [u32; MAX_TABLES]) -> Phasing<'_>
        requires { Phased self.now.groups.items (slice_set choice window.own window.phase) }
        ensures groups { result.groups.now ≡ self.now.groups.items }
        ensures phases { result.phases ≡ slice_set choice window.own window.phase }
    {
        let mut phases = choice;
        phases[window.own] = window.phase;
        Phasing {
            groups: self.groups.as_slice(),
            phases,
        }
    }

    // The first choice with its reach, to begin with.
    pub(crate) fn first_choice(&self, window: Window) -> Worst
        requires some { 0 < length self.now.choices.items }
        requires can { Open self.now.groups.items self.now.choices.items window }
        ensures { Taken self.now.groups.items self.now.choices.items window result }
    {
        let phasing = self.phasing(window, self.choices[0]);
        Worst {
            figure: phasing.reach(window),
            tick: window.tick,
            phases: phasing.phases,
        }
    }

    // Tries each choice, and keeps the one with the greatest reach.
    pub(crate) fn try_choices(&self, window: Window, mut best: Best) -> Best
        requires can { Open self.now.groups.items self.now.choices.items window }
        requires ends { window.tick + best.worst.figure ≤ window.limit }
        ensures { Bettered self.now.groups.items self.now.choices.items window best.worst result.worst }
    {
        let tick = window.tick;
        'choices: for choice in &self.choices {
            let phasing = self.phasing(window, *choice);
            let guess = best.guess(tick);
            if phasing.is_enough(Span { tick, ticks: guess }) {
                continue 'choices;
            }
            let most = best.worst.figure;
            if phasing.is_enough(Span { tick, ticks: most }) {
                continue 'choices;
            }
            let figure = phasing.reach(window);
            best.end = tick + figure;
            if figure > most {
                best.worst = Worst {
                    figure,
                    tick,
                    phases: phasing.phases,
                };
            }
        }
        best
    }
}
