// The card, driven line by line: a step, a run. The image is lent, the fuse byte and the half go in by value and come back, as the exported
// calls have them.
#![tactic(auto)]

ghost use Rattle.std.specs.Prelude.{◌≡◌, length};
ghost use Rattle.rules.specs.Numbers.{numbered, number_if_any};
ghost use Rattle.volatile.specs.Packed.{given};
ghost use Rattle.refusals.specs.Before.{given_refusal, given_run_refusal};
ghost use Rattle.card.specs.Calls.{StepAnswered, RunAnswered};

use rules::Refusal;
use volatile::Volatile;

mod edges;
mod in_programming;
mod inner_step;
mod masks;
mod moved;
mod quick;

// The result of a step: both halves, and the pin's answer or the refusal.
#[derive(Clone, Copy)]
pub struct Stepped {
    pub fuses: u8,
    pub volatile: Volatile,
    pub answer: Result<u8, Refusal>,
}

// The result of a run: both halves, how many steps were done, and the refusal if there is one.
#[derive(Clone, Copy)]
pub struct Ran {
    pub fuses: u8,
    pub volatile: Volatile,
    pub done: usize,
    pub refusal: Option<Refusal>,
}

// The steps of a sound card, up to the first that is refused.
fn drive(image: &mut [u8], fuses: u8, v: Volatile, steps: &[u8], answers: &mut [u8]) -> Ran
    requires { given_run_refusal (given image.old fuses v) (length steps.now) (length answers.old) ≡ 0 }
    ensures { RunAnswered (given image.old fuses v) steps.now answers.old (given image.new result.fuses result.volatile) result.done (number_if_any result.refusal) answers.new }
{
    let mut f = fuses;
    let mut s = v;
    let mut p = v.pin(image, fuses);
    for (i, n) in steps.iter().enumerate() {
        match inner_step::step(s, image, f, p, *n as u32) {
            Ok(left) => {
                f = left.fuses;
                s = left.volatile;
                p = left.pin;
            }
            Err(refusal) => {
                return Ran {
                    fuses: f,
                    volatile: s,
                    done: i,
                    refusal: Some(refusal),
                };
            }
        }
        answers[i] = p;
    }
    Ran {
        fuses: f,
        volatile: s,
        done: steps.len(),
        refusal: None,
    }
}

// A run over a list of steps, with one answer byte for each that is accepted.
#[tactic(auto, unfolding(rules::specs::Numbers::number_in))]
pub fn run(image: &mut [u8], fuses: u8, v: Volatile, steps: &[u8], answers: &mut [u8]) -> Ran
    ensures { RunAnswered (given image.old fuses v) steps.now answers.old (given image.new result.fuses result.volatile) result.done (number_if_any result.refusal) answers.new }
{
    if let Err(refusal) = refusals::run_refusal(image, fuses, v, steps.len(), answers.len()) {
        return Ran {
            fuses,
            volatile: v,
            done: 0,
            refusal: Some(refusal),
        };
    }
    drive(image, fuses, v, steps, answers)
}

// One step of a sound card, as a run of one.
fn step_by_run(image: &mut [u8], fuses: u8, v: Volatile, n: u8) -> Stepped
    requires { given_refusal (given image.old fuses v) ≡ 0 }
    ensures { StepAnswered (given image.old fuses v) n (given image.new result.fuses result.volatile) (numbered result.answer) }
{
    let mut told = [1u8];
    let ran = drive(image, fuses, v, &[n], &mut told);
    Stepped {
        fuses: ran.fuses,
        volatile: ran.volatile,
        answer: match ran.refusal {
            None => Ok(told[0]),
            Some(refusal) => Err(refusal),
        },
    }
}

// One step.
#[tactic(auto, unfolding(rules::specs::Numbers::number_in))]
pub fn step(image: &mut [u8], fuses: u8, v: Volatile, n: u8) -> Stepped
    ensures { StepAnswered (given image.old fuses v) n (given image.new result.fuses result.volatile) (numbered result.answer) }
{
    if let Err(refusal) = refusals::quick_state_refusal(image, fuses, v) {
        return Stepped {
            fuses,
            volatile: v,
            answer: Err(refusal),
        };
    }
    match quick::step(v, n as u32) {
        Some(next) => Stepped {
            fuses,
            volatile: next,
            answer: Ok(next.pin(image, fuses)),
        },
        None => step_by_run(image, fuses, v, n),
    }
}
