// The refusals that a step and a run give before anything else.
#![tactic(auto)]

ghost use Rattle.std.specs.Prelude.{◌≡◌};
ghost use Rattle.rules.specs.Numbers.{number_in};
ghost use Rattle.volatile.specs.Packed.{given};
ghost use Rattle.refusals.specs.Before.{given_refusal, given_run_refusal};

use rules::Refusal;
use volatile::Volatile;

// 10, 14, 9.
#[tactic(auto, unfolding(rules::specs::Numbers::number_in, crate::specs::Before::given_refusal))]
pub fn state_refusal(image: &[u8], fuses: u8, v: Volatile) -> Result<(), Refusal>
    ensures { number_in result ≡ given_refusal (given image.now fuses v) }
{
    if image.len() != rules::BYTES {
        return Err(Refusal::ImageLength);
    }
    if 7 < fuses {
        return Err(Refusal::FuseByte);
    }
    if v.made_up_by_clause() {
        return Err(Refusal::MadeUp);
    }
    Ok(())
}

// The same, by a few tests for the state that most steps start from.
pub fn quick_state_refusal(image: &[u8], fuses: u8, v: Volatile) -> Result<(), Refusal>
    ensures { number_in result ≡ given_refusal (given image.now fuses v) }
{
    if image.len() == rules::BYTES && fuses <= 7 && v.plainly_sound() {
        return Ok(());
    }
    state_refusal(image, fuses, v)
}

// 10, 14, 9, 18, 19.
#[tactic(auto, using(crate::proofs::Laws::state_first, crate::proofs::Laws::over_long, crate::proofs::Laws::too_little_room, crate::proofs::Laws::all_well), unfolding(rules::specs::Numbers::number_in))]
pub fn run_refusal(
    image: &[u8],
    fuses: u8,
    v: Volatile,
    steps: usize,
    room: usize,
) -> Result<(), Refusal>
    ensures { number_in result ≡ given_run_refusal (given image.now fuses v) steps room }
{
    state_refusal(image, fuses, v)?;
    if rules::LONGEST < steps {
        return Err(Refusal::RunTooLong);
    }
    if room < steps {
        return Err(Refusal::AnswersTooShort);
    }
    Ok(())
}
