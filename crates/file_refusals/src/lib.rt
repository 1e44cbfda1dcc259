// 10 to 17: whether a card file or a session opens.
#![tactic(auto)]

ghost use Rattle.std.specs.Prelude.{◌+◌, ◌<◌, ◌≡◌, length};
ghost use Rattle.rules.specs.Numbers.{number_in};
ghost use Rattle.rules.specs.File.{count as count_at, parts_refusal, card_refusal, session_refusal};

use rules::Refusal;

// "two bytes, low first"
#[tactic(auto, unfolding(rules::specs::File::count))]
fn count(file: &[u8], at: usize) -> usize
    requires { at + 1 < length file.now }
    ensures value { result ≡ count_at file.now at }
    ensures upper_bound { result < 65536 }
{
    u16::from_le_bytes([file[at], file[at + 1]]) as usize
}

// 10 to 14.
#[tactic(auto, unfolding(rules::specs::Numbers::number_in, rules::specs::File::parts_refusal, rules::specs::File::fuse_section))]
fn parts_refusal(file: &[u8], room: usize) -> Result<(), Refusal>
    ensures { number_in result ≡ parts_refusal file.now room 0 }
{
    if room != rules::BYTES {
        return Err(Refusal::ImageLength);
    }
    if file.len() < rules::STEP_COUNT_AT {
        return Err(Refusal::FileTooShort);
    }
    if count(file, 0) != rules::BYTES {
        return Err(Refusal::FirstCount);
    }
    if count(file, rules::FUSE_COUNT_AT) != 1 {
        return Err(Refusal::SecondCount);
    }
    if 7 < file[rules::FUSES_AT] {
        return Err(Refusal::FuseByte);
    }
    Ok(())
}

#[tactic(auto, using(crate::proofs::Refusals::parts_first), unfolding(rules::specs::Numbers::number_in, rules::specs::File::card_refusal))]
pub fn card_refusal(file: &[u8], room: usize) -> Result<(), Refusal>
    ensures { number_in result ≡ card_refusal file.now room }
{
    parts_refusal(file, room)?;
    if file.len() != rules::STEP_COUNT_AT {
        return Err(Refusal::FileLength);
    }
    Ok(())
}

#[tactic(auto, using(crate::proofs::Refusals::parts_first), unfolding(rules::specs::Numbers::number_in, rules::specs::File::session_refusal, rules::specs::File::step_count))]
pub fn session_refusal(file: &[u8], room: usize) -> Result<(), Refusal>
    ensures { number_in result ≡ session_refusal file.now room }
{
    parts_refusal(file, room)?;
    if file.len() < rules::STEPS_AT {
        return Err(Refusal::SessionTooShort);
    }
    let steps = count(file, rules::STEP_COUNT_AT);
    if rules::LONGEST < steps {
        return Err(Refusal::StepCount);
    }
    if file.len() != rules::STEPS_AT + steps {
        return Err(Refusal::FileLength);
    }
    Ok(())
}
