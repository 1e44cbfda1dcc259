// Why a write would do nothing.
ghost use Rattle.std.specs.Prelude.{◌≡◌};
ghost use Rattle.looks.specs.Reasons.{reason_answer};
ghost use Rattle.exports.specs.Rendered.{reason_bytes};

use volatile::Volatile;

// What stands in the reason's place beside a refusal, so that none reads as a right.
const UNANSWERED: u8 = 255;

// The reason, 0 where the right is there and 255 where refused, and the refusal, 0 if none.
#[repr(C)]
#[derive(Clone, Copy)]
pub struct ZhavWhy {
    pub reason: u8,
    pub refusal: u8,
}

// The reason why CLK's fall would change nothing by right, PGM taken as low already.
#[tactic(auto, unfolding(crate::specs::Rendered::reason_bytes, rules::specs::Numbers::numbered))]
#[unsafe(no_mangle)]
pub extern "C" fn zhav_reason(image: &[u8], fuses: u8, v: Volatile) -> ZhavWhy
    ensures { result ≡ reason_bytes (reason_answer image.now fuses v) }
{
    match looks::reason(image, fuses, v) {
        Ok(reason) => ZhavWhy {
            reason: looks::number_of(reason),
            refusal: 0,
        },
        Err(refusal) => ZhavWhy {
            reason: UNANSWERED,
            refusal: refusal.number(),
        },
    }
}
