// The signed numbers of the calls: only these functions compute with i32, the others with naturals.
ghost use Rattle.std.specs.Prelude.{◌≡◌, ◌*◌, ◌≤◌, ◌<◌, pos, nat_abs, ◌-ℤ◌, ◌*ℤ◌};
ghost use Rattle.std.specs.Int.Signed.{quot_z};
ghost use Rattle.paper.specs.Time.{subframe_seconds, week_subframes, most_subframes, week_seconds};

use crate::{SUBFRAME_SECONDS, WEEK_SECONDS};

const SUBFRAME: i32 = SUBFRAME_SECONDS as i32;

const WEEK_SUBFRAMES: i32 = (WEEK_SECONDS / SUBFRAME_SECONDS) as i32;

// The seconds of so many subframes: as many as STORE 3.6 allows fit.
pub(crate) fn in_seconds(subframes: i32) -> i32
    requires { nat_abs subframes ≤ most_subframes }
    ensures { result ≡ subframes *ℤ pos subframe_seconds }
{
    subframes * SUBFRAME
}

// The subframes of the weeks apart.
pub(crate) fn weeks_apart(week: u16, other: u16) -> i32
    ensures { (result ≡ (pos week -ℤ pos other) *ℤ pos week_subframes) × (nat_abs result < 65536 * week_subframes) }
{
    ((week as i32) - (other as i32)) * WEEK_SUBFRAMES
}

// The subframes of the times of week apart, rounded toward zero as `/` does.
pub(crate) fn times_apart(time: u32, other: u32) -> i32
    requires { (time < week_seconds) × (other < week_seconds) }
    ensures { (result ≡ quot_z (pos time -ℤ pos other) (pos subframe_seconds)) × (nat_abs result < week_seconds) }
{
    ((time as i32) - (other as i32)) / SUBFRAME
}
