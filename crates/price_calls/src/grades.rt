// The printed price lists: the lower limit of each grade, and the grade of a range by such a table.
ghost use Rattle.std.specs.Prelude.{◌≡◌, ◌^◌, ◌<◌, length};
ghost use Rattle.prices.specs.Grades.{grade_by};
ghost use Rattle.price_calls.specs.PriceLists.{ListNamed, limits_in};

use commands::refusal::Refusal;

// Behind each limit its grade.
const OLD_LIMITS: [u32; 40] = [
    0, // 0
    250, // 1
    500, // 2
    750, // 3
    1000, // 4
    1250, // 5
    1500, // 6
    1750, // 7
    2000, // 8
    2250, // 9
    2500, // 10
    2750, // 11
    3000, // 12
    3250, // 13
    3500, // 14
    3750, // 15
    4000, // 16
    4250, // 17
    4500, // 18
    4750, // 19
    5000, // 20
    5250, // 21
    5500, // 22
    5750, // 23
    6000, // 24
    6250, // 25
    6500, // 26
    6750, // 27
    7000, // 28
    7250, // 29
    7500, // 30
    7750, // 31
    8000, // 32
    8250, // 33
    8500, // 34
    8750, // 35
    9000, // 36
    9250, // 37
    9500, // 38
    9750, // 39
];

const NEW_LIMITS: [u32; 50] = [
    0, // 0
    200, // 1
    400, // 2
    600, // 3
    800, // 4
    1000, // 5
    1200, // 6
    1400, // 7
    1600, // 8
    1800, // 9
    2000, // 10
    2200, // 11
    2400, // 12
    2600, // 13
    2800, // 14
    3000, // 15
    3200, // 16
    3400, // 17
    3600, // 18
    3800, // 19
    4000, // 20
    4200, // 21
    4400, // 22
    4600, // 23
    4800, // 24
    5000, // 25
    5200, // 26
    5400, // 27
    5600, // 28
    5800, // 29
    6000, // 30
    6200, // 31
    6400, // 32
    6600, // 33
    6800, // 34
    7000, // 35
    7200, // 36
    7400, // 37
    7600, // 38
    7800, // 39
    8000, // 40
    8200, // 41
    8400, // 42
    8600, // 43
    8800, // 44
    9000, // 45
    9200, // 46
    9400, // 47
    9600, // 48
    9800, // 49
];

/// A printed price list.
#[derive(Clone, Copy, Debug, PartialEq, Eq)]
pub enum PriceList {
    Old,
    New,
}

/// The list of a number: 2 is the new one, 0 and 1 are the old. There is no other.
impl TryFrom<u32> for PriceList {
    type Error = Refusal;

    ghost try_from_gives = { ListNamed };

    #[inline(always)]
    fn try_from(number: u32) -> Result<PriceList, Refusal> {
        match number {
            0 | 1 => Ok(PriceList::Old),
            2 => Ok(PriceList::New),
            _ => Err(Refusal::NoPriceList),
        }
    }
}

impl PriceList {
    /// The grade of a range.
    #[inline(always)]
    #[tactic(auto, unfolding(prices::specs::Grades::old_limits, prices::specs::Grades::new_limits))]
    pub fn grade(self, range: u32) -> u32
        ensures { result ≡ grade_by (limits_in self) range }
    {
        match self {
            PriceList::Old => grade_by(&OLD_LIMITS, range),
            PriceList::New => grade_by(&NEW_LIMITS, range),
        }
    }
}

// How many limits are not above the range, less one. A table has no more lines than a word can count. No branch asks
// for a limit, so that the compiler makes vector compares; `filter` and `count` would ask.
#[inline(always)]
#[tactic(auto, unfolding(prices::specs::Grades::grade_by))]
fn grade_by(limits: &[u32], range: u32) -> u32
    requires { length limits.now < 2 ^ 32 }
    ensures { result ≡ grade_by limits.now range }
{
    let mut reached: u32 = 0;
    for limit in limits {
        reached += u32::from(*limit <= range);
    }
    reached.saturating_sub(1)
}
