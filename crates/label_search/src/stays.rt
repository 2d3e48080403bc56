//! Where a place of calls over a chart is: its spot, and how many calls are made there.

ghost use Rattle.std.specs.Prelude.{◌≡◌, ◌<◌, ◌/◌, ◌%◌};

/// A spot, and how many calls are made there.
#[derive(Clone, Copy)]
pub(crate) struct Stay {
    pub(crate) spot: usize,
    pub(crate) made: usize,
}

// The stay of a number, of so many at each spot: where there is one nothing is divided, and where
// there are few, a division by a number that is written here is a multiplication.
pub(crate) fn stay_of(number: usize, levels: usize) -> Stay
    requires { 0 < levels }
    ensures spot { result.spot ≡ number / levels }
    ensures made { result.made ≡ number % levels }
{
    if levels == 1 {
        return Stay {
            spot: number,
            made: 0,
        };
    }
    if levels == 2 {
        return Stay {
            spot: number / 2,
            made: number % 2,
        };
    }
    if levels == 3 {
        return Stay {
            spot: number / 3,
            made: number % 3,
        };
    }
    if levels == 4 {
        return Stay {
            spot: number / 4,
            made: number % 4,
        };
    }
    Stay {
        spot: number / levels,
        made: number % levels,
    }
}
