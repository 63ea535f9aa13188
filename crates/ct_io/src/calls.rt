ghost use Rattle.std.specs.Prelude.{◌≡◌};
ghost use Rattle.ct_io.specs.Counts.{is_listed};

use ct_value::List;

/// Numbers of calls, counted from 1: those that are to fail.
pub type Calls = List<u64>;

// Whether a call has one of these numbers.
pub(crate) fn is_listed(calls: &Calls, number: u64) -> bool
    ensures { result ≡ is_listed calls.now number }
{
    calls.as_slice().iter().any(|listed| *listed == number)
}
