// Sums and differences that stay at an end of 64 bits where they would leave them. They are made in 128 bits, for which the
// compiler finds shorter code than for the methods that saturate.
ghost use Rattle.std.specs.Prelude.{◌≡◌, ◌-ℤ◌};
ghost use Rattle.std.specs.Int.{saturate_signed, w64};
ghost use Rattle.kinds.specs.Arrivals.{sum_within};

pub(crate) fn sum(x: i64, y: i64) -> i64
    ensures { result ≡ sum_within x y }
{
    let sum = i128::from(x) + i128::from(y);
    sum.clamp(i128::from(i64::MIN), i128::from(i64::MAX)) as i64
}

pub(crate) fn difference(x: i64, y: i64) -> i64
    ensures { result ≡ saturate_signed w64 (x -ℤ y) }
{
    let difference = i128::from(x) - i128::from(y);
    difference.clamp(i128::from(i64::MIN), i128::from(i64::MAX)) as i64
}
